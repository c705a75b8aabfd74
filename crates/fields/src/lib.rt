// Big-endian fields, read at any place of a slice; and four bytes as the machine's word has them.
#![tactic(auto)]

ghost use Rattle.std.specs.Prelude.{◌≡◌, ◌+◌, ◌*◌, ◌<◌, ◌≤◌, ℕ, slice_index};
ghost use Rattle.rules.specs.Fields.{big_endian};

// The byte at a place; 0 past the end.
#[tactic(auto, unfolding(rules::specs::Fields::big_endian))]
pub fn byte(s: &[u8], at: usize) -> u8
    ensures { result ≡ big_endian 1 s.now at }
{
    s.get(at).copied().unwrap_or(0)
}

// The N bytes from a place on; a byte past the end counts as 0. One test for all makes them one load.
fn bytes<const N: usize>(s: &[u8], at: usize) -> [u8; N]
    ensures { (i : ℕ) → i < N → slice_index result i ≡ slice_index s.now (at + i) }
{
    let rest = &s[at.min(s.len())..];
    if let Some(whole) = rest.first_chunk() {
        return *whole;
    }
    let mut found = [0; N];
    for i in 0..N {
        found[i] = byte(rest, i);
    }
    found
}

// The number in two bytes; a byte past the end counts as 0.
#[tactic(auto, unfolding(rules::specs::Fields::big_endian))]
pub fn half(s: &[u8], at: usize) -> u16
    ensures { result ≡ big_endian 2 s.now at }
{
    u16::from_be_bytes(bytes(s, at))
}

// The number in four bytes; a byte past the end counts as 0.
#[tactic(auto, unfolding(rules::specs::Fields::big_endian))]
pub fn word(s: &[u8], at: usize) -> u32
    ensures { result ≡ big_endian 4 s.now at }
{
    u32::from_be_bytes(bytes(s, at))
}

// The number in four bytes, the first of them lowest. It stays for what it and its edits promise: no crate
// asks for it today.
pub fn little_endian(a: u8, b: u8, c: u8, d: u8) -> u32
    ensures { result ≡ a + b * 256 + c * 65536 + d * 16777216 }
{
    u32::from_le_bytes([a, b, c, d])
}
