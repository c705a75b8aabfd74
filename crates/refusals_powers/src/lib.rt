// Numbers 9 and 17 of powers that stand one after the other, as a producer's hours or those of a complex's
// record do.
#![tactic(auto)]

ghost use Rattle.std.specs.Prelude.{◌≡◌, ◌+◌, ◌*◌, ◌%◌, ◌≤◌, ltb, length};
ghost use Rattle.refusals_powers.specs.Powers.{high_powers, all_low, front_from};

use refusals_record::too_high;

// The bits of so many powers from a place on, joined. The two front bytes of a power are the lowest of its
// word: one of them has a bit where some power is above 65,535.
fn joined(s: &[u8], at: usize, count: usize) -> u32
    requires { at + 4 * count ≤ length s.now }
    ensures { ltb 0 (result % 65536) ≡ front_from s.now at count }
{
    let mut bits: u32 = 0;
    for i in 0..count {
        let from = at + 4 * i;
        bits = bits | u32::from_le_bytes([s[from], s[from + 1], s[from + 2], s[from + 3]]);
    }
    bits
}

// No power of a part is above 65,535, as is usual: none has a bit in its two front bytes. Blocks are of 72
// powers, as many as a producer's day has: the compiler writes out a loop of so many. A higher power in
// the first block ends it, as where all powers are high.
pub fn all_low(part: &[u8]) -> bool
    ensures { result ≡ all_low part.now }
{
    let blocks = part.len() / 288;
    let mut bits: u32 = 0;
    for b in 0..blocks {
        bits = bits | joined(part, 288 * b, 72);
        if b == 0 && bits % 65536 != 0 {
            return false;
        }
    }
    bits = bits | joined(part, 288 * blocks, part.len() % 288 / 4);
    bits % 65536 == 0
}

// 9, of the powers of a part, whatever they are and in whatever order. Where not all are low the largest is
// tried, once, at the end. (`iter().any` or a flag for each power takes more instructions: the compiler tries
// four powers at once here alone.)
pub fn high_powers(part: &[u8]) -> bool
    ensures { result ≡ high_powers part.now }
{
    if all_low(part) {
        return false;
    }
    let mut most: u32 = 0;
    for i in 0..part.len() / 4 {
        let at = 4 * i;
        let power = u32::from_be_bytes([part[at], part[at + 1], part[at + 2], part[at + 3]]);
        most = most.max(power);
    }
    too_high(most)
}
