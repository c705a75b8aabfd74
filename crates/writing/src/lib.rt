// Bytes of figures, put at their places in a lent part.
#![tactic(auto)]

ghost use Rattle.std.specs.Prelude.{◌≡◌};
ghost use Rattle.rules.specs.Fields.{bytes_of};
ghost use Rattle.writing.specs.Placed.{placed_at};

const TWO_TO_32: u64 = 4_294_967_296;

// The last four bytes of a number, the highest first.
pub fn last_four(v: u64) -> [u8; 4]
    ensures { result ≡ bytes_of 4 v }
{
    ((v % TWO_TO_32) as u32).to_be_bytes()
}

// Bytes at a place of a lent part; its other bytes stay. A part with no room for them there stays as it was.
#[tactic(auto, unfolding(rules::specs::Fields::over_at, rules::specs::Fields::over))]
pub fn put<const N: usize>(part: &mut [u8], at: usize, bytes: [u8; N])
    ensures { part.new ≡ placed_at at bytes.entry part.old }
{
    if part.len() < at || part.len() - at < N {
        return;
    }
    part[at..at + N].copy_from_slice(&bytes);
}
