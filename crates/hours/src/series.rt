// The powers of a series in a lent part.
ghost use Rattle.std.specs.Prelude.{◌≡◌, ◌+◌, ◌<◌, ◌≤◌, ◌&&◌, length};
ghost use Rattle.rules.specs.Fields.{big_endian};
ghost use Rattle.hours.specs.Series.{stands, Stands, power_in, net_in};

use rules::Series;

// So many powers of a series stand in the part.
#[tactic(auto, unfolding(crate::specs::Series::stands))]
pub(crate) fn stands(part: &[u8], x: Series, count: u16) -> bool
    ensures { result ≡ stands (length part.now) x count }
{
    let step = x.step as usize;
    x.start as usize + step * count as usize + 4 <= part.len() + step
}

// So many powers of each of two series do.
pub(crate) fn both_stand(part: &[u8], x: Series, y: Series, count: u16) -> bool
    ensures { result ≡ (stands (length part.now) x count && stands (length part.now) y count) }
{
    stands(part, x, count) && stands(part, y, count)
}

// The power at a place.
pub(crate) fn power_at(part: &[u8], at: usize) -> u32
    requires { at + 4 ≤ length part.now }
    ensures { result ≡ big_endian 4 part.now at }
{
    u32::from_be_bytes([part[at], part[at + 1], part[at + 2], part[at + 3]])
}

// Power i of a series.
pub(crate) fn power(part: &[u8], x: Series, i: usize) -> u32
    requires { Stands part.now x (i + 1) × (i < 65536) }
    ensures { result ≡ power_in part.now x i }
{
    power_at(part, x.start as usize + x.step as usize * i)
}

// Of hour i, the power of one series less that of another, not below 0.
pub(crate) fn net_power(part: &[u8], of: Series, taken: Series, i: usize) -> u32
    requires { Stands part.now of (i + 1) × Stands part.now taken (i + 1) × (i < 65536) }
    ensures { result ≡ net_in part.now of taken i }
{
    power(part, of, i).saturating_sub(power(part, taken, i))
}
