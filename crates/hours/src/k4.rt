// k4's sums over the hours.
ghost use Rattle.std.specs.Prelude.{◌≡◌, ◌+◌, ◌*◌, ◌≤◌, true, false, length};
ghost use Rattle.rules.specs.Range.{any};
ghost use Rattle.refusals_powers.specs.Powers.{high_powers};
ghost use Rattle.hours.specs.Sums.{k4_in, no_sums, hour_high, sums_of_hours};

use crate::series::{both_stand, power, power_at};
use refusals_powers::all_low;
use rules::{Refusal, Series};
use units::Tenths;

// Over the hours: m, and what was met of it (k4).
#[derive(Clone, Copy)]
pub struct K4 {
    pub asked: Tenths,
    pub met: Tenths,
}

// Those of no hours.
pub(crate) fn no_sums() -> K4
    ensures { result ≡ no_sums }
{
    K4 {
        asked: Tenths(0),
        met: Tenths(0),
    }
}

// k4's sums for a summed capacity S of so many hours, each STEP bytes after the one before it; refused where
// a power of theirs is above the ceiling. The largest power is tried once, at the end. Where it is within the
// ceiling, an S above the ceiling is as one at it, and no sum leaves 32 bits. Of hours that are LOW, below the
// ceiling beforehand, no largest power is asked for, and no outside use is read.
fn hour_sums<const STEP: usize, const LOW: bool>(
    part: &[u8],
    possible: usize,
    outside: usize,
    hours: usize,
    summed: Tenths,
) -> Result<K4, Refusal>
    requires inside { outside + STEP * hours + 4 ≤ length part.now + STEP }
    requires small { (possible ≤ outside) × (4 ≤ STEP) × (STEP ≤ 12) × (hours ≤ 744) }
    requires low { LOW ≡ true → any (hour_high part.now STEP possible outside) hours ≡ false }
    ensures { result ≡ sums_of_hours part.now STEP possible outside hours summed.0 }
{
    let held = summed.0.min(Tenths::CEILING) as u32;
    let mut most: u32 = 0;
    let mut asked: u32 = 0;
    let mut met: u32 = 0;
    for i in 0..hours {
        let w = power_at(part, STEP * i);
        let p = power_at(part, possible + STEP * i);
        let o = power_at(part, outside + STEP * i);
        let m = held.min(p);
        if !LOW {
            most = most.max(w.max(p).max(o));
        }
        asked = asked.wrapping_add(m);
        met = met.wrapping_add(m.min(w));
    }
    if Tenths::CEILING < most as u64 {
        return Err(Refusal::AboveCeiling);
    }
    Ok(K4 {
        asked: Tenths(asked as u64),
        met: Tenths(met as u64),
    })
}

// The same of the hours that fill a part. Most months are low as a whole, which is told from the joined bits
// of all powers.
pub(crate) fn month_sums<const STEP: usize>(
    part: &[u8],
    possible: usize,
    outside: usize,
    hours: usize,
    summed: Tenths,
) -> Result<K4, Refusal>
    requires inside { outside + STEP * hours + 4 ≤ length part.now + STEP }
    requires small { (possible ≤ outside) × (4 ≤ STEP) × (STEP ≤ 12) × (hours ≤ 744) }
    requires filled { any (hour_high part.now STEP possible outside) hours ≡ high_powers part.now }
    ensures { result ≡ sums_of_hours part.now STEP possible outside hours summed.0 }
{
    if all_low(part) {
        return hour_sums::<STEP, true>(part, possible, outside, hours, summed);
    }
    hour_sums::<STEP, false>(part, possible, outside, hours, summed)
}

// k4's sums over a month of so many days, whatever its series and powers are. There are none where the part
// ends before the powers do. It stays for what `hour_figures` promises of any series; no sheet has one that
// comes here.
#[tactic(auto, unfolding(crate::specs::Sums::k4_in))]
pub(crate) fn k4_sums(
    part: &[u8],
    working: Series,
    possible: Series,
    days: u8,
    summed: Tenths,
) -> K4
    ensures { result ≡ k4_in part.now working possible days summed.0 }
{
    let hours = 24 * days as u16;
    if !both_stand(part, working, possible, hours) {
        return no_sums();
    }
    let mut asked: u64 = 0;
    let mut met: u64 = 0;
    for i in 0..hours as usize {
        let p = power(part, possible, i) as u64;
        let m = summed.0.min(p);
        asked += m;
        let w = power(part, working, i) as u64;
        met += m.min(w);
    }
    K4 {
        asked: Tenths(asked),
        met: Tenths(met),
    }
}
