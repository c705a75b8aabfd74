// What a settlement takes from a producer's hours: number 9, k4's sums and the control average of outside
// use.
ghost use Rattle.std.specs.Prelude.{◌≡◌, ◌*◌, ◌≤◌, IfOk};
ghost use Rattle.laws.specs.Bounds.{most_word};
ghost use Rattle.hours.specs.Figures.{tried_sums, hour_figures};

use crate::control::outside_average;
use crate::k4::{K4, k4_sums, month_sums};
use crate::order::{HourOrder, hour_order};
use calendar::ControlDays;
use refusals_powers::high_powers;
use rules::{HourSeries, Refusal};
use units::{Hundredths, Tenths};

// k4's sums and the control average of outside use.
#[derive(Clone, Copy)]
pub struct HourFigures {
    pub sums: K4,
    pub average: Hundredths,
}

// k4's sums of a month of so many days, for a summed capacity S; refused where a power of the part is above
// the ceiling. A month in an order that a sheet has is read in one pass.
#[tactic(auto, unfolding(crate::specs::Figures::tried_sums))]
fn tried_sums(part: &[u8], of: HourSeries, days: u8, summed: Tenths) -> Result<K4, Refusal>
    ensures { result ≡ tried_sums part.now of days summed.0 }
{
    let hours = 24 * days as usize;
    match hour_order(part.len(), of, days) {
        Some(HourOrder::ByHour) => month_sums::<12>(part, 4, 8, hours, summed),
        Some(HourOrder::ByColumn) => month_sums::<4>(part, 4 * hours, 8 * hours, hours, summed),
        None => {
            if high_powers(part) {
                return Err(Refusal::AboveCeiling);
            }
            Ok(k4_sums(part, of.working, of.possible, days, summed))
        }
    }
}

// The figures of a month of so many days, for a summed capacity S; refused where a power of the part is above
// the ceiling.
#[tactic(auto, unfolding(crate::specs::Figures::tried_sums, crate::specs::Figures::hour_figures))]
pub fn hour_figures(
    part: &[u8],
    of: HourSeries,
    days: u8,
    summed: Tenths,
    control: ControlDays,
) -> Result<HourFigures, Refusal>
    ensures figures { result ≡ hour_figures part.now of days summed.0 control.on }
    ensures fits { IfOk result (λ f. (f.sums.asked.0 ≤ most_word * (24 * days))
        × (f.sums.met.0 ≤ most_word * (24 * days))
        × (f.average.0 ≤ 10 * most_word)) }
{
    let sums = tried_sums(part, of, days, summed)?;
    let average = outside_average(part, of.outside, days, control);
    Ok(HourFigures { sums, average })
}
