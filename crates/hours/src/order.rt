// The orders in which a sheet's producer has the hours of a month.
ghost use Rattle.std.specs.Prelude.{◌≡◌};
ghost use Rattle.hours.specs.Order.{is_series, are_hours, hour_order};

use rules::{HourSeries, Series};

// Hour by hour, working, possible and outside-use power after each other; or by column, all working powers
// first, behind them all possible ones, behind these all outside uses.
#[derive(Clone, Copy)]
pub(crate) enum HourOrder {
    ByHour,
    ByColumn,
}

// A series begins at a place and has a step.
#[tactic(auto, unfolding(crate::specs::Order::is_series))]
fn is_series(x: Series, start: usize, step: u16) -> bool
    ensures { result ≡ is_series x start step }
{
    x.start as usize == start && x.step == step
}

// Hours of one step: the working powers begin at the part's front.
#[tactic(auto, unfolding(crate::specs::Order::are_hours))]
fn are_hours(of: HourSeries, possible: usize, outside: usize, step: u16) -> bool
    ensures { result ≡ are_hours of possible outside step }
{
    is_series(of.working, 0, step)
        && is_series(of.possible, possible, step)
        && is_series(of.outside, outside, step)
}

// The order of a month of so many days that fills so many bytes, if it is one that a sheet has.
#[tactic(auto, unfolding(crate::specs::Order::hour_order))]
pub(crate) fn hour_order(bytes: usize, of: HourSeries, days: u8) -> Option<HourOrder>
    ensures { result ≡ hour_order bytes of days }
{
    let column = 96 * days as usize;
    if 31 < days || bytes != 3 * column {
        return None;
    }
    if are_hours(of, 4, 8, 12) {
        return Some(HourOrder::ByHour);
    }
    if are_hours(of, column, 2 * column, 4) {
        return Some(HourOrder::ByColumn);
    }
    None
}
