// The month's calendar: holidays and control days. Days are counted from 0.
#![tactic(auto)]

ghost use Rattle.std.specs.Prelude.{◌≡◌, ℕ, ◌/◌, ◌^◌, ltb};
ghost use Rattle.rules.specs.ControlTable.{table_day, in_table};
ghost use Rattle.calendar.specs.Days.{day_on};

use rules::Header;

pub mod table;

use table::{YES, line_of};

// Which days are control days: a bit for each, the lowest for day 0; none past the 31 that a month may have.
#[derive(Clone, Copy)]
pub struct ControlDays {
    pub on: u32,
}

// The control days that a header gives, whatever its number of days: yes in the table, and no holiday.
pub fn control_days(h: Header) -> ControlDays
    ensures { (day : ℕ) → day_on result.on day ≡ table_day h day }
{
    let line = line_of(h.weekday);
    let mut on: u32 = 0;
    for day in 0..31 {
        if line[day] == YES {
            on |= 1 << day;
        }
    }
    ControlDays {
        on: on & !h.holidays,
    }
}

// The day's bit of the control days; no day past the 32 bits has one.
#[tactic(auto, using(crate::proofs::Shifts::shifted_out), unfolding(crate::specs::Days::day_on))]
pub fn is_on(control: ControlDays, day: u8) -> bool
    ensures { result ≡ day_on control.on day }
{
    day < 32 && (control.on >> day) & 1 == 1
}

// A month that the table has, so that its control days are those of the weekday rule.
#[tactic(auto, unfolding(rules::specs::ControlTable::in_table))]
pub fn in_table(h: Header) -> bool
    ensures { result ≡ in_table h }
{
    1 <= h.weekday && h.weekday <= 7 && h.days <= 31
}

// Some day past the month's end has a bit in the holidays.
#[tactic(auto, using(crate::proofs::Shifts::shifted_out))]
pub fn holiday_past(h: Header) -> bool
    ensures { result ≡ ltb 0 (h.holidays / 2 ^ h.days) }
{
    h.days < 32 && 0 < h.holidays >> h.days
}
