// The control average of a series, to a hundredth, and of one series less another, to a tenth: the sum over
// the control hours by their count.
ghost use Rattle.std.specs.Prelude.{◌≡◌, ℕ, ◌*◌, ◌<◌, ◌≤◌};
ghost use Rattle.laws.specs.Bounds.{most_word};
ghost use Rattle.rules.specs.Units.{tenth, hundredth};
ghost use Rattle.hours.specs.Control.{control_of, no_hours, power_control, net_control, average_of};

use crate::series::{both_stand, net_power, power, stands};
use calendar::{ControlDays, is_on};
use rules::Series;
use units::{Hundredths, Tenths, nearest};

// The sum over the control hours, and how many hours these are.
#[derive(Drop)]
struct Control {
    counted: Tenths,
    count: u64,
}

// The units that an average is rounded to, as how many of them make a tenth.
const TENTH: u64 = 1;

const HUNDREDTH: u64 = 10;

// The sum over the control hours by their count, in units of which so many make a tenth.
fn average_of(control: Control, fineness: u64) -> u64
    requires { (control.counted.0 ≤ most_word * control.count) × (control.count ≤ 186) × (fineness ≤ 10) }
    ensures { result ≡ average_of fineness control }
{
    let counted = control.counted;
    nearest(fineness * counted.0, control.count)
}

// Of no hours.
fn no_hours() -> Control
    ensures { result ≡ no_hours }
{
    Control {
        counted: Tenths(0),
        count: 0,
    }
}

// The hours 17 to 22 of the control days of a month of so many days, by what gives the power of an hour.
fn control_hours<F: Fn(usize) -> u32>(days: u8, control: ControlDays, power_of: F) -> Control
    requires month { days ≤ 31 }
    requires powers { (i : ℕ) → i < 24 * days → F.pre power_of i }
    ensures control { (series : ℕ → ℕ)
        → ((i : ℕ) → (v : ℕ) → i < 24 * days → F.post power_of i v → v ≡ series i)
        → result ≡ control_of series control.on days }
    ensures fits { (result.counted.0 ≤ most_word * result.count) × (result.count ≤ 186) }
{
    let mut counted = Tenths(0);
    let mut count: u64 = 0;
    for day in 0..days {
        if is_on(control, day) {
            for t in 0..6 {
                let power = power_of(24 * day as usize + (17 + t));
                counted = counted.plus(Tenths::stated(power));
            }
            count += 6;
        }
    }
    Control { counted, count }
}

// The control hours of a series. Nothing is counted where the part ends before the powers do, or in a month
// of more than 31 days.
#[tactic(auto, unfolding(crate::specs::Control::control_in))]
fn outside_hours(part: &[u8], x: Series, days: u8, control: ControlDays) -> Control
    ensures control { result ≡ power_control part.now x days control.on }
    ensures fits { (result.counted.0 ≤ most_word * result.count) × (result.count ≤ 186) }
{
    if 31 < days || !stands(part, x, 24 * days as u16) {
        return no_hours();
    }
    control_hours(days, control, |i| power(part, x, i))
}

// Its control average to a hundredth.
pub(crate) fn outside_average(part: &[u8], x: Series, days: u8, control: ControlDays) -> Hundredths
    ensures average { result.0 ≡ average_of hundredth (power_control part.now x days control.on) }
    ensures fits { result.0 ≤ 10 * most_word }
{
    Hundredths(average_of(outside_hours(part, x, days, control), HUNDREDTH))
}

// The control hours of one series less another, however high their powers are. Nothing is counted where the
// part ends before the powers do, or in a month of more than 31 days.
#[tactic(auto, unfolding(crate::specs::Control::control_in))]
fn net_hours(part: &[u8], of: Series, taken: Series, days: u8, control: ControlDays) -> Control
    ensures control { result ≡ net_control part.now of taken days control.on }
    ensures fits { (result.counted.0 ≤ most_word * result.count) × (result.count ≤ 186) }
{
    if 31 < days || !both_stand(part, of, taken, 24 * days as u16) {
        return no_hours();
    }
    control_hours(days, control, |i| net_power(part, of, taken, i))
}

// The control average of one series less another, to a tenth; 0 where nothing is counted.
pub fn net_average_to_tenth(
    part: &[u8],
    of: Series,
    taken: Series,
    days: u8,
    control: ControlDays,
) -> Tenths
    ensures { result.0 ≡ average_of tenth (net_control part.now of taken days control.on) }
{
    Tenths(average_of(net_hours(part, of, taken, days, control), TENTH))
}
