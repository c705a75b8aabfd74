// The coefficients of missing hours, on plain numbers: a month's hours less those that are missing, not
// below 0, over all of them.
#![tactic(auto)]

ghost use Rattle.std.specs.Prelude.{◌≡◌, ◌-◌, max};
ghost use Rattle.rules.specs.Coefficients.{share};

use units::share;

// k2: by the larger of the two counts.
pub fn bids(hours: u32, up: u16, down: u16) -> u64
    ensures { result ≡ share (hours - max up down) hours }
{
    share(hours.saturating_sub(up.max(down) as u32), hours)
}

// k5.
pub fn plans(hours: u32, plan: u16) -> u64
    ensures { result ≡ share (hours - plan) hours }
{
    share(hours.saturating_sub(plan as u32), hours)
}
