// The stretch of a sheet that holds one producer's hours.
ghost use Rattle.std.specs.Prelude.{◌≡◌, ◌+◌, length};
ghost use Rattle.rules.specs.Outcome.{hours_stretch, within};

use crate::parse;
use sheet::stretch;

// Producer p's hours: that part of the lent sheet, and no copy. Empty where a number from 1 to 6 applies, or
// there is no producer p. It takes the stretch of `s` and not `Sheet::hours`, since `place` speaks of the lent
// sheet.
pub fn producer_hours(s: &[u8], p: u8) -> &[u8]
    ensures part { result.now ≡ within (hours_stretch s.now p) s.now }
    ensures place { (result.ref_ptr.0 ≡ s.entry.ref_ptr.0)
        × (result.ref_ptr.1 ≡ (hours_stretch s.now p).place + s.entry.ref_ptr.1) }
    ensures bytes { length result.now ≡ (hours_stretch s.now p).bytes }
{
    let Ok(sheet) = parse(s) else {
        return &s[..0];
    };
    if sheet.layout.header.producers <= p {
        return &s[..0];
    }
    stretch(s, sheet.layout, p)
}
