// The settlement of one month: every sheet and every result buffer is answered.
#![tactic(auto)]

ghost use Rattle.std.specs.Prelude.{◌≡◌, length, ◌+◌};
ghost use Rattle.rules.specs.Outcome.{outcome, buffer_after, hours_stretch, within};
ghost use Rattle.rules.specs.Said.{said};

use places::result_length;
use refusals_form::{producer_hours, try_front};
use result::settle_month;
use rules::Refusal;

// Settles a sheet into a result buffer. A refusal changes no byte of the buffer; bytes past a result keep
// what they had.
#[tactic(auto, using(crate::proofs::Answered::settling))]
pub fn settle(sheet: &[u8], res: &mut [u8]) -> Result<usize, Refusal>
    ensures answer { said result ≡ outcome sheet.now (length res.old) }
    ensures buffer { res.new ≡ buffer_after sheet.now res.old }
{
    try_front(sheet)?;
    let layout = sheet::layout(sheet);
    settle_month(sheet, layout, res)?;
    Ok(result_length(layout.header))
}

// Producer p's hours: that part of the lent sheet, and no copy. Empty where a number from 1 to 6 applies, or
// there is no producer p.
pub fn hours_of(sheet: &[u8], p: u8) -> &[u8]
    ensures part { result.now ≡ within (hours_stretch sheet.now p) sheet.now }
    ensures place { (result.ref_ptr.0 ≡ sheet.entry.ref_ptr.0)
        × (result.ref_ptr.1 ≡ (hours_stretch sheet.now p).place + sheet.entry.ref_ptr.1) }
    ensures bytes { length result.now ≡ (hours_stretch sheet.now p).bytes }
{
    producer_hours(sheet, p)
}
