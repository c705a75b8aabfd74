// Consumers under the text of 2015, for old acts: every sheet and every result buffer is answered.
#![tactic(auto)]

ghost use Rattle.std.specs.Prelude.{◌≡◌, length};
ghost use Rattle.rules.specs.Outcome2015.{outcome_2015, buffer_after_2015};
ghost use Rattle.rules.specs.Result2015.{length_2015};
ghost use Rattle.rules.specs.Said.{said};

use refusals_sheet::try_for_result;
use rules::{Header, Refusal};

mod consumers;
mod figures;

// The length of the result.
#[tactic(auto, unfolding(rules::specs::Result2015::length_2015))]
fn length_2015(h: Header) -> usize
    ensures { result ≡ length_2015 h }
{
    4 + 17 * (h.consumers as usize)
}

// Settles a sheet's consumers under the text of 2015 into a result buffer. A refusal changes no byte of the
// buffer; bytes past a result keep what they had.
#[tactic(auto, using(crate::proofs::Answered::settling))]
pub fn settle_2015(sheet: &[u8], res: &mut [u8]) -> Result<usize, Refusal>
    ensures answer { said result ≡ outcome_2015 sheet.now (length res.old) }
    ensures buffer { res.new ≡ buffer_after_2015 sheet.now res.old }
{
    let count = length_2015(sheet::layout(sheet).header);
    let whole = try_for_result(sheet, count, res.len())?;
    consumers::write_result(&whole, count, res);
    Ok(count)
}
