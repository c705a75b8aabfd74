// The figures of one month: the numbers from 4 on under a layout, and the result where none of them applies.
#![tactic(auto)]

ghost use Rattle.std.specs.Prelude.{◌≡◌, length};
ghost use Rattle.rules.specs.Said.{number_or_none};
ghost use Rattle.refusals_sheet.specs.Numbers.{month_number};
ghost use Rattle.result.specs.After.{month_after};

use crate::result::write_result;
use crate::rows::try_terms;
use producers::Terms;
use refusals_sheet::{try_hours, try_records};
use rules::{Layout, Refusal};

mod consumers;
mod result;
mod rows;

// Settles the month that a layout puts into a sheet. Where no number from 4 on applies the result stands at
// the buffer's front; otherwise nothing is written. Number 6 is tried here, so it takes bytes and a layout.
pub fn settle_month(s: &[u8], layout: Layout, out: &mut [u8]) -> Result<(), Refusal>
    ensures number { number_or_none result ≡ month_number layout s.now (length out.old) }
    ensures buffer { out.new ≡ month_after layout s.now out.old }
{
    let sheet = match try_records(s, layout, out.len()) {
        Ok(sheet) => sheet,
        Err(refusal) => return try_hours(s, layout, Err(refusal)),
    };
    let mut terms = [Terms::NONE; 6];
    try_terms(&sheet, &mut terms)?;
    write_result(&sheet, &mut terms, out);
    Ok(())
}
