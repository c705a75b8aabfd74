// The entries for C, one below the other. All answers are i64: a count, or minus the refusal's number
// (include/capacity.h).
#![tactic(auto)]

ghost use Rattle.std.specs.Prelude.{◌≡◌, length, ◌<◌};
ghost use Rattle.rules.specs.Outcome.{outcome, buffer_after};
ghost use Rattle.rules.specs.Said.{said};
ghost use Rattle.rules.specs.Transfers.{transfer_outcome, transferred};
ghost use Rattle.rules.specs.Averaging.{average_outcome, averaged};
ghost use Rattle.rules.specs.Outcome2015.{outcome_2015, buffer_after_2015};
ghost use Rattle.capacity.specs.InC.{in_c, counted, count_end};

use averaging::average;
use rules::Refusal;
use settlement::settle;
use text2015::settle_2015;
use transfers::transfer;

// An answer as one number for C. Every entry hands its answer over here.
fn in_c(answer: Result<usize, Refusal>) -> i64
    requires { counted (said answer) < count_end }
    ensures { result ≡ in_c (said answer) }
{
    match answer {
        Err(refusal) => -(refusal.number() as i64),
        Ok(count) => count as i64,
    }
}

// The settlement: the count of bytes written, or minus the refusal's number.
#[unsafe(no_mangle)]
pub extern "C" fn capacity_settle(sheet: &[u8], res: &mut [u8]) -> i64
    ensures answer { result ≡ in_c (outcome sheet.now (length res.old)) }
    ensures buffer { res.new ≡ buffer_after sheet.now res.old }
{
    in_c(settle(sheet, res))
}

// A list of transfers, applied to a sheet: 0, or minus the refusal's number.
#[unsafe(no_mangle)]
pub extern "C" fn capacity_transfer(sheet: &mut [u8], list: &[u8]) -> i64
    ensures answer { result ≡ in_c (transfer_outcome sheet.old list.now) }
    ensures sheet { sheet.new ≡ transferred sheet.old list.now }
{
    in_c(transfer(sheet, list))
}

// The peak of an industrial complex, written into a sheet: 0, or minus the refusal's number.
#[unsafe(no_mangle)]
pub extern "C" fn capacity_average(sheet: &mut [u8], rec: &[u8]) -> i64
    ensures answer { result ≡ in_c (average_outcome sheet.old rec.now) }
    ensures sheet { sheet.new ≡ averaged sheet.old rec.now }
{
    in_c(average(sheet, rec))
}

// Consumers under the text of 2015: the count of bytes written, or minus the refusal's number.
#[unsafe(no_mangle)]
pub extern "C" fn capacity_settle_2015(sheet: &[u8], res: &mut [u8]) -> i64
    ensures answer { result ≡ in_c (outcome_2015 sheet.now (length res.old)) }
    ensures buffer { res.new ≡ buffer_after_2015 sheet.now res.old }
{
    in_c(settle_2015(sheet, res))
}
