// The listing under the text of 2015: a line for each consumer, read back from that result's bytes.
ghost use Rattle.std.specs.Prelude.{◌≡◌};
ghost use Rattle.rules.specs.Outcome2015.{outcome_2015};
ghost use Rattle.rules.specs.Said.{said};

use crate::decimals::{Money, Tenths};
use crate::long;
use fields::byte;
use rules::Refusal;
use sheet::header;
use text2015::settle_2015;

// Consumer c: its number, factor, volume, charge.
fn print_consumer(rt: &impl Print, res: &[u8], c: u8) {
    let at = 4 + 17 * (c as usize);
    let factor = Tenths(byte(res, at) as u64);
    let volume = Tenths(long(res, at + 1));
    let charge = Money(long(res, at + 9));
    let _ = println!(rt; "C{c} {factor} {volume} {charge}");
}

fn print_consumers(rt: &impl Print, res: &[u8], consumers: u8) {
    for c in 0..consumers {
        print_consumer(rt, res, c);
    }
}

// Settles a sheet's consumers under the text of 2015 and prints their listing on standard output: their
// lines, or the number of the refusal. The answer is the settlement's.
pub fn list_2015(rt: &impl Print, sheet: &[u8]) -> Result<usize, Refusal>
    ensures { said result ≡ outcome_2015 sheet.now 548 }
{
    let mut result = [0u8; 548];
    let answer = settle_2015(sheet, &mut result);
    match answer {
        Ok(_) => print_consumers(rt, &result, header(sheet).consumers),
        Err(refusal) => {
            let _ = println!(rt; "{refusal}");
        }
    }
    answer
}
