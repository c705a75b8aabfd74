// The listing: a settlement's figures as lines of text, read back from the result's bytes; and that under the
// text of 2015.
#![tactic(auto)]

ghost use Rattle.std.specs.Prelude.{◌≡◌, ◌≤◌};
ghost use Rattle.rules.specs.Outcome.{outcome};
ghost use Rattle.rules.specs.Said.{said};

use fields::{byte, word};
use rules::{Header, Refusal};
use settlement::settle;
use sheet::header;

mod decimals;
mod text_2015;

use decimals::{Money, Tenths};
pub use text_2015::list_2015;

// Where the record after so many rows and consumers begins.
fn record_at(rows: u8, consumers: u8) -> usize
    ensures { result ≤ 10460 }
{
    5 + 16 * (rows as usize) + 25 * (consumers as usize)
}

// The number in eight bytes.
pub(crate) fn long(s: &[u8], at: usize) -> u64
    requires { at ≤ 65536 }
{
    (word(s, at) as u64) * 4294967296 + (word(s, at + 4) as u64)
}

// The tenths in four bytes.
fn short_tenths(s: &[u8], at: usize) -> Tenths {
    Tenths(word(s, at) as u64)
}

// Row j: its number, volume after the cut, actual volume, payment.
fn print_row(rt: &impl Print, res: &[u8], j: u8) {
    let at = record_at(j, 0);
    let after_cut = short_tenths(res, at);
    let actual = short_tenths(res, at + 4);
    let payment = Money(long(res, at + 8));
    let _ = println!(rt; "R{j} {after_cut} {actual} {payment}");
}

// Consumer c: its number, credit, percent, n, actual volume, charge.
fn print_consumer(rt: &impl Print, res: &[u8], rows: u8, c: u8) {
    let at = record_at(rows, c);
    let credit = short_tenths(res, at);
    let percent = short_tenths(res, at + 4);
    let n = Tenths(byte(res, at + 8) as u64);
    let actual = Tenths(long(res, at + 9));
    let charge = Money(long(res, at + 17));
    let _ = println!(rt; "C{c} {credit} {percent} {n} {actual} {charge}");
}

// The totals: paid, charged.
fn print_totals(rt: &impl Print, res: &[u8], h: Header) {
    let at = record_at(h.rows, h.consumers);
    let paid = Money(long(res, at));
    let charged = Money(long(res, at + 8));
    let _ = println!(rt; "T {paid} {charged}");
}

// The figures of a sheet's result.
fn print_figures(rt: &impl Print, res: &[u8], h: Header) {
    for j in 0..h.rows {
        print_row(rt, res, j);
    }
    for c in 0..h.consumers {
        print_consumer(rt, res, h.rows, c);
    }
    print_totals(rt, res, h);
}

// Settles a sheet and prints its listing on standard output: the figures, or the number of the refusal. The
// answer is the settlement's.
pub fn list(rt: &impl Print, sheet: &[u8]) -> Result<usize, Refusal>
    ensures { said result ≡ outcome sheet.now 1333 }
{
    let mut result = [0u8; 1333];
    let answer = settle(sheet, &mut result);
    match answer {
        Ok(_) => print_figures(rt, &result, header(sheet)),
        Err(refusal) => {
            let _ = println!(rt; "{refusal}");
        }
    }
    answer
}
