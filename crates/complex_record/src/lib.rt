// The record of an industrial complex: its figures, its net power on average, and numbers 16 and 17.
#![tactic(auto)]

ghost use Rattle.std.specs.Prelude.{◌≡◌};
ghost use Rattle.rules.specs.ComplexRecord.{complex, imported};
ghost use Rattle.rules.specs.Averaging.{bad_record, record_tests};
ghost use Rattle.rules.specs.Refusals.{first_of};
ghost use Rattle.rules.specs.Said.{number_or_none};
ghost use Rattle.complex_record.specs.Net.{net_average};

use calendar::ControlDays;
use fields::{byte, word};
use hours::net_average_to_tenth;
use refusals_powers::high_powers;
use rules::{Header, Refusal, Series};
use units::Tenths;

// The consumer of the sheet that the complex is.
#[tactic(auto, unfolding(rules::specs::ComplexRecord::complex))]
pub fn complex(rec: &[u8]) -> u8
    ensures { result ≡ complex rec.now }
{
    byte(rec, 4)
}

// The imported power of the month.
#[tactic(auto, unfolding(rules::specs::ComplexRecord::imported))]
pub fn imported(rec: &[u8]) -> u32
    ensures { result ≡ imported rec.now }
{
    word(rec, 5)
}

// The control average of net power, drawn less sent out, to a tenth. Nothing is counted where the record ends
// before the hours of so many days do.
pub fn net_average(rec: &[u8], days: u8, control: ControlDays) -> Tenths
    ensures { result.0 ≡ net_average rec.now days control.on }
{
    let drawn = Series { start: 0, step: 8 };
    let sent = Series { start: 4, step: 8 };
    let hours = rec.get(9..).unwrap_or(&[]);
    net_average_to_tenth(hours, drawn, sent, days, control)
}

// 16.
#[tactic(auto, unfolding(rules::specs::Averaging::bad_record, rules::specs::Refusals::one_of, rules::specs::ComplexRecord::record_length))]
fn bad_record(h: Header, rec: &[u8]) -> bool
    ensures { result ≡ bad_record h rec.now }
{
    let length = word(rec, 0) as usize;
    let days = h.days as usize;
    rec.len() < 9 || length != rec.len() || length != 9 + 192 * days || h.consumers <= complex(rec)
}

// Passes a record, for a sheet with this header, to which none of the numbers 16 and 17 applies.
#[tactic(auto, using(crate::proofs::Powers::powers_high, laws::proofs::Averaging::whole_record), unfolding(rules::specs::Averaging::record_tests, rules::specs::Refusals::first_of))]
pub fn try_record(h: Header, rec: &[u8]) -> Result<(), Refusal>
    ensures { number_or_none result ≡ first_of (record_tests h rec.now) }
{
    if bad_record(h, rec) {
        return Err(Refusal::BadRecord);
    }
    // Imported power and the powers of the hours follow each other.
    if high_powers(&rec[5..]) {
        return Err(Refusal::RecordAboveCeiling);
    }
    Ok(())
}
