// Industrial complexes: the peak by averaging, written into a sheet. Every sheet and record is answered.
#![tactic(auto)]

ghost use Rattle.std.specs.Prelude.{◌≡◌, ◌≤◌, ◌<◌, length};
ghost use Rattle.rules.specs.Sheet.{sheet_length, with_peak};
ghost use Rattle.rules.specs.ComplexRecord.{record_width};
ghost use Rattle.rules.specs.Averaging.{complex_peak, average_outcome, averaged};
ghost use Rattle.rules.specs.Said.{said};

use calendar::control_days;
use complex_record::{complex, imported, net_average, try_record};
use places::peak_at;
use refusals_sheet::try_sheet;
use rules::{Header, Layout, Refusal};
use units::Tenths;
use writing::{last_four, put};

// The complex's peak, from a record that is as long as the month asks.
fn complex_peak(h: Header, rec: &[u8]) -> Tenths
    requires { (record_width h ≤ length rec.now) × (h.days ≤ 31) × (1 ≤ h.weekday) × (h.weekday ≤ 7) }
    ensures { result.0 ≡ complex_peak h rec.now }
{
    net_average(rec, h.days, control_days(h)).less(Tenths::stated(imported(rec)))
}

// The sheet with a peak of consumer c. A `Sheet` only reads, so the bytes that are written come with their
// layout.
#[tactic(auto, using(crate::proofs::Peak::peak_put))]
fn write_peak(s: &mut [u8], layout: Layout, c: u8, peak: Tenths)
    requires { (sheet_length layout ≤ length s.old) × (c < layout.header.consumers) }
    ensures { s.new ≡ with_peak layout c peak.0 s.old }
{
    let at = peak_at(layout, c);
    put(s, at, last_four(peak.0));
}

// Writes the peak of an industrial complex, taken from its record, into that consumer's field of a sheet.
// A refusal changes no byte. Where the peak is written the count is 0.
#[tactic(auto, using(crate::proofs::Answered::averaging))]
pub fn average(sheet: &mut [u8], rec: &[u8]) -> Result<usize, Refusal>
    ensures answer { said result ≡ average_outcome sheet.old rec.now }
    ensures sheet { sheet.new ≡ averaged sheet.old rec.now }
{
    let layout = try_sheet(sheet)?.layout;
    try_record(layout.header, rec)?;
    let peak = complex_peak(layout.header, rec);
    write_peak(sheet, layout, complex(rec), peak);
    Ok(0)
}
