// Numbers 1 to 7: the sheet's form and the result buffer's room. A sheet that passes 1 to 6 is handed on
// whole; and a producer's hours are handed back where it does.
#![tactic(auto)]

ghost use Rattle.std.specs.Prelude.{◌≡◌, length, IfOk, OnOk};
ghost use Rattle.rules.specs.Sheet.{length_field, layout_of, sheet_length};
ghost use Rattle.rules.specs.Refusals.{bad_version, bad_month, too_many, first_of};
ghost use Rattle.rules.specs.Refusals.{front_tests, header_tests, form_tests, room_tests};
ghost use Rattle.rules.specs.Said.{number_or_none};

use calendar::holiday_past;
use fields::{byte, word};
use places::sheet_length;
use rules::{Header, Layout, Refusal};
use sheet::Sheet;

mod stretch;

pub use stretch::producer_hours;

// 3: the version.
#[tactic(auto, unfolding(rules::specs::Refusals::bad_version, rules::specs::Refusals::one_of, rules::specs::Sheet::version,))]
fn bad_version(s: &[u8]) -> bool
    ensures { result ≡ bad_version s.now }
{
    let version = byte(s, 4);
    version < 1 || 3 < version
}

// 4: the month.
#[tactic(auto, unfolding(rules::specs::Refusals::bad_month, rules::specs::Refusals::one_of))]
fn bad_month(h: Header) -> bool
    ensures { result ≡ bad_month h }
{
    h.days < 28 || 31 < h.days || h.weekday < 1 || 7 < h.weekday || holiday_past(h)
}

// 5: the counts.
#[tactic(auto, unfolding(rules::specs::Refusals::too_many, rules::specs::Refusals::one_of))]
fn too_many(h: Header) -> bool
    ensures { result ≡ too_many h }
{
    6 < h.producers || 32 < h.rows || 32 < h.consumers
}

// 1 to 3: the front of a sheet.
#[tactic(auto, unfolding(rules::specs::Refusals::front_tests, rules::specs::Refusals::first_of, rules::specs::Sheet::length_field,))]
pub fn try_front(s: &[u8]) -> Result<(), Refusal>
    ensures number { number_or_none result ≡ first_of (front_tests s.now) }
    ensures told { OnOk result (length_field s.now ≡ length s.now) }
{
    if s.len() < 14 {
        return Err(Refusal::NoHeader);
    }
    if word(s, 0) as usize != s.len() {
        return Err(Refusal::WrongLength);
    }
    if bad_version(s) {
        return Err(Refusal::UnknownVersion);
    }
    Ok(())
}

// 4 to 6, under a layout, with a sheet of so many bytes.
#[tactic(auto, unfolding(rules::specs::Refusals::header_tests, rules::specs::Refusals::first_of))]
pub fn try_header(layout: Layout, bytes: usize) -> Result<(), Refusal>
    ensures number { number_or_none result ≡ first_of (header_tests layout bytes) }
    ensures whole { OnOk result (bytes ≡ sheet_length layout) }
{
    if bad_month(layout.header) {
        return Err(Refusal::NoSuchMonth);
    }
    if too_many(layout.header) {
        return Err(Refusal::TooManyRecords);
    }
    if bytes != sheet_length(layout) {
        return Err(Refusal::UnexpectedLength);
    }
    Ok(())
}

// 1 to 6: the sheet, where none of them applies.
#[tactic(auto, using(crate::proofs::Refused::front_refuses, crate::proofs::Refused::header_finds))]
pub fn parse(bytes: &[u8]) -> Result<Sheet<'_>, Refusal>
    ensures number { number_or_none result ≡ first_of (form_tests bytes.now) }
    ensures read { IfOk result (λ sheet. (sheet.bytes.now ≡ bytes.now)
        × (sheet.layout ≡ layout_of bytes.now)) }
{
    try_front(bytes)?;
    let layout = sheet::layout(bytes);
    try_header(layout, bytes.len())?;
    Ok(Sheet { bytes, layout })
}

// 7: a result of so many bytes does not fit into a buffer of so many.
#[tactic(auto, unfolding(rules::specs::Refusals::room_tests, rules::specs::Refusals::first_of))]
pub fn try_room(needed: usize, room: usize) -> Result<(), Refusal>
    ensures { number_or_none result ≡ first_of (room_tests needed room) }
{
    if room < needed {
        return Err(Refusal::NoRoom);
    }
    Ok(())
}
