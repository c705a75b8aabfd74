// The numbers of a whole sheet: all but 7, all with a result's room, and those from 4 on of a month under a
// layout, apart from its hours.
#![tactic(auto)]

ghost use Rattle.std.specs.Prelude.{◌≡◌, ◌<◌, ◌||◌, ℕ, Bool, eqb, ltb, IfOk};
ghost use Rattle.rules.specs.Range.{any};
ghost use Rattle.rules.specs.Sheet.{layout_of, month_under};
ghost use Rattle.rules.specs.Refusals.{figure_tests, sheet_tests, tests_for, first_of};
ghost use Rattle.rules.specs.Said.{number_or_none};
ghost use Rattle.refusals_sheet.specs.Tests.{some_share, some_high, some_reference, some_dear, some_factor};
ghost use Rattle.refusals_sheet.specs.Tests.{some_days, record_tests};
ghost use Rattle.refusals_sheet.specs.Numbers.{record_number, high_hours, with_hours};

use places::result_length;
use refusals_form::{parse, try_header, try_room};
use refusals_powers::high_powers;
use refusals_record::{
    bad_days, bad_factor, bad_reference, bad_share, high_consumer, high_stated, too_dear, too_high,
};
use rules::{Layout, Refusal};
use sheet::{Sheet, stretch};

// Some place below a count passes a test: one loop for producers, rows and consumers.
fn some<F: Fn(u8) -> bool>(count: u8, test: F) -> bool
    requires { F.IsAlwaysCallable test }
    ensures { (P : ℕ → Bool) → ((i : ℕ) → i < count → (b : Bool) → F.post test i b → b ≡ P i)
        → result ≡ any P count }
{
    for i in 0..count {
        if test(i) {
            return true;
        }
    }
    false
}

// 8, of some producer. It stays a call: a function that calls nothing may keep figures below the stack pointer.
#[inline(never)]
fn some_share(sheet: &Sheet<'_>) -> bool
    ensures { result ≡ some_share (month_under sheet.now.layout sheet.now.bytes.now) }
{
    let h = sheet.layout.header;
    some(h.producers, |p| bad_share(h, sheet.producer(p)))
}

// 9, of some record: all but the hours.
fn some_high(sheet: &Sheet<'_>) -> bool
    ensures { result ≡ some_high (month_under sheet.now.layout sheet.now.bytes.now) }
{
    let h = sheet.layout.header;
    if some(h.producers, |p| high_stated(sheet.producer(p))) {
        return true;
    }
    if some(h.rows, |j| too_high(sheet.row(j).volume)) {
        return true;
    }
    some(h.consumers, |c| high_consumer(sheet.consumer(c)))
}

// 10, of some row.
fn some_reference(sheet: &Sheet<'_>) -> bool
    ensures { result ≡ some_reference (month_under sheet.now.layout sheet.now.bytes.now) }
{
    let h = sheet.layout.header;
    some(h.rows, |j| bad_reference(h, sheet.row(j)))
}

// 11, of some row or consumer.
fn some_dear(sheet: &Sheet<'_>) -> bool
    ensures { result ≡ some_dear (month_under sheet.now.layout sheet.now.bytes.now) }
{
    let h = sheet.layout.header;
    if some(h.rows, |j| too_dear(sheet.row(j).price)) {
        return true;
    }
    some(h.consumers, |c| too_dear(sheet.consumer(c).price))
}

// 12, of some consumer.
fn some_factor(sheet: &Sheet<'_>) -> bool
    ensures { result ≡ some_factor (month_under sheet.now.layout sheet.now.bytes.now) }
{
    let h = sheet.layout.header;
    some(h.consumers, |c| bad_factor(h, sheet.consumer(c)))
}

// 18, of some row.
fn some_days(sheet: &Sheet<'_>) -> bool
    ensures { result ≡ some_days (month_under sheet.now.layout sheet.now.bytes.now) }
{
    let h = sheet.layout.header;
    some(h.rows, |j| bad_days(h, sheet.row(j)))
}

// 8 to 12 and 18, of the records of a sheet: all but the hours.
#[tactic(auto, unfolding(crate::specs::Tests::record_tests, rules::specs::Refusals::first_of))]
fn try_stated(sheet: &Sheet<'_>) -> Result<(), Refusal>
    ensures { number_or_none result
        ≡ first_of (record_tests (month_under sheet.now.layout sheet.now.bytes.now)) }
{
    if some_share(sheet) {
        return Err(Refusal::ShareAboveOne);
    }
    if some_high(sheet) {
        return Err(Refusal::AboveCeiling);
    }
    if some_reference(sheet) {
        return Err(Refusal::UnknownReference);
    }
    if some_dear(sheet) {
        return Err(Refusal::TooDear);
    }
    if some_factor(sheet) {
        return Err(Refusal::FactorOutOfRange);
    }
    if some_days(sheet) {
        return Err(Refusal::BadDays);
    }
    Ok(())
}

// Some power in the hours of some producer is above the ceiling. It takes any bytes, as `with_hours` does.
fn high_hours(s: &[u8], layout: Layout) -> bool
    ensures { result ≡ high_hours layout s.now layout.header.producers }
{
    some(
        layout.header.producers,
        |p| high_powers(stretch(s, layout, p)),
    )
}

// A high power would come first: nothing was found, or a number above 9.
fn is_late(found: Result<(), Refusal>) -> bool
    ensures { result ≡ (eqb (number_or_none found) 0 || ltb 9 (number_or_none found)) }
{
    match found {
        Ok(()) => true,
        Err(refusal) => 9 < refusal.number(),
    }
}

// A number that was found without the hours, 0 where none was, with these: they are read only where a high
// power in them comes first. It takes bytes and a layout, since its clause holds of bytes that end too soon,
// which no `Sheet` is.
#[tactic(auto, unfolding(crate::specs::Numbers::with_hours))]
pub fn with_hours(s: &[u8], layout: Layout, number: u8) -> u8
    ensures { result ≡ with_hours number (high_hours layout s.now layout.header.producers) }
{
    if (number == 0 || 9 < number) && high_hours(s, layout) {
        return Refusal::AboveCeiling.number();
    }
    number
}

// The same of a refusal that was found, or of none.
#[tactic(auto, unfolding(crate::specs::Numbers::with_hours))]
pub fn try_hours(s: &[u8], layout: Layout, found: Result<(), Refusal>) -> Result<(), Refusal>
    ensures { number_or_none result
        ≡ with_hours (number_or_none found) (high_hours layout s.now layout.header.producers) }
{
    if !is_late(found) {
        return found;
    }
    if high_hours(s, layout) {
        return Err(Refusal::AboveCeiling);
    }
    found
}

// 8 to 12 and 18, of all figures of a sheet.
#[tactic(auto, using(crate::proofs::Numbers::figures_are))]
fn try_figures(sheet: Sheet<'_>) -> Result<Sheet<'_>, Refusal>
    ensures number { number_or_none result
        ≡ first_of (figure_tests (month_under sheet.entry.layout sheet.entry.bytes.now)) }
    ensures read { IfOk result (λ same. (same.bytes.now ≡ sheet.entry.bytes.now)
        × (same.layout ≡ sheet.entry.layout)) }
{
    try_hours(sheet.bytes, sheet.layout, try_stated(&sheet))?;
    Ok(sheet)
}

// A sheet to which no number applies, 7 left out: for entries that have no result buffer.
#[tactic(auto, using(crate::proofs::Order::for_sheet))]
pub fn try_sheet(s: &[u8]) -> Result<Sheet<'_>, Refusal>
    ensures number { number_or_none result ≡ first_of (sheet_tests s.now) }
    ensures read { IfOk result (λ sheet. (sheet.bytes.now ≡ s.now) × (sheet.layout ≡ layout_of s.now)) }
{
    try_figures(parse(s)?)
}

// A sheet to which no number applies, for an entry with a result of so many bytes and a result buffer of so
// many.
#[tactic(auto, using(crate::proofs::Order::for_result))]
pub fn try_for_result(s: &[u8], needed: usize, room: usize) -> Result<Sheet<'_>, Refusal>
    ensures number { number_or_none result ≡ first_of (tests_for needed s.now room) }
    ensures read { IfOk result (λ sheet. (sheet.bytes.now ≡ s.now) × (sheet.layout ≡ layout_of s.now)) }
{
    let sheet = parse(s)?;
    try_room(needed, room)?;
    try_figures(sheet)
}

// A sheet under a layout to whose month no number from 4 on applies, for a result buffer of so many bytes.
// The hours are not read.
// Number 6 is tried here, so it takes bytes and a layout.
#[tactic(auto, using(crate::proofs::Order::for_records))]
pub fn try_records(s: &[u8], layout: Layout, room: usize) -> Result<Sheet<'_>, Refusal>
    ensures number { number_or_none result ≡ record_number layout s.now room }
    ensures read { IfOk result (λ sheet. (sheet.bytes.now ≡ s.now) × (sheet.layout ≡ layout)) }
{
    try_header(layout, s.len())?;
    try_room(result_length(layout.header), room)?;
    let sheet = Sheet { bytes: s, layout };
    try_stated(&sheet)?;
    Ok(sheet)
}
