// Where the records of a sheet stand, and how long the sheet and its result are. No other crate asks for the
// version.
#![tactic(auto)]

ghost use Rattle.std.specs.Prelude.{◌≡◌, ◌≤◌};
ghost use Rattle.rules.specs.Sheet.{hours_width, producer_at, hours_at, by_column, triples, columns};
ghost use Rattle.rules.specs.Sheet.{hour_series, states_days, row_width, row_at, consumer_at, contract_at};
ghost use Rattle.rules.specs.Sheet.{peak_at, sheet_length};
ghost use Rattle.rules.specs.Result.{result_length};

use rules::{Header, HourSeries, Layout, Series};

// Where producer p begins.
pub fn producer_at(layout: Layout, p: u8) -> usize
    ensures { (result ≡ producer_at layout p) × (result ≤ 20000000) }
{
    14 + (p as usize) * (42 + 288 * (layout.header.days as usize))
}

// Where producer p's hours begin.
#[tactic(auto, unfolding(rules::specs::Sheet::hours_at))]
pub fn hours_at(layout: Layout, p: u8) -> usize
    ensures { (result ≡ hours_at layout p) × (result ≤ 20000042) }
{
    producer_at(layout, p) + 42
}

// How many bytes a producer's hours take.
pub fn hours_width(h: Header) -> usize
    ensures { (result ≡ hours_width h) × (result ≤ 73440) }
{
    288 * (h.days as usize)
}

// Whether a producer's hours stand by column.
#[tactic(auto, unfolding(rules::specs::Sheet::by_column))]
fn by_column(layout: Layout) -> bool
    ensures { result ≡ by_column layout }
{
    2 < layout.version
}

// Where working, possible and outside-use powers stand in a producer's hours: hour by hour,
fn triples() -> HourSeries
    ensures { result ≡ triples }
{
    HourSeries {
        working: Series { start: 0, step: 12 },
        possible: Series { start: 4, step: 12 },
        outside: Series { start: 8, step: 12 },
    }
}

// by column,
fn columns(h: Header) -> HourSeries
    ensures { result ≡ columns h }
{
    let days = h.days as u16;
    HourSeries {
        working: Series { start: 0, step: 4 },
        possible: Series {
            start: 96 * days,
            step: 4,
        },
        outside: Series {
            start: 192 * days,
            step: 4,
        },
    }
}

// and under a layout.
#[tactic(auto, unfolding(rules::specs::Sheet::hour_series))]
pub fn hour_series(layout: Layout) -> HourSeries
    ensures { result ≡ hour_series layout }
{
    if by_column(layout) {
        columns(layout.header)
    } else {
        triples()
    }
}

// Whether rows state the days that they cover.
#[tactic(auto, unfolding(rules::specs::Sheet::states_days))]
pub fn states_days(layout: Layout) -> bool
    ensures { result ≡ states_days layout }
{
    1 < layout.version
}

// How many bytes a row takes.
#[tactic(auto, unfolding(rules::specs::Sheet::row_width))]
pub fn row_width(layout: Layout) -> usize
    ensures { (result ≡ row_width layout) × (result ≤ 12) }
{
    if states_days(layout) { 12 } else { 10 }
}

// Where row j begins.
pub fn row_at(layout: Layout, j: u8) -> usize
    ensures { (result ≡ row_at layout j) × (result ≤ 20003060) }
{
    producer_at(layout, layout.header.producers) + row_width(layout) * (j as usize)
}

// Where consumer c begins.
#[tactic(auto, unfolding(rules::specs::Sheet::consumer_at))]
pub fn consumer_at(layout: Layout, c: u8) -> usize
    ensures { (result ≡ consumer_at layout c) × (result ≤ 20006885) }
{
    row_at(layout, layout.header.rows) + 15 * (c as usize)
}

// Where consumer c's contract volume stands.
pub fn contract_at(layout: Layout, c: u8) -> usize
    ensures { (result ≡ contract_at layout c) × (result ≤ 20006885) }
{
    consumer_at(layout, c)
}

// Where consumer c's peak stands.
pub fn peak_at(layout: Layout, c: u8) -> usize
    ensures { (result ≡ peak_at layout c) × (result ≤ 20006889) }
{
    contract_at(layout, c) + 4
}

// The length that version, month and counts ask of the sheet.
#[tactic(auto, unfolding(rules::specs::Sheet::sheet_length))]
pub fn sheet_length(layout: Layout) -> usize
    ensures { result ≡ sheet_length layout }
{
    consumer_at(layout, layout.header.consumers)
}

// The length of the result.
#[tactic(auto, unfolding(rules::specs::Result::result_length))]
pub fn result_length(h: Header) -> usize
    ensures { result ≡ result_length h }
{
    21 + 16 * (h.rows as usize) + 25 * (h.consumers as usize)
}
