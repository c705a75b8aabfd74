// What a sheet says in its version, its header, its producers, its rows and its consumers. A record that is
// not whole in the sheet reads as nothing: so the readers below take any bytes with a layout, and those of a
// Sheet take whole ones.
#![tactic(auto)]

ghost use Rattle.std.specs.Prelude.{◌≡◌, ◌+◌, length};
ghost use Rattle.rules.specs.Sheet.{header_of, layout_of, day_at};
ghost use Rattle.rules.specs.Outcome.{within};
ghost use Rattle.sheet.specs.Whole.{stated_in, stretch_in, row_in, consumer_in};

use fields::{byte, half, word};
use places::{consumer_at, hours_at, hours_width, producer_at, row_at, row_width, states_days};
use rules::{Consumer, Header, Layout, Row, Stated};

mod records;

pub use records::Sheet;

// The header's month and counts.
pub fn header(s: &[u8]) -> Header
    ensures { result ≡ header_of s.now }
{
    Header {
        days: byte(s, 5),
        weekday: byte(s, 6),
        holidays: word(s, 7),
        producers: byte(s, 11),
        rows: byte(s, 12),
        consumers: byte(s, 13),
    }
}

// The version and the header.
#[tactic(auto, unfolding(rules::specs::Sheet::version))]
pub fn layout(s: &[u8]) -> Layout
    ensures { result ≡ layout_of s.now }
{
    let h = header(s);
    Layout {
        version: byte(s, 4),
        header: h,
    }
}

// Nothing stated.
const NONE_STATED: Stated = Stated {
    attested: 0,
    deductible: 0,
    needs: 0,
    upward: 0,
    downward: 0,
    plan: 0,
    k3: 0,
    k6: 0,
    k7: 0,
    k8: 0,
    k9: 0,
    k10: 0,
};

// Producer p's stated figures. One part of the sheet is lent for them, so that each is one load.
pub fn producer(s: &[u8], layout: Layout, p: u8) -> Stated
    ensures { result ≡ stated_in layout s.now p }
{
    let at = producer_at(layout, p);
    let stated_end = at + 42;
    if s.len() < stated_end {
        return NONE_STATED;
    }
    let part = &s[at..stated_end];
    Stated {
        attested: word(part, 0),
        deductible: word(part, 4),
        needs: word(part, 8),
        upward: half(part, 12),
        downward: half(part, 14),
        plan: half(part, 16),
        k3: word(part, 18),
        k6: word(part, 22),
        k7: word(part, 26),
        k8: word(part, 30),
        k9: word(part, 34),
        k10: word(part, 38),
    }
}

// The stretch of producer p's hours: that part of the lent sheet, and no copy. Empty where the sheet ends
// before it does.
pub fn stretch(s: &[u8], layout: Layout, p: u8) -> &[u8]
    ensures part { result.now ≡ within (stretch_in layout (length s.now) p) s.now }
    ensures place { (result.ref_ptr.0 ≡ s.entry.ref_ptr.0)
        × (result.ref_ptr.1 ≡ (stretch_in layout (length s.now) p).place + s.entry.ref_ptr.1) }
{
    let at = hours_at(layout, p);
    let end = at + hours_width(layout.header);
    if s.len() < end {
        return &s[..0];
    }
    &s[at..end]
}

// No row.
const NO_ROW: Row = Row {
    producer: 0,
    consumer: 0,
    volume: 0,
    price: 0,
    first: 0,
    last: 0,
};

// The day that stands at a place of a row's part; where rows state no days, another.
#[tactic(auto, unfolding(rules::specs::Sheet::day_at))]
fn day_at(part: &[u8], layout: Layout, at: usize, otherwise: u8) -> u8
    ensures { result ≡ day_at layout part.now at otherwise }
{
    if states_days(layout) {
        byte(part, at)
    } else {
        otherwise
    }
}

// Row j. One part of the sheet is lent for its figures, so that each of them is one load.
pub fn row(s: &[u8], layout: Layout, j: u8) -> Row
    ensures { result ≡ row_in layout s.now j }
{
    let at = row_at(layout, j);
    let row_end = at + row_width(layout);
    if s.len() < row_end {
        return NO_ROW;
    }
    let part = &s[at..row_end];
    Row {
        producer: byte(part, 0),
        consumer: byte(part, 1),
        volume: word(part, 2),
        price: word(part, 6),
        first: day_at(part, layout, 10, 1),
        last: day_at(part, layout, 11, layout.header.days),
    }
}

// No consumer.
const NO_CONSUMER: Consumer = Consumer {
    contract: 0,
    peak: 0,
    supplier: 0,
    grid: 0,
    z: 0,
    price: 0,
};

// Consumer c. One part of the sheet is lent for its six figures, so that each of them is one load.
pub fn consumer(s: &[u8], layout: Layout, c: u8) -> Consumer
    ensures { result ≡ consumer_in layout s.now c }
{
    let at = consumer_at(layout, c);
    let consumer_end = at + 15;
    if s.len() < consumer_end {
        return NO_CONSUMER;
    }
    let part = &s[at..consumer_end];
    Consumer {
        contract: word(part, 0),
        peak: word(part, 4),
        supplier: byte(part, 8),
        grid: byte(part, 9),
        z: byte(part, 10),
        price: word(part, 11),
    }
}
