// A sheet whose records all stand in its bytes.
ghost use Rattle.std.specs.Prelude.{◌≡◌, ◌+◌, ◌<◌, ◌≤◌, length, MatchOption};
ghost use Rattle.rules.specs.Sheet.{hours_width, producer_at, hours_at, sheet_length, stated_of, month_under};
ghost use Rattle.rules.specs.Outcome.{within};
ghost use Rattle.sheet.specs.Whole.{stated_in, stretch_in, row_in, consumer_in};

use crate::{consumer, producer, row, stretch};
use places::sheet_length;
use rules::{Consumer, Layout, Row, Stated};

// Bytes in which every record stands that a layout counts. Who has a Sheet asks no more for its length.
#[derive(Clone, Copy)]
pub struct Sheet<'a> {
    pub bytes: &'a [u8],
    pub layout: Layout,
    ghost whole: { sheet_length layout ≤ length bytes.now },
}

impl<'a> Sheet<'a> {
    // The sheet that a layout makes of some bytes; none where they end before its records do.
    pub fn of(bytes: &'a [u8], layout: Layout) -> Option<Sheet<'a>>
        ensures { MatchOption result (length bytes.now < sheet_length layout)
            (λ sheet. (sheet.bytes.now ≡ bytes.now) × (sheet.layout ≡ layout)) }
    {
        if bytes.len() < sheet_length(layout) {
            return None;
        }
        Some(Sheet { bytes, layout })
    }

    // Producer p's stated figures.
    pub fn producer(&self, p: u8) -> Stated
        ensures read { result ≡ stated_in self.now.layout self.now.bytes.now p }
        ensures there { p < self.now.layout.header.producers
            → result ≡ stated_of self.now.bytes.now (producer_at self.now.layout p) }
    {
        producer(self.bytes, self.layout, p)
    }

    // The stretch of producer p's hours: that part of the lent sheet, and no copy.
    pub fn hours(&self, p: u8) -> &'a [u8]
        ensures part { result.now
            ≡ within (stretch_in self.now.layout (length self.now.bytes.now) p) self.now.bytes.now }
        ensures there { p < self.now.layout.header.producers
            → (hours_at self.now.layout p + hours_width self.now.layout.header ≤ length self.now.bytes.now)
            × (length result.now ≡ hours_width self.now.layout.header) }
    {
        stretch(self.bytes, self.layout, p)
    }

    // Row j.
    pub fn row(&self, j: u8) -> Row
        ensures read { result ≡ row_in self.now.layout self.now.bytes.now j }
        ensures there { j < self.now.layout.header.rows
            → result ≡ (month_under self.now.layout self.now.bytes.now).row j }
    {
        row(self.bytes, self.layout, j)
    }

    // Consumer c.
    pub fn consumer(&self, c: u8) -> Consumer
        ensures read { result ≡ consumer_in self.now.layout self.now.bytes.now c }
        ensures there { c < self.now.layout.header.consumers
            → result ≡ (month_under self.now.layout self.now.bytes.now).consumer c }
    {
        consumer(self.bytes, self.layout, c)
    }
}
