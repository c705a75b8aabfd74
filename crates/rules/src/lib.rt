// The rules of the settlement: definitions in specs/. No code stands here but a refusal's number and how it is
// displayed, only the types that definitions and code share.
#![tactic(auto)]

ghost use Rattle.std.specs.Prelude.{◌≡◌, ◌++◌, Some, codes, decimal};
ghost use Rattle.rules.specs.Said.{number_of};

use std::fmt;

// A sheet's month and counts: P producers, R rows, C consumers.
#[derive(Clone, Copy)]
pub struct Header {
    pub days: u8,
    // weekday of day 1, Monday 1 to Sunday 7
    pub weekday: u8,
    // a bit for each day, the lowest for day 1
    pub holidays: u32,
    pub producers: u8,
    pub rows: u8,
    pub consumers: u8,
}

// A sheet's header and its version: together they say where its records stand. In this order the compiler
// copies the header as it stands.
#[derive(Clone, Copy)]
pub struct Layout {
    pub header: Header,
    pub version: u8,
}

// A producer's stated figures: attested capacity, deductible capacity and greatest own needs, in tenths of a
// megawatt; hours without an upward bid, without a downward bid, without a plan; the given coefficients, in
// millionths.
#[derive(Clone, Copy)]
pub struct Stated {
    pub attested: u32,
    pub deductible: u32,
    pub needs: u32,
    pub upward: u16,
    pub downward: u16,
    pub plan: u16,
    pub k3: u32,
    pub k6: u32,
    pub k7: u32,
    pub k8: u32,
    pub k9: u32,
    pub k10: u32,
}

// A series of hourly powers in a stretch of bytes, four bytes each: where the first power begins, and how far
// each begins from the one before it.
#[derive(Clone, Copy)]
pub struct Series {
    pub start: u16,
    pub step: u16,
}

// The series of a producer's hours: working, possible and outside-use power.
#[derive(Clone, Copy)]
pub struct HourSeries {
    pub working: Series,
    pub possible: Series,
    pub outside: Series,
}

// A contract row: the producer, the consumer (255 for the single buyer), the volume in tenths of a megawatt,
// the price in tiyn per megawatt and month, the first and the last day that it covers, counted from 1.
#[derive(Clone, Copy)]
pub struct Row {
    pub producer: u8,
    pub consumer: u8,
    pub volume: u32,
    pub price: u32,
    pub first: u8,
    pub last: u8,
}

// A consumer: contract volume DO and peak in tenths of a megawatt, mining days of the supplier (T'') and of
// the grid company (T'''), z in tenths, the price in tiyn per megawatt and month.
#[derive(Clone, Copy)]
pub struct Consumer {
    pub contract: u32,
    pub peak: u32,
    pub supplier: u8,
    pub grid: u8,
    pub z: u8,
    pub price: u32,
}

// An entry of a list of transfers: the day of the month before on which it was filed, the consumer that
// gives, the consumer that takes, the amount in tenths of a megawatt.
#[derive(Clone, Copy)]
pub struct Transfer {
    pub day: u8,
    pub giver: u8,
    pub taker: u8,
    pub amount: u32,
}

// A row of a band table: an excess of up to `edge`, in the parts that the table counts in, has the factor
// `factor`, in tenths.
#[derive(Clone, Copy)]
pub struct Band {
    pub edge: u32,
    pub factor: u8,
}

// A part of a whole: a coefficient before it is rounded.
#[derive(Clone, Copy)]
pub struct Ratio {
    pub part: u64,
    pub whole: u64,
}

// Why a sheet, a list or a record is refused, each with the number that document 01 gives it.
#[derive(Clone, Copy, Debug, PartialEq, Eq)]
pub enum Refusal {
    NoHeader = 1,
    WrongLength = 2,
    UnknownVersion = 3,
    NoSuchMonth = 4,
    TooManyRecords = 5,
    UnexpectedLength = 6,
    NoRoom = 7,
    ShareAboveOne = 8,
    AboveCeiling = 9,
    UnknownReference = 10,
    TooDear = 11,
    FactorOutOfRange = 12,
    BadList = 13,
    FiledLate = 14,
    Overdrawn = 15,
    BadRecord = 16,
    RecordAboveCeiling = 17,
    BadDays = 18,
}

impl Refusal {
    // Its number.
    pub fn number(self) -> u8
        ensures { result ≡ number_of self }
    {
        self as u8
    }
}

// As a listing has it: N and the number.
impl fmt::Display for Refusal {
    ghost output = { λ refusal. Some (codes "N" ++ decimal (number_of refusal)) };

    fn fmt<W: fmt::Write>(&self, f: &mut fmt::Formatter<W>) -> fmt::Result {
        let number = self.number();
        write!(f, "N{number}")
    }
}
