// The table of control weekdays.
ghost use Rattle.std.specs.Prelude.{◌≡◌};
ghost use Rattle.rules.specs.ControlTable.{control_weekdays, line_of};

// An entry for each of 31 days; a line for each weekday that a month may begin on, Monday to Sunday.
pub type Line = [u8; 31];

pub type Table = [Line; 7];

// An entry that says yes, and one that says no.
pub const YES: u8 = b'y';

const NO: u8 = b'-';

// A line for Monday, Tuesday, .., Sunday as day 1; y where the day falls on Monday to Friday.
const CONTROL_WEEKDAYS: Table = [
    *b"yyyyy--yyyyy--yyyyy--yyyyy--yyy",
    *b"yyyy--yyyyy--yyyyy--yyyyy--yyyy",
    *b"yyy--yyyyy--yyyyy--yyyyy--yyyyy",
    *b"yy--yyyyy--yyyyy--yyyyy--yyyyy-",
    *b"y--yyyyy--yyyyy--yyyyy--yyyyy--",
    *b"--yyyyy--yyyyy--yyyyy--yyyyy--y",
    *b"-yyyyy--yyyyy--yyyyy--yyyyy--yy",
];

// The table, whole.
pub fn control_weekdays() -> Table
    ensures { result ≡ control_weekdays }
{
    CONTROL_WEEKDAYS
}

// The line of a month that begins on a weekday, Monday 1 to Sunday 7; for any other number no throughout.
pub fn line_of(first: u8) -> Line
    ensures { result ≡ line_of first }
{
    // By a choice of seven: read by an index, the whole table is written to the stack in each call.
    let table = control_weekdays();
    match first {
        1 => table[0],
        2 => table[1],
        3 => table[2],
        4 => table[3],
        5 => table[4],
        6 => table[5],
        7 => table[6],
        _ => [NO; 31],
    }
}
