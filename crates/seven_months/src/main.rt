// Prints the seven months of the table of control weekdays as printed calendars have them: a line of
// weekdays, weeks in lines, and a mark before each day of which the table says yes. It reads the lines that
// the settlement reads.
#![tactic(auto)]

use calendar::table::{Line, YES, line_of};

// A day in four characters, with a mark if it is a control weekday.
fn print_day(rt: &impl Print, day: u8, marked: bool) {
    let mark = if marked { '*' } else { ' ' };
    if day < 10 {
        let _ = print!(rt; "  {mark}{day}");
    } else {
        let _ = print!(rt; " {mark}{day}");
    }
}

// The weeks of a month before whose first day so many columns stay blank; the line has its entries. A line
// ends after each Sunday and after the last day.
fn print_weeks(rt: &impl Print, blank: u8, line: Line) {
    for _ in 0..blank {
        let _ = print!(rt; "    ");
    }
    for (day, entry) in (1u8..).zip(line) {
        print_day(rt, day, entry == YES);
        if (blank as u16 + day as u16) % 7 == 0 || day == 31 {
            let _ = println!(rt);
        }
    }
}

const WEEKDAYS: [&str; 7] = [
    "Monday",
    "Tuesday",
    "Wednesday",
    "Thursday",
    "Friday",
    "Saturday",
    "Sunday",
];

fn main(rt: HostRuntime) {
    let _ = println!(rt;
        "The table of control weekdays: * marks Monday to Friday. Holidays stand in a sheet, not here."
    );
    for (blank, name) in (0u8..).zip(WEEKDAYS) {
        let _ = println!(rt; "\nA month that begins on {name}");
        let _ = println!(rt; "  Mo  Tu  We  Th  Fr  Sa  Su");
        print_weeks(&rt, blank, line_of(blank + 1));
    }
}
