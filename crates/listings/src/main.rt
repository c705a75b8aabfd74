// Prints the listings of the stored sheets, one after the other.
#![tactic(auto)]

use reading::read_full;
use std::fs;
use std::rt::Runtime;

const SHEETS: [&str; 12] = [
    "month",
    "inside_month",
    "small_deductible",
    "columns",
    "zeros",
    "largest",
    "header",
    "refused_1",
    "refused_2",
    "refused_9",
    "refused_12",
    "refused_18",
];

// The listing of the sheet in a file.
fn list_file(rt: &impl Runtime, name: &str) {
    match fs::open(rt, name) {
        Ok(mut file) => {
            let mut sheet = [0u8; 65536];
            let length = read_full(&mut file, &mut sheet);
            let _ = listing::list(rt, &sheet[..length]);
        }
        Err(error) => {
            let _ = eprintln!(rt; "{name}: {error}");
        }
    }
}

fn main(rt: HostRuntime) {
    for name in SHEETS {
        list_file(&rt, name);
    }
}
