// Settles the stored sheets and compares every answer and every byte with what the rival program answered.
// A file holds the cases of one kind; a line with the kind and its count of cases is printed where all of
// them agree.
#![tactic(auto)]

ghost use Rattle.std.specs.Prelude.{◌≤◌, length};

use fields::{byte, word};
use reading::read_full;
use rules::Refusal;
use settlement::settle;
use std::fs;
use std::io::Read;
use std::rt::Runtime;
use text2015::settle_2015;

// A case's sheet is settled into a buffer of at most so many bytes, and the rival's result is no longer.
const LONGEST: usize = 2000;

// Document 01's own months and the slips; the refusals, and sheets that break several rules; settled sheets:
// bands, halves, counts, months, those at their limits, damaged ones, buffers.
const KINDS: [&str; 26] = [
    "checked_months",
    "slips",
    "refusal_1",
    "refusal_2",
    "refusal_3",
    "refusal_4",
    "refusal_5",
    "refusal_6",
    "refusal_7",
    "refusal_8",
    "refusal_9",
    "refusal_10",
    "refusal_11",
    "refusal_12",
    "several_rules",
    "bands_of_k1",
    "bands_of_consumers",
    "ties",
    "zero_counts",
    "months",
    "ceilings",
    "cut",
    "credits",
    "largest",
    "damaged",
    "buffers",
];

// Consumers under the text of 2015.
const KINDS_OF_2015: [&str; 4] = [
    "text_2015_bands",
    "text_2015_ties",
    "text_2015_rooms",
    "text_2015_refusals",
];

// What stands before a case's sheet: the sheet's length, the result buffer's length, and the rival's answer,
// which is the count of the bytes that follow the sheet, or a refusal's number.
#[derive(Clone, Copy)]
struct Case {
    length: usize,
    room: usize,
    answer: Result<usize, usize>,
}

impl From<[u8; 13]> for Case {
    fn from(front: [u8; 13]) -> Case {
        let number = word(&front, 9) as usize;
        Case {
            length: word(&front, 0) as usize,
            room: word(&front, 4) as usize,
            answer: if byte(&front, 8) == 0 {
                Ok(number)
            } else {
                Err(number)
            },
        }
    }
}

// The sheet settled into a buffer that is filled with some byte: the answer, the result and the bytes past it
// are as they should be.
fn agrees<F: Fn(&[u8], &mut [u8]) -> Result<usize, Refusal>>(
    entry: &F,
    case: Case,
    sheet: &[u8],
    told: &[u8],
    fill: u8,
) -> bool
    requires callable { F.IsAlwaysCallable entry.now }
    requires short { length told.now ≤ 2000 }
{
    let mut result = [fill; LONGEST];
    if LONGEST < case.room {
        return false;
    }
    let answer = entry(sheet, &mut result[..case.room]).map_err(
        |refusal| refusal.number() as usize,
    );
    let (written, past) = result.split_at(told.len());
    answer == case.answer && written == told && past.iter().all(|b| *b == fill)
}

// The next case of a file agrees; none where the file ends. It is settled twice, so that no byte of a result
// is taken for one that was there before.
fn compare<R: Read, F: Fn(&[u8], &mut [u8]) -> Result<usize, Refusal>>(
    file: &mut R,
    entry: &F,
) -> Option<bool>
    requires { F.IsAlwaysCallable entry.now }
{
    let mut front = [0u8; 13];
    if read_full(file, &mut front) < 13 {
        return None;
    }
    let case = Case::from(front);
    let count = case.answer.unwrap_or(0);
    let mut sheet = [0u8; 65536];
    let mut told = [0u8; LONGEST];
    if sheet.len() < case.length || told.len() < count {
        return Some(false);
    }
    let sheet = &mut sheet[..case.length];
    let told = &mut told[..count];
    if read_full(file, sheet) != sheet.len() || read_full(file, told) != told.len() {
        return Some(false);
    }
    Some(agrees(entry, case, sheet, told, 165) && agrees(entry, case, sheet, told, 90))
}

// How many cases a file holds, where all of them agree; otherwise the number of the first that differs.
fn tally<R: Read, F: Fn(&[u8], &mut [u8]) -> Result<usize, Refusal>>(
    file: &mut R,
    entry: &F,
) -> Result<u64, u64>
    requires { F.IsAlwaysCallable entry.now }
{
    for n in 0..10000u64 {
        match compare(file, entry) {
            Some(true) => {}
            Some(false) => return Err(n),
            None => return Ok(n),
        }
    }
    Err(10000)
}

// The cases of one kind: the kind and their count, or the number of the first that differs.
fn print_kind<F: Fn(&[u8], &mut [u8]) -> Result<usize, Refusal>>(
    rt: &impl Runtime,
    entry: &F,
    name: &str,
)
    requires { F.IsAlwaysCallable entry.now }
{
    match fs::open(rt, name) {
        Ok(mut file) => match tally(&mut file, entry) {
            Ok(count) => {
                let _ = println!(rt; "{name} {count}");
            }
            Err(case) => {
                let _ = println!(rt; "{name} DIFFERS at case {case}");
            }
        },
        Err(error) => {
            let _ = eprintln!(rt; "{name}: {error}");
        }
    }
}

fn main(rt: HostRuntime) {
    for name in KINDS {
        print_kind(&rt, &settle, name);
    }
    for name in KINDS_OF_2015 {
        print_kind(&rt, &settle_2015, name);
    }
}
