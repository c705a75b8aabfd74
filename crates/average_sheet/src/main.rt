// Reads a sheet from standard input and the record of an industrial complex from file descriptor 3, each at
// most 65,536 bytes. Prints the sheet afterwards, byte for byte; of a refusal the line that a listing has, N
// and its number.
#![tactic(auto)]

use averaging::average;
use changed_sheet::print_after;
use reading::{read_file, read_full};

const RECORD: &str = "/dev/fd/3";

// Writes the peak, and prints what is left.
fn print_averaged(rt: &impl Print, sheet: &mut [u8], record: &[u8]) {
    let _ = print_after(rt, average(sheet, record), sheet);
}

fn main(rt: HostRuntime) {
    let mut sheet = [0u8; 65536];
    let length = read_full(&mut rt.stdin(), &mut sheet);
    let mut record = [0u8; 65536];
    let record_length = read_file(&rt, RECORD, &mut record);
    print_averaged(&rt, &mut sheet[..length], &record[..record_length]);
}
