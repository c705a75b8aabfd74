// Reads a sheet from standard input and a list of transfers from file descriptor 3, each at most 65,536
// bytes. Prints the sheet afterwards, byte for byte; of a refusal the line that a listing has, N and its
// number.
#![tactic(auto)]

use changed_sheet::print_after;
use reading::{read_file, read_full};
use transfers::transfer;

const LIST: &str = "/dev/fd/3";

// Applies the list, and prints what is left.
fn print_transferred(rt: &impl Print, sheet: &mut [u8], list: &[u8]) {
    let _ = print_after(rt, transfer(sheet, list), sheet);
}

fn main(rt: HostRuntime) {
    let mut sheet = [0u8; 65536];
    let length = read_full(&mut rt.stdin(), &mut sheet);
    let mut list = [0u8; 65536];
    let list_length = read_file(&rt, LIST, &mut list);
    print_transferred(&rt, &mut sheet[..length], &list[..list_length]);
}
