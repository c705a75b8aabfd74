// Reads a sheet from standard input, at most 65,536 bytes, and prints its listing.
#![tactic(auto)]

use reading::read_full;

fn main(rt: HostRuntime) {
    let mut sheet = [0u8; 65536];
    let length = read_full(&mut rt.stdin(), &mut sheet);
    let _ = listing::list(&rt, &sheet[..length]);
}
