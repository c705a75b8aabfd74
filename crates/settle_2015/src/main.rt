// Reads a sheet from standard input, at most 65,536 bytes, and prints its consumers' listing under the text
// of 2015.
#![tactic(auto)]

use reading::read_full;

fn main(rt: HostRuntime) {
    let mut sheet = [0u8; 65536];
    let length = read_full(&mut rt.stdin(), &mut sheet);
    let _ = listing::list_2015(&rt, &sheet[..length]);
}
