// Reads the bytes of an input or of a file into the front of a lent buffer, for the programs.
#![tactic(auto)]

ghost use Rattle.std.specs.Prelude.{◌≤◌, length, take};
ghost use Rattle.std.specs.Io.KnownBytes.{Consumes};

use std::fs;
use std::io::Read;
use std::rt::Files;

// Reads until the buffer is full, the input ends or a read fails. The answer is how many bytes were read:
// they stand at the buffer's front. It stays a loop: std's read_exact tells no count where an input
// ends early, and read_to_end needs a heap.
pub fn read_full<R: Read>(input: &mut R, buf: &mut [u8]) -> usize
    ensures fits { result ≤ length buf.new }
    ensures front { Consumes (R.remaining input.old) (R.remaining input.new) (take result buf.new) }
{
    let mut done = 0;
    while done < buf.len() {
        match input.read(&mut buf[done..]) {
            Ok(0) => return done,
            Ok(n) => done += n,
            Err(_) => return done,
        }
    }
    done
}

// Reads a file in the same way. Of a file that cannot be opened no byte is read.
pub fn read_file(rt: &impl Files, path: &str, buf: &mut [u8]) -> usize
    ensures { result ≤ length buf.new }
{
    match fs::open(rt, path) {
        Ok(mut file) => read_full(&mut file, buf),
        Err(_) => 0,
    }
}
