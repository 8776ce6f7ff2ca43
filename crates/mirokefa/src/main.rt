// The program: a job on standard input, its listing or `turned away N` on standard output.
// It explores with a table of 8,192 words and a report of 64 paths.
// All that matters is proved in `serving`; only the system calls are assumed.

#![tactic(auto)]

use blocks::PATH_BYTES;
use input::{ROOM, read_full};
use std::io;

// How many paths the report has room for.
const REPORT_PATHS: usize = 64;

// Input that cannot be read is told, and nothing is printed; a write that fails ends it with that error.
fn main(rt: HostRuntime) -> io::Result<()> {
    let mut input = [0u8; ROOM];
    let Ok(n) = read_full(&mut rt.stdin(), &mut input) else {
        return eprintln!(rt; "mirokefa: standard input cannot be read");
    };
    let mut report = [0u8; REPORT_PATHS * PATH_BYTES];
    // the text of so many paths has room in it
    let mut text = [0u8; ROOM];
    let length = serving::respond(&input[..n], &mut report, &mut text);
    rt.write_all(&text[..length])
}
