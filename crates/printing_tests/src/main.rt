// Prints the listing of document 01's Job A from a report of its two paths.
// The records are written as the explorer writes them.
// What must come out is document 01's text, byte for byte.
#![tactic(auto)]

ghost use Rattle.std.specs.Prelude.{◌+◌, ◌≤◌, length};
ghost use Rattle.blocks.specs.Record.{record_bytes};

use blocks::PATH_BYTES;
use blocks::record::{Ended, put_path};
use listing::End;
use printing::print_listing;
use std::io;

// How many bytes of text there is room for.
const ROOM: usize = 4096;

// A path of Job A: one input, and its exit value in register 10.
fn put_exit(report: &mut [u8], at: usize, number: u64, low: u64, high: u64, value: u64)
    requires { at + record_bytes 1 ≤ length report.old }
{
    let mut registers = [0u64; 32];
    registers[10] = value;
    let p = Ended {
        number,
        end: End::Exit,
        pc: 28,
        steps: 7,
        reads: 1,
    };
    put_path(report, at, p, &[low], &[high], &registers, &registers);
}

// A write that fails ends it with that error.
fn main(rt: HostRuntime) -> io::Result<()> {
    let mut report = [0u8; 2 * PATH_BYTES];
    put_exit(&mut report, 0, 0, 0, 9, 1);
    put_exit(&mut report, PATH_BYTES, 1, 10, 255, 0);
    let mut out = [0u8; ROOM];
    let n = print_listing(&report, 1, 2, false, &mut out);
    rt.write_all(&out[..n])
}
