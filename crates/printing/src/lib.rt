// The program's output: `turned away N`, or the listing of a report; what a reader must believe stands in specs/ outside Working/.
// `writer` writes texts and numbers onto a lent slice, as far as they fit; `lines` writes a record's line from its words.
// The laws say that the text of a report that tells some paths is what document 01 shows of them, and how long it can be.
#![tactic(auto)]

ghost use Rattle.std.specs.Prelude.{◌*◌, ◌≤◌, length};
ghost use Rattle.blocks.specs.Record.{most_inputs, record_bytes};
ghost use Rattle.printing.specs.Printed.{turned_away, listing_text};
ghost use Rattle.printing.specs.Working.Writing.{Prints};

use crate::lines::put_lines;
use crate::writer::{put_field, put_text};

mod lines;
pub mod writer;

// Writes `turned away N` at the start of `out`, as far as it fits, and answers how many bytes it wrote.
pub fn print_refusal(number: u64, out: &mut [u8]) -> usize
    ensures { Prints out result (turned_away number) }
{
    let p = put_field(out, 0, b"turned away ", number);
    put_text(out, p, b"\n")
}

// Writes the listing of the first `count` records of a report, with their input count, at the start of `out`, as far as it fits,
// and answers how many bytes it wrote.
pub fn print_listing(
    report: &[u8],
    inputs: usize,
    count: usize,
    more: bool,
    out: &mut [u8],
) -> usize
    requires { (count * record_bytes inputs ≤ length report.now) × (inputs ≤ most_inputs) }
    ensures { Prints out result (listing_text inputs count more report.now) }
{
    let mut p = put_field(out, 0, b"paths ", count as u64);
    p = put_field(out, p, b" more ", u64::from(more));
    p = put_text(out, p, b"\n");
    put_lines(report, inputs, count, out, p)
}
