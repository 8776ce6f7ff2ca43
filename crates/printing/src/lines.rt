// The lines of a report's records, from their words; `inputs` is the input count of its paths, `k` the record's place in it.
ghost use mathlib.Core.List.{flat_map};
ghost use Rattle.std.specs.Prelude.{◌*◌, ◌≤◌, ◌<◌, length};
ghost use Rattle.blocks.specs.Record.{most_inputs, record_bytes};
ghost use Rattle.blocks.specs.Report.{records_in};
ghost use Rattle.blocks.specs.Said.{said_at, first_said};
ghost use Rattle.printing.specs.Printed.{input_text, ending, line};
ghost use Rattle.printing.specs.Working.Writing.{Writes};

use crate::writer::{put_field, put_range, put_text};
use blocks::layout::{EXIT_HIGH, EXIT_LOW, KIND, NUMBER, PC, REASON, STEPS};
use blocks::report::{input_high, input_low, record_word};

// Kinds of ends, as a record's word says them.
const EXIT: u64 = 1;

const NOT_FOLLOWED: u64 = 8;

// The intervals of a record's inputs.
fn put_inputs(report: &[u8], inputs: usize, k: usize, out: &mut [u8], at: usize) -> usize
    requires { (k < records_in inputs report.now) × (inputs ≤ most_inputs) }
    ensures { Writes out at result (flat_map input_text (said_at inputs report.now k).box) }
{
    let mut p = at;
    for i in 0..inputs {
        let low = input_low(report, inputs, k, i);
        let high = input_high(report, inputs, k, i);
        p = put_range(out, p, b" in ", low, high);
    }
    p
}

// The exit value of kind 1, the reason of kind 8, and nothing for the others.
fn put_ending(report: &[u8], inputs: usize, k: usize, out: &mut [u8], at: usize) -> usize
    requires { k < records_in inputs report.now }
    ensures { Writes out at result (ending (said_at inputs report.now k)) }
{
    match record_word(report, inputs, k, KIND) {
        EXIT => {
            let low = record_word(report, inputs, k, EXIT_LOW);
            let high = record_word(report, inputs, k, EXIT_HIGH);
            put_range(out, at, b" exit ", low, high)
        }
        NOT_FOLLOWED => put_field(out, at, b" reason ", record_word(report, inputs, k, REASON)),
        _ => at,
    }
}

// The line of a record.
fn put_line(report: &[u8], inputs: usize, k: usize, out: &mut [u8], at: usize) -> usize
    requires { (k < records_in inputs report.now) × (inputs ≤ most_inputs) }
    ensures { Writes out at result (line (said_at inputs report.now k)) }
{
    let mut p = put_field(out, at, b"path ", record_word(report, inputs, k, NUMBER));
    p = put_field(out, p, b" end ", record_word(report, inputs, k, KIND));
    p = put_field(out, p, b" at ", record_word(report, inputs, k, PC));
    p = put_field(out, p, b" steps ", record_word(report, inputs, k, STEPS));
    p = put_inputs(report, inputs, k, out, p);
    p = put_ending(report, inputs, k, out, p);
    put_text(out, p, b"\n")
}

// The lines of the report's first `count` records.
pub(crate) fn put_lines(
    report: &[u8],
    inputs: usize,
    count: usize,
    out: &mut [u8],
    at: usize,
) -> usize
    requires { (count * record_bytes inputs ≤ length report.now) × (inputs ≤ most_inputs) }
    ensures { Writes out at result (flat_map line (first_said inputs count report.now)) }
{
    let mut p = at;
    for k in 0..count {
        p = put_line(report, inputs, k, out, p);
    }
    p
}
