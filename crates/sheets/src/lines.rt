// The lines of a report's records, from their words; `inputs` is the input count of its paths, `k` the record's place in it.
ghost use Rattle.std.specs.Prelude.{◌≡◌, ◌+◌, ◌-◌, ◌≤◌, ◌<◌, length};
ghost use Rattle.blocks.specs.Record.{most_inputs};
ghost use Rattle.blocks.specs.Report.{records_in};
ghost use Rattle.blocks.specs.Said.{said_at};
ghost use Rattle.blocks.specs.Working.Writing.{put};
ghost use Rattle.printing.specs.Working.Writing.{Writes, Prints};
ghost use Rattle.printing.specs.Printed.{digits};
ghost use Rattle.sheets.specs.Line.{field_columns, sheet_line};
ghost use Rattle.sheets.specs.Sheet.{input_lines, path_lines, sheet_text};

use crate::asking::LINE_BYTES;
use blocks::layout::{KIND, NUMBER, REASON};
use blocks::report::{input_high, input_low, record_word, records_in};
use printing::writer::put_text;

// Columns of a field: MAX has as many digits.
const FIELD_COLUMNS: usize = 20;

// Where the fields begin, counted from 1.
const FIRST_COLUMN: usize = 1;

const SECOND_COLUMN: usize = 24;

const THIRD_COLUMN: usize = 48;

const SPACE: u8 = b' ';

const LINE_FEED: u8 = b'\n';

// Writes a number's digits, from the last one back, so that they end where the field that begins at `column` does.
// A `while`: how many digits there are shows only at the first one.
fn set_field(text: &mut [u8], column: usize, n: u64)
    requires { (1 ≤ column) × (column - 1 + field_columns ≤ length text.old) }
    ensures { text.new ≡ put text.old (column - 1 + field_columns - length (digits n)) (digits n) }
{
    let mut k = column - 1 + FIELD_COLUMNS;
    let mut rest = n;
    while rest >= 10 {
        k -= 1;
        text[k] = b'0' + (rest % 10) as u8;
        rest = rest / 10;
    }
    text[k - 1] = b'0' + rest as u8;
}

// A line: spaces, and in them the fields.
fn put_sheet_line(out: &mut [u8], at: usize, a: u64, b: u64, c: u64) -> usize
    ensures { Writes out at result (sheet_line a b c) }
{
    let mut text = [SPACE; LINE_BYTES];
    text[LINE_BYTES - 1] = LINE_FEED;
    set_field(&mut text, FIRST_COLUMN, a);
    set_field(&mut text, SECOND_COLUMN, b);
    set_field(&mut text, THIRD_COLUMN, c);
    put_text(out, at, &text)
}

// The inputs of a record, a line for each. A loop shared with `printing` would take a closure that writes on `out`, and its contract.
fn put_inputs(report: &[u8], inputs: usize, k: usize, out: &mut [u8], at: usize) -> usize
    requires { (k < records_in inputs report.now) × (inputs ≤ most_inputs) }
    ensures { Writes out at result (input_lines 0 (said_at inputs report.now k).box) }
{
    let mut p = at;
    for i in 0..inputs {
        let low = input_low(report, inputs, k, i);
        let high = input_high(report, inputs, k, i);
        p = put_sheet_line(out, p, i as u64, low, high);
    }
    p
}

// The lines of a record.
fn put_record(report: &[u8], inputs: usize, k: usize, out: &mut [u8], at: usize) -> usize
    requires { (k < records_in inputs report.now) × (inputs ≤ most_inputs) }
    ensures { Writes out at result (path_lines (said_at inputs report.now k)) }
{
    let number = record_word(report, inputs, k, NUMBER);
    let kind = record_word(report, inputs, k, KIND);
    let reason = record_word(report, inputs, k, REASON);
    let p = put_sheet_line(out, at, number, kind, reason);
    put_inputs(report, inputs, k, out, p)
}

// The whole sheet at the start of `out`, as far as it fits; the answer is how many bytes of it stand there.
pub(crate) fn put_sheet(report: &[u8], inputs: usize, out: &mut [u8]) -> usize
    requires { inputs ≤ most_inputs }
    ensures { Prints out result (sheet_text inputs report.now) }
{
    let mut p: usize = 0;
    for k in 0..records_in(report, inputs) {
        p = put_record(report, inputs, k, out, p);
    }
    p
}
