// Which path of a report does each row take?
ghost use Rattle.std.specs.Prelude.{◌≡◌, ◌<◌, ◌≤◌, length};
ghost use Rattle.blocks.specs.Record.{most_inputs};
ghost use Rattle.blocks.specs.Report.{records_in};
ghost use Rattle.blocks.specs.Said.{said_at};
ghost use Rattle.calls.specs.Done.{done_left};
ghost use Rattle.reports.specs.Readable.{all_said};
ghost use Rattle.reports.specs.Placing.{rows_in, row_at, is_inside, placing, placings, placed_on};

use crate::asking::ask_place;
use blocks::layout::NUMBER;
use blocks::report::{input_high, input_low, record_word, records_in};
use calls::Completion;
use words::MAX;

// MAX, for a row in no path: document 02's word, which the caller's list holds.
const NO_PATH: u64 = MAX;

// Whether the box of record k holds row j.
fn record_holds(report: &[u8], inputs: usize, k: usize, rows: &[u64], j: usize) -> bool
    requires { (k < records_in inputs report.now) × (inputs ≤ most_inputs) × (j < rows_in inputs rows.now) }
    ensures { result ≡ is_inside (row_at inputs rows.now j) (said_at inputs report.now k).box }
{
    (0..inputs).all(|i| {
        let x = rows[inputs * j + i];
        input_low(report, inputs, k, i) <= x && x <= input_high(report, inputs, k, i)
    })
}

// The placing of row j.
fn place_row(report: &[u8], inputs: usize, rows: &[u64], j: usize) -> u64
    requires { (inputs ≤ most_inputs) × (j < rows_in inputs rows.now) }
    ensures { result ≡ placing (all_said inputs report.now) (row_at inputs rows.now j) }
{
    let n = records_in(report, inputs);
    for k in 0..n {
        if record_holds(report, inputs, k, rows, j) {
            return record_word(report, inputs, k, NUMBER);
        }
    }
    NO_PATH
}

// Writes each row's placing.
fn place_rows(report: &[u8], inputs: usize, rows: &[u64], answers: &mut [u64])
    requires { (inputs ≤ most_inputs) × (length answers.old ≡ rows_in inputs rows.now) }
    ensures { answers.new ≡ placings inputs report.now rows.now }
{
    for (j, answer) in answers.iter_mut().enumerate() {
        *answer = place_row(report, inputs, rows, j);
    }
}

// Places rows in the paths of a report and answers how many, or refuses the call.
pub fn place(inputs: u64, report: &[u8], rows: &[u64], answers: &mut [u64]) -> Completion
    ensures { done_left result answers.new ≡ placed_on inputs report rows answers }
{
    ask_place(inputs, report, rows, answers)?;
    place_rows(report, inputs as usize, rows, answers);
    Ok(answers.len() as u64)
}
