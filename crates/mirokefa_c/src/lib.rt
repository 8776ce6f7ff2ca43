// The functions for C: the exploration of a lent job, the server's call on job blocks, rows placed in a report, a report printed and the
// length of that, a job's choices counted, a job written, as `extern "C"` with the answer in numbers.
// Each slice comes as a pointer and its length in elements.
// The archive of this crate, libmirokefa_c.a, is what include/mirokefa.h declares.
#![tactic(auto)]

ghost use Rattle.std.specs.Prelude.{◌≡◌};
ghost use Rattle.calls.specs.Border.{refused_number, reply_of, call_lent, called_on};
ghost use Rattle.calls.specs.Done.{refusal_from};
ghost use Rattle.counting.specs.Count.{counted};
ghost use Rattle.reports.specs.Placing.{placed_on};
ghost use Rattle.serving.specs.Served.{served_on};
ghost use Rattle.sheets.specs.Sheet.{sheet_bytes, printed_on};
ghost use Rattle.writing.specs.Write.{values_lent, write_outcome, job_written_on};

use calls::{Outcome, completion_number};
use counting::Counted;
use counting::counting::count;
use engine::explore;
use reports::placing::place;
use serving::serve;
use sheets::asking::sheet_bytes;
use sheets::sheet::print_sheet;
use writing::WriteOutcome;
use writing::writing::write_job;

// Explores a job and writes a page of its paths, or refuses the call.
#[unsafe(no_mangle)]
pub extern "C" fn mirokefa_explore(
    code: &[u32],
    memory: &[u64],
    intervals: &[u64],
    limit: u64,
    table: &mut [u64],
    report: &mut [u8],
    first: u64,
) -> Outcome
    ensures answer { result ≡ reply_of (called_on memory table (call_lent code intervals limit report first)).reply.answer }
    ensures bytes { report.new ≡ (called_on memory table (call_lent code intervals limit report first)).reply.report }
    ensures words { table.new ≡ (called_on memory table (call_lent code intervals limit report first)).table }
{
    let a = explore(code, memory, intervals, limit, table, report, first);
    Outcome::from(a)
}

// The server's call: job blocks in, a report out.
#[unsafe(no_mangle)]
pub extern "C" fn mirokefa_serve(job: &[u8], report: &mut [u8]) -> Outcome
    ensures answer { result ≡ reply_of (served_on job report).answer }
    ensures bytes { report.new ≡ (served_on job report).report }
{
    let a = serve(job, report);
    Outcome::from(a)
}

// Which path of a report does each row take?
#[unsafe(no_mangle)]
pub extern "C" fn mirokefa_place(
    inputs: u64,
    report: &[u8],
    rows: &[u64],
    answers: &mut [u64],
) -> u64
    ensures answer { result ≡ refused_number (refusal_from (placed_on inputs report rows answers).answer) }
    ensures words { answers.new ≡ (placed_on inputs report rows answers).list }
{
    let a = place(inputs, report, rows, answers);
    completion_number(a)
}

// The length of a report's sheet, or MAX if it is no word.
#[unsafe(no_mangle)]
pub extern "C" fn mirokefa_sheet_bytes(inputs: u64, report_bytes: usize) -> usize
    ensures { result ≡ sheet_bytes inputs report_bytes }
{
    sheet_bytes(inputs, report_bytes)
}

// A report printed on a sheet.
#[unsafe(no_mangle)]
pub extern "C" fn mirokefa_sheet(inputs: u64, report: &[u8], sheet: &mut [u8]) -> u64
    ensures answer { result ≡ refused_number (refusal_from (printed_on inputs report sheet).answer) }
    ensures bytes { sheet.new ≡ (printed_on inputs report sheet).list }
{
    let a = print_sheet(inputs, report, sheet);
    completion_number(a)
}

// How many choices of a job lead to each exit value, and to each other end?
#[unsafe(no_mangle)]
pub extern "C" fn mirokefa_count(job: &[u8]) -> Counted
    ensures { result ≡ counted job.now }
{
    count(job)
}

// Writes a job from its values.
#[unsafe(no_mangle)]
pub extern "C" fn mirokefa_write(
    code: &[u32],
    memory: &[u64],
    intervals: &[u64],
    limit: u64,
    first: u64,
    job: &mut [u8],
) -> WriteOutcome
    ensures answer { result ≡ write_outcome (job_written_on (values_lent code memory intervals limit first) job).answer }
    ensures bytes { job.new ≡ (job_written_on (values_lent code memory intervals limit first) job).list }
{
    let a = write_job(code, memory, intervals, limit, first, job);
    WriteOutcome::from(a)
}
