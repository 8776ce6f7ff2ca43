// The course server's call and the program's answer, on bytes: job blocks in, a report or its text out.
// Both explore the job with a table of their own; the server's call asks the program's questions and then question 7.
// What a reader must believe stands in specs/ outside Working/: what a served call leaves, its part in the demands, and the program's text.
#![tactic(auto)]

ghost use Rattle.std.specs.Prelude.{◌≡◌, ◌*◌, ◌≤◌, length};
ghost use Rattle.calls.specs.Call.{reply_to};
ghost use Rattle.printing.specs.Output.{fitted, fitting};
ghost use Rattle.serving.specs.Response.{response_on};
ghost use Rattle.serving.specs.Served.{table_words, reply, served_on};
ghost use Rattle.serving.specs.Working.Reading.{call_read};

use blocks::MOST_INPUTS;
use calls::Answer;
use calls::questions::CODE_WORDS;
use engine::explore;
use jobs::Counts;
use jobs::job_words::input_count;
use jobs::reading::read_job;
use printing::{print_listing, print_refusal};
use riscu::plain::Machine;

const TABLE_WORDS: usize = 8192;

// Explores what was read, with the program's table.
pub fn explore_read(
    code: &[u32],
    intervals: &[u64],
    memory: &[u64],
    counts: Counts,
    report: &mut [u8],
) -> Answer
    requires { (counts.code ≤ length code.now) × (2 * counts.inputs ≤ length intervals.now) }
    ensures { reply result report.new ≡ reply_to memory.now table_words (call_read code intervals counts report) }
{
    let n = counts.code as usize;
    let m = 2 * counts.inputs as usize;
    let mut table = [0u64; TABLE_WORDS];
    explore(
        &code[..n],
        memory,
        &intervals[..m],
        counts.limit,
        &mut table,
        report,
        counts.first,
    )
}

// Reads a job, explores it and writes a page of its paths, or refuses it. The buffers stand here and in `counting`, as there is no heap.
pub fn serve(job: &[u8], report: &mut [u8]) -> Answer
    ensures { reply result report.new ≡ served_on job report }
{
    let mut code = [0u32; CODE_WORDS];
    let mut intervals = [0u64; 2 * MOST_INPUTS];
    let mut memory = [0u64; Machine::MEMORY_WORDS];
    let counts = read_job(job, &mut code, &mut intervals, &mut memory)?;
    explore_read(&code, &intervals, &memory, counts, report)
}

// The program's answer to a job, written at the start of `out`, as far as it fits; how many bytes it wrote.
pub fn respond(job: &[u8], report: &mut [u8], out: &mut [u8]) -> usize
    ensures text { out.new ≡ fitted (response_on job report) out.old }
    ensures size { result ≡ fitting (response_on job report) out.old }
    ensures bytes { report.new ≡ (served_on job report).report }
{
    match serve(job, report) {
        Err(r) => print_refusal(u64::from(r), out),
        Ok(page) => {
            let inputs = input_count(job);
            print_listing(report, inputs, page.count as usize, page.more, out)
        }
    }
}
