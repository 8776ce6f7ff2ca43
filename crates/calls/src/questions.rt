// The questions, asked in document 01's order; the first no decides.
ghost use Rattle.std.specs.Prelude.{◌≡◌, IsTrue, IsFalse, OnOk, IfErr};
ghost use Rattle.blocks.specs.Record.{record_bytes};
ghost use Rattle.calls.specs.Call.{call_of, box_of};
ghost use Rattle.calls.specs.Questions.{code_fits, inputs_fit, intervals_fit, in_order, limit_fits, table_fits, memory_fits, report_fits, first_fits};
ghost use Rattle.calls.specs.Working.Asking.{refusal_in, refusal_on};

use crate::Refusal;
use blocks::MOST_INPUTS;
use blocks::report::record_bytes;
use riscu::plain::Machine;

pub const CODE_WORDS: usize = 1024;

pub const MOST_STEPS: u64 = 65536;

// The words of one table entry: the least table.
pub const ENTRY_WORDS: usize = 8;

// Every path wanted first is below this.
pub const FIRST_END: u64 = 4294967296;

// The tests, each as the definition has it; `&` asks both halves, so that one test is one fact.

// 1: 1 to 1,024 code words.
pub fn code_fits(words: u64) -> bool
    ensures { result ≡ code_fits words }
{
    (1 <= words) & (words <= CODE_WORDS as u64)
}

// 2: at most 8 inputs.
pub fn inputs_fit(inputs: u64) -> bool
    ensures { result ≡ inputs_fit inputs }
{
    inputs <= MOST_INPUTS as u64
}

// 2: whole pairs of them.
pub fn intervals_fit(words: u64) -> bool
    ensures { result ≡ intervals_fit words }
{
    (words % 2 == 0) & inputs_fit(words / 2)
}

// 3: each low is at most its high; a low without a high is not asked.
pub fn in_order(intervals: &[u64]) -> bool
    ensures { result ≡ in_order (box_of intervals.now) }
{
    intervals.chunks_exact(2).all(|pair| pair[0] <= pair[1])
}

// 4: a limit of 1 to 65,536 steps.
pub fn limit_fits(limit: u64) -> bool
    ensures { result ≡ limit_fits limit }
{
    (1 <= limit) & (limit <= MOST_STEPS)
}

// 5: a table of at least one entry.
fn table_fits(words: usize) -> bool
    ensures { result ≡ table_fits words }
{
    ENTRY_WORDS <= words
}

// 6: a memory of exactly 512 words.
pub fn memory_fits(words: usize) -> bool
    ensures { result ≡ memory_fits words }
{
    words == Machine::MEMORY_WORDS
}

// 7: a report of whole records, and not empty.
fn report_fits(inputs: usize, bytes: usize) -> bool
    ensures { result ≡ report_fits (record_bytes inputs) bytes }
{
    (bytes % record_bytes(inputs) == 0) & (1 <= bytes)
}

// 8: a first path below 2^32.
pub fn first_fits(path: u64) -> bool
    ensures { result ≡ first_fits path }
{
    path < FIRST_END
}

// A question's answer: no gives the refusal.
pub fn require(yes: bool, r: Refusal) -> Result<(), Refusal>
    ensures yes { OnOk result (IsTrue yes) }
    ensures no { IfErr result (λ e. IsFalse yes × (e ≡ r)) }
{
    if yes { Ok(()) } else { Err(r) }
}

// The questions of an exploration, in their order.
#[tactic(auto, unfolding(crate::specs::Call::questions, listing::specs::First::first))]
pub fn ask(
    code: &[u32],
    memory: &[u64],
    intervals: &[u64],
    limit: u64,
    table: &[u64],
    report: &[u8],
    first: u64,
) -> Result<(), Refusal>
    ensures { refusal_in result ≡ refusal_on memory table (call_of code.now intervals.now limit report.now first) }
{
    require(code_fits(code.len() as u64), Refusal::Code)?;
    require(intervals_fit(intervals.len() as u64), Refusal::Inputs)?;
    require(in_order(intervals), Refusal::Order)?;
    require(limit_fits(limit), Refusal::Limit)?;
    require(table_fits(table.len()), Refusal::Table)?;
    require(memory_fits(memory.len()), Refusal::Memory)?;
    require(
        report_fits(intervals.len() / 2, report.len()),
        Refusal::Report,
    )?;
    require(first_fits(first), Refusal::First)
}
