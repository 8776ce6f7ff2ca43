// What an accepted job holds, copied into what the caller lends.
ghost use Rattle.std.specs.Prelude.{◌≡◌};
ghost use Rattle.std.proofs.Math.Option.{none};
ghost use Rattle.jobs.specs.Job.{code_in, memory_in, job_refusal_of};
ghost use Rattle.jobs.specs.Working.Reading.{counts_in, over, left_in, read_into};

use crate::Counts;
use crate::asking::ask_job;
use crate::header::{CODE_COUNT, FIRST_PATH, GIVEN_COUNT, INPUT_COUNT, STEP_LIMIT};
use crate::job_words::{SizedJob, WholeBlocks, blocks_for, code_payload, first_code};
use blocks::MOST_INPUTS;
use calls::Refusal;
use calls::questions::CODE_WORDS;
use riscu::plain::Machine;

// The code words that the job gives, over the old ones.
fn code_in(job: SizedJob<'_>, code: &mut [u32; CODE_WORDS])
    ensures { code.new ≡ over (code_in job.entry.blocks.bytes.now) code.old }
{
    for k in 0..job.blocks.word(CODE_COUNT) as usize {
        code[k] = job.blocks.code_word(k);
    }
}

// The memory words given, and then 0.
fn memory_in(job: SizedJob<'_>, memory: &mut [u64; Machine::MEMORY_WORDS])
    ensures { memory.new ≡ memory_in job.entry.blocks.bytes.now }
{
    let blocks = job.blocks;
    let first = first_code(blocks.input_count())
        + blocks_for(code_payload(blocks.word(CODE_COUNT) as usize));
    *memory = [0u64; Machine::MEMORY_WORDS];
    for k in 0..blocks.word(GIVEN_COUNT) as usize {
        memory[k] = blocks.payload_word(first, k);
    }
}

// The numbers of a job.
fn counts(blocks: WholeBlocks<'_>) -> Counts
    ensures { result ≡ counts_in blocks.entry.bytes.now }
{
    Counts {
        code: blocks.word(CODE_COUNT),
        inputs: blocks.word(INPUT_COUNT),
        limit: blocks.word(STEP_LIMIT),
        first: blocks.word(FIRST_PATH),
    }
}

// Copies an accepted job.
fn accept(
    bytes: &[u8],
    code: &mut [u32; CODE_WORDS],
    intervals: &mut [u64; 2 * MOST_INPUTS],
    memory: &mut [u64; Machine::MEMORY_WORDS],
) -> Counts
    requires { job_refusal_of bytes.now ≡ none }
    ensures { left_in (Ok result) code intervals memory ≡ read_into bytes code intervals memory }
{
    let blocks = WholeBlocks { bytes };
    let job = SizedJob { blocks };
    code_in(job, code);
    blocks.intervals_in(intervals);
    memory_in(job, memory);
    counts(blocks)
}

// Reads a job: the answer, and where no question is answered no, its code, intervals and memory. They go into arrays of the most that
// a job holds, which the caller lends: there is no heap.
#[tactic(auto, unfolding(crate::specs::Working::Reading::read_to, crate::specs::Working::Reading::read_by))]
pub fn read_job(
    bytes: &[u8],
    code: &mut [u32; CODE_WORDS],
    intervals: &mut [u64; 2 * MOST_INPUTS],
    memory: &mut [u64; Machine::MEMORY_WORDS],
) -> Result<Counts, Refusal>
    ensures { left_in result code intervals memory ≡ read_into bytes code intervals memory }
{
    ask_job(bytes)?;
    Ok(accept(bytes, code, intervals, memory))
}
