// The blocks of a job, and the call that writes them.
ghost use Rattle.std.specs.Prelude.{◌≡◌, ◌+◌, ◌*◌, ◌≤◌, ◌<◌, length, take, drop};
ghost use Rattle.std.proofs.Math.Option.{none};
ghost use Rattle.blocks.specs.Block.{block_bytes, payload_words, block};
ghost use Rattle.blocks.specs.Working.Writing.{put};
ghost use Rattle.calls.specs.Working.Asking.{refusal_in};
ghost use Rattle.calls.specs.Done.{done_left};
ghost use Rattle.jobs.specs.Job.{blocks_for};
ghost use Rattle.writing.specs.Form.{part_blocks, job_form};
ghost use Rattle.writing.specs.Write.{values_lent, job_written_on};
ghost use Rattle.writing.specs.Working.Writing.{Room, values_refusal, values_in};

use crate::value_words::{Values, code_pairs, given_count, header_words};
use blocks::block::put_block;
use blocks::{BLOCK_BYTES, PAYLOAD_WORDS};
use calls::questions::{
    code_fits, first_fits, in_order, intervals_fit, limit_fits, memory_fits, require,
};
use calls::{Completion, Refusal};
use jobs::job_words::{blocks_for, blocks_needed, code_payload, first_code};

// Writes the blocks of a part from `at` on.
fn put_blocks(job: &mut [u8], at: usize, words: &[u64])
    requires { (at + block_bytes * blocks_for (length words.now) ≤ length job.old) × (length words.now < 4096) }
    ensures { job.new ≡ put job.old at (part_blocks words.now) }
{
    for (b, payload) in words.chunks(PAYLOAD_WORDS).enumerate() {
        put_block(job, at + b * BLOCK_BYTES, payload);
    }
}

// Writes the job of values whose memory is the words given at the start of a space that is long enough.
fn put_job(values: Values<'_>, job: &mut [u8])
    requires { Room values.code.now values.memory.now values.intervals.now job.old }
    ensures { job.new ≡ put job.old 0 (job_form (values_in values.entry)) }
{
    let header = header_words(values);
    put_block(job, 0, &header);
    let pairs = code_pairs(values.code);
    let n = code_payload(values.code.len());
    let at = first_code(values.intervals.len() / 2);
    put_blocks(job, BLOCK_BYTES * at, &pairs[..n]);
    put_blocks(job, BLOCK_BYTES * (at + blocks_for(n)), values.memory);
}

// The questions on the values, in their order.
#[tactic(auto, unfolding(crate::specs::Write::value_questions, listing::specs::First::first))]
fn ask_values(values: Values<'_>) -> Result<(), Refusal>
    ensures { refusal_in result ≡ values_refusal (values_in values.entry) }
{
    require(code_fits(values.code.len() as u64), Refusal::Code)?;
    require(
        intervals_fit(values.intervals.len() as u64),
        Refusal::Inputs,
    )?;
    require(in_order(values.intervals), Refusal::Order)?;
    require(limit_fits(values.limit), Refusal::Limit)?;
    require(memory_fits(values.memory.len()), Refusal::Memory)?;
    require(first_fits(values.first), Refusal::First)
}

// Writes a job whose values pass, if the space is long enough.
fn write_accepted(values: Values<'_>, job: &mut [u8]) -> Completion
    requires { values_refusal (values_in values) ≡ none }
    ensures { done_left result job.new ≡ job_written_on (values_in values.entry) job }
{
    let n = given_count(values.memory);
    let bytes = BLOCK_BYTES * blocks_needed(values.intervals.len() / 2, values.code.len(), n);
    require(bytes <= job.len(), Refusal::Space)?;
    let given = Values {
        memory: &values.memory[..n],
        ..values
    };
    put_job(given, job);
    Ok(bytes as u64)
}

// Writes the job of these values, or refuses the call.
pub fn write_job(
    code: &[u32],
    memory: &[u64],
    intervals: &[u64],
    limit: u64,
    first: u64,
    job: &mut [u8],
) -> Completion
    ensures { done_left result job.new ≡ job_written_on (values_lent code memory intervals limit first) job }
{
    let values = Values {
        code,
        memory,
        intervals,
        limit,
        first,
    };
    ask_values(values)?;
    write_accepted(values, job)
}
