// The questions on a job, asked in document 01's order; the first no decides.
ghost use Rattle.std.specs.Prelude.{◌≡◌, ◌≤◌, ◌<◌};
ghost use Rattle.blocks.specs.Record.{most_inputs};
ghost use Rattle.calls.specs.Call.{box_of};
ghost use Rattle.calls.specs.Questions.{in_order};
ghost use Rattle.calls.specs.Working.Asking.{refusal_in};
ghost use Rattle.jobs.specs.Job.{input_count, intervals_in, whole_blocks, given_fits, zero_words, zero_halves, unused_zero, well_formed, job_refusal_of};

use crate::header::{
    CODE_COUNT, FIRST_PATH, GIVEN_COUNT, HIGHS, INPUT_COUNT, LOWS, MARK, MARK_WORD, REST,
    STEP_LIMIT,
};
use crate::job_words::{
    SizedJob, WholeBlocks, blocks_for, blocks_needed, code_payload, first_code,
};
use blocks::block::checks_agree;
use blocks::{BLOCK_BYTES, MOST_INPUTS, PAYLOAD_WORDS};
use calls::Refusal;
use calls::questions::{code_fits, first_fits, in_order, inputs_fit, limit_fits, require};
use riscu::plain::Machine;

// A header, and 1,024 code words and 512 memory words at most.
const MOST_BLOCKS: usize = 19;

fn whole_blocks(bytes: &[u8]) -> bool
    ensures { result ≡ whole_blocks bytes.now }
{
    let blocks = bytes.len() / BLOCK_BYTES;
    (bytes.len() % BLOCK_BYTES == 0) & ((1 <= blocks) & (blocks <= MOST_BLOCKS))
}

// 3, of the intervals as they are read.
fn ordered(blocks: WholeBlocks<'_>) -> bool
    requires { input_count blocks.bytes.now ≤ most_inputs }
    ensures { result ≡ in_order (box_of (intervals_in blocks.entry.bytes.now)) }
{
    let n = 2 * blocks.input_count();
    let mut words = [0u64; 2 * MOST_INPUTS];
    blocks.intervals_in(&mut words);
    in_order(&words[..n])
}

// 6, of a header's count.
fn given_fits(words: u64) -> bool
    ensures { result ≡ given_fits words }
{
    words <= Machine::MEMORY_WORDS as u64
}

// Whether payload words i to e - 1 of the part that begins with a block are 0.
fn zero_words(blocks: WholeBlocks<'_>, block: usize, i: usize, e: usize) -> bool
    requires { (block < 4096) × (i ≤ e) × (e < 4096) }
    ensures { result ≡ zero_words blocks.entry.bytes.now block i e }
{
    (i..e).all(|k| blocks.payload_word(block, k) == 0)
}

// Whether halves j to e - 1 of the code blocks are 0.
fn zero_halves(blocks: WholeBlocks<'_>, j: usize, e: usize) -> bool
    requires { (j ≤ e) × (e < 4096) }
    ensures { result ≡ zero_halves blocks.entry.bytes.now j e }
{
    (j..e).all(|k| blocks.code_word(k) == 0)
}

fn unused_zero(job: SizedJob<'_>) -> bool
    ensures { result ≡ unused_zero job.entry.blocks.bytes.now }
{
    let blocks = job.blocks;
    let n = blocks.word(CODE_COUNT) as usize;
    let inputs = blocks.word(INPUT_COUNT) as usize;
    let given = blocks.word(GIVEN_COUNT) as usize;
    let code = blocks_for(code_payload(n));
    let memory = blocks_for(given);
    let lows = zero_words(blocks, 0, LOWS + inputs, HIGHS);
    let highs = zero_words(blocks, 0, HIGHS + inputs, GIVEN_COUNT);
    let rest = zero_words(blocks, 0, REST, PAYLOAD_WORDS);
    let halves = zero_halves(blocks, n, 2 * PAYLOAD_WORDS * code);
    let words = zero_words(
        blocks,
        first_code(inputs) + code,
        given,
        PAYLOAD_WORDS * memory,
    );
    lows & (highs & (rest & (halves & words)))
}

fn well_formed(job: SizedJob<'_>) -> bool
    ensures { result ≡ well_formed job.entry.blocks.bytes.now }
{
    let blocks = job.blocks;
    let n = blocks.word(CODE_COUNT) as usize;
    let given = blocks.word(GIVEN_COUNT) as usize;
    let needed = blocks_needed(blocks.input_count(), n, given);
    let fits = blocks.bytes.len() / BLOCK_BYTES == needed;
    (blocks.word(MARK) == MARK_WORD) & (fits & unused_zero(job))
}

// The questions on a job, in their order.
#[tactic(auto, using(crate::proofs::Asked::whole_left, crate::proofs::Asked::code_left), unfolding(crate::specs::Job::job_questions, crate::specs::Job::header_questions, listing::specs::First::first))]
pub(crate) fn ask_job(bytes: &[u8]) -> Result<(), Refusal>
    ensures { refusal_in result ≡ job_refusal_of bytes.now }
{
    require(whole_blocks(bytes), Refusal::Blocks)?;
    require(checks_agree(bytes), Refusal::Check)?;
    let blocks = WholeBlocks { bytes };
    require(code_fits(blocks.word(CODE_COUNT)), Refusal::Code)?;
    require(inputs_fit(blocks.word(INPUT_COUNT)), Refusal::Inputs)?;
    require(ordered(blocks), Refusal::Order)?;
    require(limit_fits(blocks.word(STEP_LIMIT)), Refusal::Limit)?;
    require(given_fits(blocks.word(GIVEN_COUNT)), Refusal::Memory)?;
    require(first_fits(blocks.word(FIRST_PATH)), Refusal::First)?;
    require(well_formed(SizedJob { blocks }), Refusal::Form)
}
