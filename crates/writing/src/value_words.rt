// The words of a job: the header's, the code's two to a payload word, and how many of memory are given.
ghost use Rattle.std.specs.Prelude.{◌≡◌, ◌+◌, ◌-◌, ◌*◌, ◌^◌, ◌/◌, ◌≤◌, ◌<◌, ◌++◌, length, get_or, replicate};
ghost use Rattle.riscu.specs.Limits.{code_words};
ghost use Rattle.blocks.specs.Record.{most_inputs};
ghost use Rattle.calls.specs.Call.{box_of};
ghost use Rattle.jobs.specs.Job.{code_payload};
ghost use Rattle.writing.specs.Form.{given_of, stored_inputs, header_words, code_pair, code_pairs};
ghost use Rattle.writing.specs.Working.Writing.{values_in};

use blocks::PAYLOAD_WORDS;
use calls::questions::CODE_WORDS;
use jobs::header::{
    CODE_COUNT, FIRST_PATH, GIVEN_COUNT, INPUT_COUNT, MARK, MARK_WORD, STEP_LIMIT, high_at, low_at,
};
use jobs::job_words::code_payload;

// What a job holds.
#[derive(Clone, Copy)]
pub(crate) struct Values<'a> {
    pub(crate) code: &'a [u32],
    pub(crate) memory: &'a [u64],
    pub(crate) intervals: &'a [u64],
    pub(crate) limit: u64,
    pub(crate) first: u64,
}

// Payload words of the longest code, which an array has room for, as there is no heap.
pub(crate) const CODE_PAYLOAD: usize = (CODE_WORDS + 1) / 2;

// How many memory words are given: those up to the last that is not 0.
pub(crate) fn given_count(memory: &[u64]) -> usize
    ensures { result ≡ given_of memory.now }
{
    memory
        .iter()
        .rposition(|w| *w != 0)
        .map_or(0, |last| last + 1)
}

// Puts the low and the high of each input at their places.
fn put_inputs(words: &mut [u64; PAYLOAD_WORDS], intervals: &[u64])
    requires { length intervals.now ≤ 2 * most_inputs }
    ensures { words.new ≡ stored_inputs (length intervals.now / 2) 0 (box_of intervals.now) words.old }
{
    let inputs = intervals.len() / 2;
    for (i, pair) in intervals.chunks_exact(2).enumerate() {
        words[low_at(inputs, i)] = pair[0];
        words[high_at(inputs, i)] = pair[1];
    }
}

// The words of the header of values whose memory is the words given, of which the last is not 0.
pub(crate) fn header_words(values: Values<'_>) -> [u64; PAYLOAD_WORDS]
    requires { (length values.intervals.now ≤ 2 * most_inputs) × (given_of values.memory.now ≡ length values.memory.now) }
    ensures { result ≡ header_words (values_in values.entry) }
{
    let mut words = [0u64; PAYLOAD_WORDS];
    words[MARK] = MARK_WORD;
    words[CODE_COUNT] = values.code.len() as u64;
    words[INPUT_COUNT] = (values.intervals.len() / 2) as u64;
    words[STEP_LIMIT] = values.limit;
    words[FIRST_PATH] = values.first;
    words[GIVEN_COUNT] = values.memory.len() as u64;
    put_inputs(&mut words, values.intervals);
    words
}

// Payload word i of the code: two code words, or one and 0, low half first.
fn code_pair(code: &[u32], i: usize) -> u64
    requires { i < 4096 }
    ensures { result ≡ code_pair code.now i }
{
    let low = code.get(2 * i).copied().unwrap_or(0);
    let high = code.get(2 * i + 1).copied().unwrap_or(0);
    u64::from(low) + (u64::from(high) << 32)
}

// The payload words of the code, and then 0.
pub(crate) fn code_pairs(code: &[u32]) -> [u64; CODE_PAYLOAD]
    requires { length code.now ≤ code_words }
    ensures { result ≡ code_pairs code.now ++ replicate (code_payload code_words - code_payload (length code.now)) 0 }
{
    let mut words = [0u64; CODE_PAYLOAD];
    for i in 0..code_payload(code.len()) {
        words[i] = code_pair(code, i);
    }
    words
}
