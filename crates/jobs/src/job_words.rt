// The blocks of a job, and its words: of its header, of a part that begins with some block, and the halves that are code words.
ghost use Rattle.std.specs.Prelude.{◌≡◌, ◌≤◌, ◌<◌};
ghost use Rattle.blocks.specs.Block.{word_at};
ghost use Rattle.blocks.specs.Record.{most_inputs};
ghost use Rattle.jobs.specs.Job.{input_count, code_payload, blocks_for, first_code, blocks_needed, payload_at, code_at, interval_at, intervals_in};
ghost use Rattle.jobs.specs.Working.Reading.{Whole, Sized, over};

use crate::header::{INPUT_COUNT, high_at, low_at};
use blocks::byte_words::word_at;
use blocks::{BLOCK_WORDS, MOST_INPUTS, PAYLOAD_WORDS, WORD_BYTES};

// The block that the code begins with, in a job of so many inputs.
pub fn first_code(inputs: usize) -> usize
    ensures { result ≡ first_code inputs }
{
    1
}

// As few blocks as hold the words.
pub fn blocks_for(words: usize) -> usize
    requires { words < 4096 }
    ensures { result ≡ blocks_for words }
{
    (words + (PAYLOAD_WORDS - 1)) / PAYLOAD_WORDS
}

// Payload words of so many code words: two in each.
pub fn code_payload(words: usize) -> usize
    requires { words < 4096 }
    ensures { result ≡ code_payload words }
{
    (words + 1) / 2
}

// The blocks of a job with so many inputs, code words and memory words given.
pub fn blocks_needed(inputs: usize, code: usize, given: usize) -> usize
    requires { (code < 4096) × (given < 4096) }
    ensures { result ≡ blocks_needed inputs code given }
{
    first_code(inputs) + blocks_for(code_payload(code)) + blocks_for(given)
}

// Bytes that are whole blocks.
#[derive(Clone, Copy)]
pub(crate) struct WholeBlocks<'a> {
    pub bytes: &'a [u8],
    ghost whole: { Whole bytes.now },
}

impl<'a> WholeBlocks<'a> {
    // Word k; 0 past the end.
    pub(crate) fn word(self, k: usize) -> u64
        ensures { result ≡ word_at self.entry.bytes.now k }
    {
        if k < self.bytes.len() / WORD_BYTES {
            return word_at(self.bytes, k * WORD_BYTES);
        }
        0
    }

    pub(crate) fn input_count(self) -> usize
        ensures { result ≡ input_count self.entry.bytes.now }
    {
        self.word(INPUT_COUNT) as usize
    }

    // Payload word i of the part that begins with a block.
    pub(crate) fn payload_word(self, block: usize, i: usize) -> u64
        requires { (block < 4096) × (i < 4096) }
        ensures { result ≡ payload_at self.entry.bytes.now block i }
    {
        self.word((block + i / PAYLOAD_WORDS) * BLOCK_WORDS + i % PAYLOAD_WORDS)
    }

    // Code word j: the low half first.
    pub(crate) fn code_word(self, j: usize) -> u32
        requires { j < 4096 }
        ensures { result ≡ code_at self.entry.bytes.now j }
    {
        let w = self.payload_word(first_code(self.input_count()), j / 2);
        if j % 2 == 0 {
            return (w & 0xffff_ffff) as u32;
        }
        (w >> 32) as u32
    }

    // Interval word j: low, high, low, high.
    fn interval_word(self, j: usize) -> u64
        requires { j < 4096 }
        ensures { result ≡ interval_at self.entry.bytes.now j }
    {
        if j % 2 == 0 {
            return self.word(low_at(self.input_count(), j / 2));
        }
        self.word(high_at(self.input_count(), j / 2))
    }

    // The intervals of the inputs, over the old ones.
    pub(crate) fn intervals_in(self, intervals: &mut [u64; 2 * MOST_INPUTS])
        requires { input_count self.bytes.now ≤ most_inputs }
        ensures { intervals.new ≡ over (intervals_in self.entry.bytes.now) intervals.old }
    {
        for k in 0..2 * self.input_count() {
            intervals[k] = self.interval_word(k);
        }
    }
}

// Blocks of a job whose counts fit what they are read into.
#[derive(Clone, Copy)]
pub(crate) struct SizedJob<'a> {
    pub blocks: WholeBlocks<'a>,
    ghost sized: { Sized blocks.bytes.now },
}

// The input count of a job of whole blocks.
pub fn input_count(bytes: &[u8]) -> usize
    requires { Whole bytes.now }
    ensures { result ≡ input_count bytes.now }
{
    WholeBlocks { bytes }.input_count()
}
