// An ended path's two blocks.
ghost use Rattle.std.specs.Prelude.{◌≡◌, ◌+◌, ◌≤◌, ◌∷◌, length, drop};
ghost use Rattle.boxes.specs.Working.Cuts.{box_in};
ghost use Rattle.blocks.specs.Block.{payload_words, payload};
ghost use Rattle.blocks.specs.Record.{most_inputs, record_bytes, exit_word, ends, first_words};
ghost use Rattle.blocks.specs.Working.Writing.{path_lent, with_path};

use crate::block::put_block;
use crate::layout::{
    EXIT_HIGH, EXIT_LOW, HIGHS, INPUTS, KIND, LOWS, NUMBER, PC, READS, REASON, STEPS,
};
use crate::{BLOCK_BYTES, PAYLOAD_WORDS};
use listing::End;

// An ended path, but for its inputs and registers, which come beside it.
#[derive(Clone, Copy)]
pub struct Ended {
    pub number: u64,
    pub end: End,
    pub pc: u64,
    pub steps: u64,
    pub reads: u64,
}

// An exit value's word: 0 unless kind 1.
fn exit_word(e: End, v: u64) -> u64
    ensures { result ≡ exit_word e v }
{
    match e {
        End::Exit => v,
        _ => 0,
    }
}

// The words of a path's first block.
fn first_words(
    p: Ended,
    lows: &[u64],
    highs: &[u64],
    register_lows: &[u64; 32],
    register_highs: &[u64; 32],
) -> [u64; PAYLOAD_WORDS]
    requires { (length lows.now ≤ most_inputs) × (length lows.now ≡ length highs.now) }
    ensures { result ≡ payload (first_words p.number (path_lent p lows highs register_lows register_highs)) }
{
    let end = p.end;
    let mut words = [0u64; PAYLOAD_WORDS];
    words[NUMBER] = p.number;
    words[KIND] = end.kind_number();
    words[PC] = p.pc;
    words[STEPS] = p.steps;
    words[INPUTS] = lows.len() as u64;
    words[EXIT_LOW] = exit_word(end, register_lows[10]);
    words[EXIT_HIGH] = exit_word(end, register_highs[10]);
    words[REASON] = end.reason_word();
    words[READS] = p.reads;
    words[LOWS..LOWS + lows.len()].copy_from_slice(lows);
    words[HIGHS..HIGHS + highs.len()].copy_from_slice(highs);
    words
}

// The words of a path's second block.
fn second_words(number: u64, lows: &[u64; 32], highs: &[u64; 32]) -> [u64; PAYLOAD_WORDS]
    ensures { result ≡ number ∷ ends (drop 1 (box_in lows.now highs.now)) }
{
    let mut words = [0u64; PAYLOAD_WORDS];
    words[0] = number;
    for r in 1..32 {
        words[2 * r - 1] = lows[r];
        words[2 * r] = highs[r];
    }
    words
}

// Writes the path's record from `at` on.
pub fn put_path(
    report: &mut [u8],
    at: usize,
    p: Ended,
    lows: &[u64],
    highs: &[u64],
    register_lows: &[u64; 32],
    register_highs: &[u64; 32],
)
    requires { (at + record_bytes (length lows.now) ≤ length report.old) × (length lows.now ≤ most_inputs) × (length lows.now ≡ length highs.now) }
    ensures { report.new ≡ with_path report.old at p.number (path_lent p lows highs register_lows register_highs) }
{
    let first = first_words(p, lows, highs, register_lows, register_highs);
    put_block(report, at, &first);
    let second = second_words(p.number, register_lows, register_highs);
    put_block(report, at + BLOCK_BYTES, &second);
}
