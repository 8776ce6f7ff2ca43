// A block: at most 63 words, zeros, and the check of them.
ghost use Rattle.std.specs.Prelude.{◌≡◌, ◌+◌, ◌≤◌, map, length, drop, slice_index};
ghost use Rattle.boxes.specs.Boxes.{from};
ghost use Rattle.blocks.specs.Block as B;
ghost use Rattle.blocks.specs.Block.{block_bytes, payload_words, word_at, check, block, agrees, checks_agree};
ghost use Rattle.blocks.specs.Working.Writing.{put};

use crate::byte_words::{put_word, word_at};
use crate::{BLOCK_BYTES, PAYLOAD_WORDS, WORD_BYTES};

// What the running sum of a check starts at.
const CHECK_START: u64 = 1;

// Where a block's check stands.
const CHECK_AT: usize = PAYLOAD_WORDS * WORD_BYTES;

// A word turned left by one bit.
fn turned(s: u64) -> u64
    ensures { result ≡ B.turned s }
{
    s.rotate_left(1)
}

// The check of words 0 to 62 of the block at `at`.
fn check_of(bytes: &[u8], at: usize) -> u64
    requires { at + block_bytes ≤ length bytes.now }
    ensures { result ≡ check (map (word_at (drop at bytes.now)) (from 0 payload_words)) }
{
    let mut s = CHECK_START;
    for k in 0..PAYLOAD_WORDS {
        s = turned(s).wrapping_add(word_at(bytes, at + k * WORD_BYTES));
    }
    s
}

// Whether word 63 of the block at `at` checks the others.
fn checked(bytes: &[u8], at: usize) -> bool
    requires { at + block_bytes ≤ length bytes.now }
    ensures { result ≡ agrees (drop at bytes.now) }
{
    check_of(bytes, at) == word_at(bytes, at + CHECK_AT)
}

// Whether every block of these bytes agrees with its check; bytes behind the last whole block are not asked.
pub fn checks_agree(bytes: &[u8]) -> bool
    ensures { result ≡ checks_agree bytes.now }
{
    (0..bytes.len() / BLOCK_BYTES).all(|k| checked(bytes, k * BLOCK_BYTES))
}

// The word at a place, and 0 past the end.
pub fn word_or_zero(words: &[u64], k: usize) -> u64
    ensures { result ≡ slice_index words.now k }
{
    words.get(k).copied().unwrap_or(0)
}

// Writes the block of at most 63 words from `at` on: the words, zeros, the check.
pub fn put_block(bytes: &mut [u8], at: usize, words: &[u64])
    requires { (at + block_bytes ≤ length bytes.old) × (length words.now ≤ payload_words) }
    ensures { bytes.new ≡ put bytes.old at (block words.now) }
{
    let mut s = CHECK_START;
    for k in 0..PAYLOAD_WORDS {
        let w = word_or_zero(words, k);
        put_word(bytes, at + k * WORD_BYTES, w);
        s = turned(s).wrapping_add(w);
    }
    put_word(bytes, at + CHECK_AT, s);
}
