// Blocks of 512 bytes, as document 01 lays them out; what a reader must believe stands in specs/ outside Working/.
// `byte_words` reads and writes one word, `block` the check and a whole block, `record` writes an ended path's two blocks, `report` reads them back.
// The laws say that what is written is what is read, and that the check tells a changed word.
#![tactic(auto)]

pub mod block;
pub mod byte_words;
pub mod layout;
pub mod record;
pub mod report;

pub const WORD_BYTES: usize = 8;

pub const BLOCK_WORDS: usize = 64;

pub const BLOCK_BYTES: usize = BLOCK_WORDS * WORD_BYTES;

// Words 0 to 62, which word 63 checks.
pub const PAYLOAD_WORDS: usize = BLOCK_WORDS - 1;

// A path takes two blocks.
pub const PATH_BYTES: usize = 2 * BLOCK_BYTES;

// Questions 2 and 12: the most inputs that a job has.
pub const MOST_INPUTS: usize = 8;
