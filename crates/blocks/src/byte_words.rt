// Words in bytes, lowest byte first.
ghost use Rattle.std.specs.Prelude.{◌≡◌, ◌+◌, ◌≤◌, length, drop};
ghost use Rattle.blocks.specs.Block.{word_bytes, bytes_of, word_at};
ghost use Rattle.blocks.specs.Working.Writing.{put};

use crate::WORD_BYTES;

// The word of the eight bytes from `at` on. By a copy and not `first_chunk().unwrap()`, which tests the length again.
pub fn word_at(bytes: &[u8], at: usize) -> u64
    requires { at + word_bytes ≤ length bytes.now }
    ensures { result ≡ word_at (drop at bytes.now) 0 }
{
    let mut word = [0u8; WORD_BYTES];
    word.copy_from_slice(&bytes[at..at + WORD_BYTES]);
    u64::from_le_bytes(word)
}

// Writes a word as eight bytes from `at` on.
pub(crate) fn put_word(bytes: &mut [u8], at: usize, w: u64)
    requires { at + word_bytes ≤ length bytes.old }
    ensures { bytes.new ≡ put bytes.old at (bytes_of word_bytes w) }
{
    bytes[at..at + WORD_BYTES].copy_from_slice(&w.to_le_bytes());
}
