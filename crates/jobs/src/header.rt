// Document 01's places of the words in a job's header block.
ghost use Rattle.std.specs.Prelude.{◌≡◌, ◌<◌};
ghost use Rattle.jobs.specs.Header.{low_at, high_at};

pub const MARK: usize = 0;

// What it holds.
pub const MARK_WORD: u64 = 1;

pub const CODE_COUNT: usize = 1;

pub const INPUT_COUNT: usize = 2;

pub const STEP_LIMIT: usize = 3;

pub const FIRST_PATH: usize = 4;

// 5 to 12 lows, 13 to 20 highs.
pub const LOWS: usize = 5;

pub const HIGHS: usize = 13;

pub const GIVEN_COUNT: usize = 21;

// From here on every word is 0.
pub const REST: usize = 22;

// The place of input i's low, in the header of a job of so many inputs.
pub fn low_at(inputs: usize, i: usize) -> usize
    requires { i < 4096 }
    ensures { result ≡ low_at inputs i }
{
    LOWS + i
}

// And of its high.
pub fn high_at(inputs: usize, i: usize) -> usize
    requires { i < 4096 }
    ensures { result ≡ high_at inputs i }
{
    HIGHS + i
}
