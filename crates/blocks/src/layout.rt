// Document 01's places of the words in a path's record; all but the registers stand in its first block.
ghost use Rattle.std.specs.Prelude.{◌≡◌, ◌<◌, ◌≤◌};
ghost use Rattle.blocks.specs.Layout.{low_at, high_at};
ghost use Rattle.blocks.specs.Record.{most_inputs};

pub const NUMBER: usize = 0;

pub const KIND: usize = 1;

pub const PC: usize = 2;

pub const STEPS: usize = 3;

pub const INPUTS: usize = 4;

// Inputs that a first block has places for: 5 to 12 lows, 13 to 20 highs.
const FIRST_PLACES: usize = 8;

pub const LOWS: usize = 5;

pub const HIGHS: usize = LOWS + FIRST_PLACES;

pub const EXIT_LOW: usize = 21;

pub const EXIT_HIGH: usize = 22;

pub const REASON: usize = 23;

pub const READS: usize = 24;

// Where the low of input i stands in a record of so many inputs.
pub(crate) fn low_at(inputs: usize, i: usize) -> usize
    requires { (i < inputs) × (inputs ≤ most_inputs) }
    ensures { result ≡ low_at inputs i }
{
    LOWS + i
}

// Where its high stands.
pub(crate) fn high_at(inputs: usize, i: usize) -> usize
    requires { (i < inputs) × (inputs ≤ most_inputs) }
    ensures { result ≡ high_at inputs i }
{
    HIGHS + i
}
