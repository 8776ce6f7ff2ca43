// A lent report read back, record by record; `inputs` is the input count of its paths.
// It stands beside the report: of a struct that holds both, each clause would name `report.entry.bytes.now` for `report.now`.
ghost use Rattle.std.specs.Prelude.{◌≡◌, ◌<◌, ◌≤◌};
ghost use Rattle.blocks.specs.Block.{word_at};
ghost use Rattle.blocks.specs.Layout as place;
ghost use Rattle.blocks.specs.Record.{most_inputs, record_words, record_bytes};
ghost use Rattle.blocks.specs.Report.{records_in, record_at};

use crate::byte_words::word_at;
use crate::layout::{high_at, low_at};
use crate::{PATH_BYTES, WORD_BYTES};

// The size of a record: two blocks have places for every count of inputs up to 8.
pub fn record_bytes(_inputs: usize) -> usize
    ensures { result ≡ record_bytes _inputs }
{
    PATH_BYTES
}

// How many records the report holds.
pub fn records_in(report: &[u8], inputs: usize) -> usize
    ensures { result ≡ records_in inputs report.now }
{
    report.len() / record_bytes(inputs)
}

// A word of record k.
pub fn record_word(report: &[u8], inputs: usize, k: usize, place: usize) -> u64
    requires { (k < records_in inputs report.now) × (place < record_words inputs) }
    ensures { result ≡ word_at (record_at inputs report.now k) place }
{
    word_at(report, record_bytes(inputs) * k + place * WORD_BYTES)
}

// The low of input i of record k.
pub fn input_low(report: &[u8], inputs: usize, k: usize, i: usize) -> u64
    requires { (k < records_in inputs report.now) × (i < inputs) × (inputs ≤ most_inputs) }
    ensures { result ≡ word_at (record_at inputs report.now k) (place.low_at inputs i) }
{
    record_word(report, inputs, k, low_at(inputs, i))
}

// The high of input i of record k.
pub fn input_high(report: &[u8], inputs: usize, k: usize, i: usize) -> u64
    requires { (k < records_in inputs report.now) × (i < inputs) × (inputs ≤ most_inputs) }
    ensures { result ≡ word_at (record_at inputs report.now k) (place.high_at inputs i) }
{
    record_word(report, inputs, k, high_at(inputs, i))
}
