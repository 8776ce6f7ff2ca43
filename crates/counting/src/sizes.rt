// How many choices a box has: the product of the widths of its intervals.
ghost use Rattle.std.specs.Prelude.{◌≡◌, ◌≤◌, ◌<◌};
ghost use Rattle.boxes.specs.Boxes.{size};
ghost use Rattle.boxes.specs.Working.Cuts.{Proper};
ghost use Rattle.blocks.specs.Record.{most_inputs};
ghost use Rattle.blocks.specs.Report.{records_in};
ghost use Rattle.blocks.specs.Said.{said_at};
ghost use Rattle.calls.specs.Call.{box_of};
ghost use Rattle.counting.specs.Working.Adding.{sized, FitsWord};

use blocks::report::{input_high, input_low};

// The size of the box of some intervals, low, high, low, high, if it is a word.
pub(crate) fn box_size(intervals: &[u64]) -> Option<u64>
    requires { Proper (box_of intervals.now) }
    ensures { result ≡ sized (size (box_of intervals.now)) }
{
    let mut n: u64 = 1;
    for pair in intervals.chunks_exact(2) {
        let more = pair[1] - pair[0];
        let width = more.checked_add(1)?;
        n = n.checked_mul(width)?;
    }
    Some(n)
}

// The size of the box of record k.
pub(crate) fn path_size(report: &[u8], inputs: usize, k: usize) -> u64
    requires { (k < records_in inputs report.now) × (inputs ≤ most_inputs) × FitsWord (said_at inputs report.now k).box }
    ensures { result ≡ size (said_at inputs report.now k).box }
{
    let mut n: u64 = 1;
    for i in 0..inputs {
        let low = input_low(report, inputs, k, i);
        let high = input_high(report, inputs, k, i);
        n *= high - low + 1;
    }
    n
}
