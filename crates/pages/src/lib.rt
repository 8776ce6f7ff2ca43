// The page of a call: an ended path's record in its place of the report, where the page begins at or before that path.
// Each register's interval is the lesser and the greater of its values at the two corners, and the other words are numbers that are given.
// The contract of `write_path` is one equation for the whole report: the record's bytes are the definition's, and every other byte is as lent.
#![tactic(auto)]

ghost use Rattle.std.specs.Prelude.{◌≡◌, ◌+◌, ◌-◌, ◌*◌, ◌≤◌, ◌<◌, length};
ghost use Rattle.blocks.specs.Record.{most_inputs, record_bytes};
ghost use Rattle.blocks.specs.Working.Writing.{path_in};
ghost use Rattle.pages.specs.Working.Page.{leasts, greatests, page_with, filled};

use blocks::record::{Ended, put_path};
use blocks::report::record_bytes;
use riscu::plain::{Registers, register};

// The numbers of the paths that a page has places for: from the first wanted to below the end.
#[derive(Clone, Copy)]
pub struct Window {
    pub first: u64,
    pub end: u64,
}

// Of each register the lesser and the greater of its values at the two corners.
#[derive(Clone, Copy)]
pub struct Extremes {
    pub lesser: Registers,
    pub greater: Registers,
}

fn bounds(low: &Registers, high: &Registers) -> Extremes
    ensures lesser_value { result.lesser ≡ leasts low.now high.now }
    ensures greater_value { result.greater ≡ greatests low.now high.now }
{
    let mut lesser = [0; 32];
    let mut greater = [0; 32];
    // by array::from_fn the proof did not close: no clause says that its closure holds the same corners at each call
    for r in 0..32 {
        let (a, b) = (register(low, r), register(high, r));
        lesser[r] = a.min(b);
        greater[r] = a.max(b);
    }
    Extremes { lesser, greater }
}

// Writes the path that ends here, where the page begins at or before it.
pub fn write_path(
    report: &mut [u8],
    window: Window,
    p: Ended,
    lows: &[u64],
    highs: &[u64],
    low: &Registers,
    high: &Registers,
)
    requires lows_len_bound { (length lows.now ≤ most_inputs) × (length lows.now ≡ length highs.now) }
    requires lows_in_bounds { filled (length lows.now) window p.number + record_bytes (length lows.now) ≤ length report.old }
    ensures { let path = path_in p lows.now highs.now (leasts low.now high.now) (greatests low.now high.now) in
        report.new ≡ page_with window p.number path report.old }
{
    if p.number < window.first {
        return;
    }
    let Extremes { lesser, greater } = bounds(low, high);
    let place = (p.number - window.first) as usize;
    let offset = record_bytes(lows.len()) * place;
    put_path(report, offset, p, lows, highs, &lesser, &greater);
}
