// Both corners from the starting machine alone: nothing of another path can be left in them.
ghost use Rattle.std.specs.Prelude.{◌≡◌, ◌<◌, ◌≤◌};
ghost use Rattle.riscu.specs.Machine.{fetch};
ghost use Rattle.lockstep.specs.Working.LockStep.{both, advanced_by, lock_steps, starting};
ghost use Rattle.straight.specs.Working.Stepped.{Onward};

use crate::steps::{straight_steps, word_at};
use decide::{Limits, Used};
use lockstep::{Corners, Machines};
use riscu::Instruction;
use riscu::decoder::decode;
use riscu::plain::Memory;
use runs::running::begin;

// The step of what a word is, at both corners; where it is no instruction, nothing moves.
#[tactic(auto, unfolding(lockstep::specs::Working::LockStep::advanced_by))]
fn advance_by(
    d: Option<Instruction>,
    m: &mut Machines,
    lows: &[u64],
    highs: &[u64],
    at: Corners,
) -> Corners
    ensures { both result m.new ≡ advanced_by lows.now highs.now d (both at m.old) }
{
    let Some(i) = d else {
        return at;
    };
    m.advance(i, lows, highs, at)
}

// The step that the code has at the low corner's pc, at both corners; where it has none, nothing moves. Of those that straight steps
// leave most are reads, and these need no instruction.
fn advance_next(code: &[u32], m: &mut Machines, lows: &[u64], highs: &[u64], at: Corners) -> Corners
    ensures { both result m.new ≡ advanced_by lows.now highs.now (fetch code.now at.low.pc) (both at m.old) }
{
    let Some(word) = word_at(code, at.low.pc) else {
        return at;
    };
    if word == 115 {
        return m.advance_read(lows, highs, at);
    }
    advance_by(decode(word), m, lows, highs, at)
}

// Where both corners are after so many steps.
#[derive(Clone, Copy)]
pub struct Advanced {
    pub steps: usize,
    pub at: Corners,
}

// Straight steps in a row, and then another one, if some are left. One entry for each step is room for all of them.
fn some_steps(
    code: &[u32],
    n: usize,
    m: &mut Machines,
    lows: &[u64],
    highs: &[u64],
    from: Advanced,
) -> Advanced
    requires { from.steps < n }
    ensures steps_lt_steps { (from.steps < result.steps) × (result.steps ≤ n) }
    ensures fact { Onward lows.now highs.now code.now from.steps (both from.at m.old) result.steps (both result.at m.new) }
{
    let limits = Limits {
        steps: n,
        entries: n,
        inputs: 0,
    };
    let used = Used {
        steps: from.steps,
        entries: 0,
    };
    let ran = straight_steps(code, limits, used, m, from.at);
    let steps = ran.used.steps;
    if n <= steps {
        return Advanced { steps, at: ran.at };
    }
    let at = advance_next(code, m, lows, highs, ran.at);
    Advanced {
        steps: steps + 1,
        at,
    }
}

// n steps of both corners from where they are.
fn proceed_both(
    code: &[u32],
    n: usize,
    m: &mut Machines,
    lows: &[u64],
    highs: &[u64],
    from: Corners,
) -> Corners
    ensures { both result m.new ≡ lock_steps lows.now highs.now code.now n (both from m.old) }
{
    let mut so_far = Advanced { steps: 0, at: from };
    // a turn takes as many steps as are straight, and one more
    while so_far.steps < n {
        so_far = some_steps(code, n, m, lows, highs, so_far);
    }
    so_far.at
}

// n steps of both corners from the starting machine, with memory as lent.
pub fn replay(
    code: &[u32],
    memory: &Memory,
    n: usize,
    m: &mut Machines,
    lows: &[u64],
    highs: &[u64],
) -> Corners
    ensures { both result m.new ≡ lock_steps lows.now highs.now code.now n (starting memory.now) }
{
    let low = begin(memory, &mut m.low, &mut m.lowmem);
    let high = begin(memory, &mut m.high, &mut m.highmem);
    m.clear_tags();
    proceed_both(code, n, m, lows, highs, Corners { low, high })
}
