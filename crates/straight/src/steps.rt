// The straight step from the code: the first three points of the ending order, and then the row; and many in a row.
ghost use Rattle.straight.specs.Working.Stepped.{DecidedStep, HasWord, place, StraightRun};

use crate::rows::straight_word;
use crate::{Ran, Taken};
use decide::group::entries_left;
use decide::{Limits, Used};
use lockstep::{Corners, Machines};

// The word of the code that a machine at pc takes, if there is one.
pub(crate) fn word_at(code: &[u32], pc: u64) -> Option<u32>
    ensures { HasWord code.now pc result }
{
    if pc % 4 != 0 {
        return None;
    }
    code.get((pc / 4) as usize).copied()
}

// Takes the next step, where it is straight and its row is one of the usual ones. Which straight steps it leaves is free: nothing has moved then.
fn straight_step(
    code: &[u32],
    limits: Limits,
    used: Used,
    m: &mut Machines,
    at: Corners,
) -> Option<Taken>
    ensures { DecidedStep code.now limits used at m.old m.new result }
{
    if used.steps == limits.steps {
        return None;
    }
    let word = word_at(code, at.low.pc)?;
    straight_word(m, word, entries_left(limits, used), at)
}

// Straight steps in a row, which are most of an exploration. How many it takes is free. One function takes them for a group and for
// a replay, so that a step is taken within its loop and not by a call.
pub fn straight_steps(
    code: &[u32],
    limits: Limits,
    used: Used,
    m: &mut Machines,
    at: Corners,
) -> Ran
    ensures { StraightRun code.now limits (place used at m.old) (place result.used result.at m.new) }
{
    let mut ran = Ran { used, at };
    // the steps stand in what is carried on, which the contract names
    while ran.used.steps < limits.steps {
        let Some(taken) = straight_step(code, limits, ran.used, m, ran.at) else {
            return ran;
        };
        let used = Used {
            steps: ran.used.steps + 1,
            entries: ran.used.entries + taken.writes,
        };
        ran = Ran { used, at: taken.at };
    }
    ran
}
