// Straight steps in a row, which are most of an exploration: what they need of it is the machines at the corners.
ghost use Rattle.explorer.specs.Working.Explored.{RunsOn};

use crate::{Standing, Task};
use decide::Used;
use lockstep::Machines;
use straight::steps::straight_steps;

impl Task<'_> {
    // Straight steps one after another. How many it takes is free: the turn that it stands in asks the whole decision next.
    pub(crate) fn run_straight(self, m: &mut Machines, s: Standing) -> Standing
        ensures { RunsOn self.entry.code.now self.entry.limits s m.old result m.new }
    {
        let used = Used {
            steps: s.steps,
            entries: s.used,
        };
        let ran = straight_steps(self.code, self.limits, used, m, s.at);
        s.at_group(ran.used.steps, ran.used.entries, ran.at)
    }
}
