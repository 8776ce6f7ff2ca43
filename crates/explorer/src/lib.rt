// The exploration of a job that passes the questions: the turns at the two corners of the current box, from the first group to the page.
// Each turn is a move of document 01's plain listing with the straight steps before it, or takes up the next rest of the latest fork.
// What an accepted call leaves is one equation with the definition of a call.
#![tactic(auto)]

mod branching;
pub mod exploring;
mod running;
mod turns;

ghost use Rattle.std.specs.Prelude.{◌≡◌};
ghost use Rattle.explorer.specs.Working.Held.{standing, going, at_group, more};
ghost use Rattle.explorer.specs.Working.Explored.{halted};
ghost use Rattle.explorer.specs.declared.Phase.TheVariants.{AtGroup};

use decide::Limits;
use lockstep::Corners;
use pages::Window;
use riscu::plain::Memory;

// What an exploration reads and never writes. The intervals of the inputs are there for the contracts: it begins with their lows and highs.
#[derive(Clone, Copy)]
pub(crate) struct Task<'a> {
    pub(crate) code: &'a [u32],
    pub(crate) memory: &'a Memory,
    pub(crate) intervals: &'a [u64],
    pub(crate) limits: Limits,
    pub(crate) window: Window,
}

// At a group, between two groups, or stopped, with the answer whether a further path exists.
#[derive(Clone, Copy)]
pub enum Phase {
    AtGroup,
    Between,
    Stopped { more: bool },
}

// Where an exploration stands: its phase, the numbers of the group, the forks in the table, the paths ended, and where the machines at
// the corners are.
#[derive(Clone, Copy)]
pub struct Standing {
    pub phase: Phase,
    pub steps: usize,
    pub used: usize,
    pub forks: usize,
    pub paths: u64,
    pub at: Corners,
}

impl Standing {
    // At a group, after so many steps and with so many entries in use.
    fn at_group(self, steps: usize, used: usize, at: Corners) -> Standing
        ensures { result ≡ standing AtGroup steps used self.forks self.paths at }
    {
        Standing {
            phase: Phase::AtGroup,
            steps,
            used,
            at,
            ..self
        }
    }

    // Stopped, with the answer whether a further path exists.
    fn halted(self, more: bool) -> Standing
        ensures { result ≡ halted self more }
    {
        Standing {
            phase: Phase::Stopped { more },
            ..self
        }
    }

    fn is_going(self) -> bool
        ensures { result ≡ going self.phase }
    {
        matches!(self.phase, Phase::AtGroup | Phase::Between)
    }

    fn is_at_group(self) -> bool
        ensures { result ≡ at_group self.phase }
    {
        matches!(self.phase, Phase::AtGroup)
    }

    fn has_more(self) -> bool
        ensures { result ≡ more self.phase }
    {
        matches!(self.phase, Phase::Stopped { more: true })
    }
}
