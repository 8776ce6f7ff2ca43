// A straight step decided and taken at once: what `decide` says of the rows that most steps are, and then the step of `lockstep`,
// with one look at the word; where it says no, nothing has moved. By such steps, and the lock step's where they stop, both corners are replayed.
// It changes what an exploration costs and nothing else: a step taken here is the one that the decision and the lock step give.
#![tactic(auto)]

pub mod replaying;
mod rows;
pub mod steps;

use decide::Used;
use lockstep::Corners;

// A straight step that was taken: where the corners are then, and the trace entries that it took.
#[derive(Clone, Copy)]
pub struct Taken {
    pub at: Corners,
    pub writes: usize,
}

// Where straight steps in a row have come to: what the group has used then, and where the corners are.
#[derive(Clone, Copy)]
pub struct Ran {
    pub used: Used,
    pub at: Corners,
}
