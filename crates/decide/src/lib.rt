// What the two corners of a box decide: tests on words and the class of a step, the ending order from the registers at the lowest
// inputs and at the highest, and the whole decision for a group: its end, or its instruction, which forks or not.
// Nothing is required of a caller: on any registers the decision is the definition's.
#![tactic(auto)]

pub mod classes;
pub mod group;
pub mod order;

use listing::End;
use riscu::Instruction;

// What becomes of a group: its end, or its instruction, which all choices take alike or which forks.
#[derive(Clone, Copy)]
pub enum Decision {
    Ended(End),
    Steps(Instruction),
    Forks(Instruction),
}

// How far a job may go: steps, trace entries, inputs.
#[derive(Clone, Copy)]
pub struct Limits {
    pub steps: usize,
    pub entries: usize,
    pub inputs: usize,
}

// What a group has used of it.
#[derive(Clone, Copy)]
pub struct Used {
    pub steps: usize,
    pub entries: usize,
}
