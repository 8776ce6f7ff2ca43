// Forks: where a class changes along one input, found by probes (runs of the plain machine from the start) near a hint; the table of
// forks, 8 words an entry; and what both are for: cutting the group at hand, and what is left of the latest fork.
// The contracts speak of the engine's state in the lists that hold it; the laws in proofs/ say that what is found is an edge.
#![tactic(auto)]

pub mod entries;
pub mod forking;
pub mod hints;
mod probes;

use riscu::Instruction;
use riscu::plain::Memory;

// What probes ask: whether an instruction, so many steps of the code from the start, has this class, while one input goes up.
#[derive(Clone, Copy)]
pub struct Probing<'a> {
    pub code: &'a [u32],
    pub memory: &'a Memory,
    pub steps: usize,
    pub instruction: Instruction,
    pub input: usize,
    pub class: u64,
}
