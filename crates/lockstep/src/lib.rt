// The machines at the two corners of a box in lock step, with the tags: for each register and each memory word the input that its
// value hangs on. Tags stand in arrays of the machine's own types, so that its functions read and write them.
// On a box whose steps are smooth it gives the runs at the two corners, and their tags.
#![tactic(auto)]

ghost use Rattle.std.specs.Prelude.{◌≡◌};
ghost use Rattle.lockstep.specs.Working.LockStep.{zeroed};

pub mod advancing;
pub mod tags;

use riscu::At;
use riscu::plain::{Machine, Memory, Registers};

// Where the machines at the two corners are. It goes by value, so that the pc of a step stays in a register.
#[derive(Clone, Copy)]
pub struct Corners {
    pub low: At,
    pub high: At,
}

// The registers and the memory of the machines at the two corners, and the tags of each register and memory word.
#[derive(Drop)]
pub struct Machines {
    pub low: Registers,
    pub lowmem: Memory,
    pub high: Registers,
    pub highmem: Memory,
    pub tags: Registers,
    pub tagmem: Memory,
}

impl Machines {
    // All 0, before the first replay.
    pub fn zeroed() -> Self
        ensures { result ≡ zeroed }
    {
        Self {
            low: [0u64; 32],
            lowmem: [0u64; Machine::MEMORY_WORDS],
            high: [0u64; 32],
            highmem: [0u64; Machine::MEMORY_WORDS],
            tags: [0u64; 32],
            tagmem: [0u64; Machine::MEMORY_WORDS],
        }
    }
}
