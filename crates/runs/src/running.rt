// Runs of the plain machine.
ghost use Rattle.std.specs.Prelude.{◌≡◌};
ghost use Rattle.riscu.specs.Machine.{fetch, step_decoded, run, start};
ghost use Rattle.riscu.specs.Working.Parts.{state};

use crate::rows::step_word;
use riscu::At;
use riscu::plain::{Machine, Memory, Registers};

// The step that the code has at pc; where it has none, nothing moves.
fn step_at(
    code: &[u32],
    registers: &mut Registers,
    memory: &mut Memory,
    inputs: &[u64],
    at: At,
) -> At
    ensures { state result registers.new memory.new ≡ step_decoded inputs.now (fetch code.now at.pc) (state at registers.old memory.old) }
{
    if at.pc % 4 != 0 {
        return at;
    }
    match code.get((at.pc / 4) as usize) {
        Some(&word) => step_word(word, registers, memory, inputs, at),
        None => at,
    }
}

// n instructions from where the machine is.
pub fn proceed(
    code: &[u32],
    inputs: &[u64],
    n: usize,
    registers: &mut Registers,
    memory: &mut Memory,
    from: At,
) -> At
    ensures { state result registers.new memory.new ≡ run code.now inputs.now n (state from registers.old memory.old) }
{
    let mut at = from;
    for _ in 0..n {
        at = step_at(code, registers, memory, inputs, at);
    }
    at
}

// The starting machine, with memory as lent.
pub fn begin(memory: &Memory, registers: &mut Registers, words: &mut Memory) -> At
    ensures { state result registers.new words.new ≡ start memory.now }
{
    let Machine {
        at,
        registers: held,
    } = Machine::start();
    *registers = held;
    *words = *memory;
    at
}

// n instructions from the starting machine, with memory as lent.
pub fn run(
    code: &[u32],
    memory: &Memory,
    inputs: &[u64],
    n: usize,
    registers: &mut Registers,
    scratch: &mut Memory,
) -> At
    ensures { state result registers.new scratch.new ≡ run code.now inputs.now n (start memory.now) }
{
    let at = begin(memory, registers, scratch);
    proceed(code, inputs, n, registers, scratch, at)
}
