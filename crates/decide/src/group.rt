// The whole decision for a group: all ten points, and whether the step forks.
#![tactic(auto, using(crate::proofs::Decisions::writes_small), unfolding(riscu::specs::Machine::fetch, listing::specs::Ending::writes, crate::specs::Working::Corner::onward, crate::specs::Working::Corner::unless_ends, crate::specs::Working::Corner::row_decision, crate::specs::Working::Corner::decision))]

ghost use Rattle.std.specs.Prelude.{◌≡◌, cond, ◌+◌, ◌-◌, ◌/◌, eqb, Some};
ghost use Rattle.riscu.specs.Decode.{decode_of};
ghost use Rattle.listing.specs.Ending.{writes};
ghost use Rattle.decide.specs.Working.Corner.{same_class, onward, row_decision, decision};

use crate::classes::class_of;
use crate::order::points;
use crate::{Decision, Limits, Used};
use listing::End;
use riscu::decoder::decode;
use riscu::plain::Registers;
use riscu::{At, Instruction};

pub fn one_unless_zero(rd: usize) -> usize
    ensures { result ≡ cond (eqb rd 0) 0 1 }
{
    usize::from(rd != 0)
}

// The registers (not 0) and memory words that an instruction writes.
pub fn writes(left: bool, i: Instruction) -> usize
    ensures { result ≡ writes left i }
{
    match i {
        Instruction::Lui { rd, .. }
        | Instruction::Immediate { rd, .. }
        | Instruction::Register { rd, .. }
        | Instruction::Ld { rd, .. }
        | Instruction::Jal { rd, .. }
        | Instruction::Jalr { rd, .. } => one_unless_zero(rd),
        Instruction::Sd { .. } => 1,
        Instruction::Branch { .. } => 0,
        Instruction::Ecall => if left { 2 } else { 1 },
    }
}

// Whether the class is the same at both corners.
fn same_class(i: Instruction, low: &Registers, high: &Registers) -> bool
    ensures { result ≡ same_class i low.now high.now }
{
    class_of(i, low) == class_of(i, high)
}

// The trace entries that a step takes: its writes, and one more where it forks.
fn needs(left: bool, i: Instruction, same: bool) -> usize
    ensures { result ≡ writes left i + cond same 0 1 }
{
    writes(left, i) + usize::from(!same)
}

// Point 10, and then the step.
fn onward(i: Instruction, entries: usize, left: bool, same: bool) -> Decision
    ensures { result ≡ onward entries left same i }
{
    if entries < needs(left, i, same) {
        return Decision::Ended(End::TraceFull);
    }
    if same {
        Decision::Steps(i)
    } else {
        Decision::Forks(i)
    }
}

// Points 4 to 10 of an instruction.
fn decide_row(
    i: Instruction,
    entries: usize,
    left: bool,
    low: &Registers,
    high: &Registers,
) -> Decision
    ensures { result ≡ row_decision entries left low.now high.now (Some i) }
{
    if let Err(end) = points(i, low, high) {
        return Decision::Ended(end);
    }
    let same = same_class(i, low, high);
    onward(i, entries, left, same)
}

// The entries left.
pub fn entries_left(limits: Limits, used: Used) -> usize
    ensures { result ≡ limits.entries - used.entries }
{
    limits.entries.saturating_sub(used.entries)
}

// Point 3, and the points after it.
fn decide_word(word: u32, entries: usize, left: bool, low: &Registers, high: &Registers) -> Decision
    ensures { result ≡ row_decision entries left low.now high.now (decode_of word) }
{
    let Some(i) = decode(word) else {
        return Decision::Ended(End::BadWord);
    };
    decide_row(i, entries, left, low, high)
}

// The ten points in their order.
pub fn decide(
    code: &[u32],
    limits: Limits,
    used: Used,
    at: At,
    low: &Registers,
    high: &Registers,
) -> Decision
    ensures { result ≡ decision code.now limits used at low.now high.now }
{
    if used.steps == limits.steps {
        return Decision::Ended(End::StepLimit);
    }
    let pc = at.pc;
    if pc % 4 != 0 || code.len() as u64 <= pc / 4 {
        return Decision::Ended(End::BadPc);
    }
    let k = (pc / 4) as usize;
    let left = at.reads < limits.inputs;
    let entries = entries_left(limits, used);
    decide_word(code[k], entries, left, low, high)
}
