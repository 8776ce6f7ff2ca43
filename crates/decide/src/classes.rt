// Tests on words, and the class of a machine at an instruction.
#![tactic(auto, using(words::proofs::Signs::widen_held), unfolding(listing::specs::Group::sort_of, listing::specs::Group::comparison, listing::specs::Group::sorting_of, listing::specs::Group::class_by, listing::specs::Group::class_of))]

ghost use Rattle.std.specs.Prelude.{◌≡◌, cond, ◌+◌, ◌/◌, eqb};
ghost use Rattle.words.specs.Word.{size};
ghost use Rattle.riscu.specs.declared.Instruction.TheVariants.{Immediate, Register};
ghost use Rattle.listing.specs.declared.Operand.TheVariants.{InRegister};
ghost use Rattle.listing.specs.Group.{sort_of, comparison, branch_sorting, operand, class_by, class_of};
ghost use Rattle.listing.specs.Ending.{bad_address};
ghost use Rattle.decide.specs.Working.Corner.{machine};

use listing::{Operand, Sorting, sorting_of};
use riscu::plain::{Registers, register};
use riscu::{Condition, Instruction, Operation};
use std::cmp::Ordering;
use words::widen;

pub(crate) fn bad_address(a: u64) -> bool
    ensures { result ≡ bad_address a }
{
    a % 8 != 0 || 4088 < a
}

// The carry of a sum.
fn carry(a: u64, b: u64) -> u64
    ensures { result ≡ (a + b) / size }
{
    u64::from(u64::MAX - b < a)
}

fn sort_of(op: Operation, a: u64, b: u64) -> u64
    ensures { result ≡ sort_of op a b }
{
    match op {
        Operation::Add => carry(a, b),
        Operation::Sub | Operation::Sltu => u64::from(a < b),
        Operation::Mul => words::product(a, b).high,
        Operation::Divu => 0,
        Operation::Remu => words::quotient(a, b),
    }
}

// Less, equal, greater.
fn comparison(a: u64, b: u64) -> u64
    ensures { result ≡ comparison a b }
{
    match a.cmp(&b) {
        Ordering::Less => 0,
        Ordering::Equal => 1,
        Ordering::Greater => 2,
    }
}

// The class of an operation into a register.
fn sorted(op: Operation, rd: usize, a: u64, b: u64) -> u64
    ensures { result ≡ cond (eqb rd 0) 0 (sort_of op a b) }
{
    if rd == 0 { 0 } else { sort_of(op, a, b) }
}

// The class at each instruction that sorts.
pub fn immediate_class(registers: &Registers, op: Operation, rd: usize, rs1: usize, imm: i64) -> u64
    ensures { result ≡ class_of (Immediate op rd rs1 imm) (machine registers.now) }
{
    sorted(op, rd, register(registers, rs1), widen(imm))
}

pub fn operation_class(
    registers: &Registers,
    op: Operation,
    rd: usize,
    rs1: usize,
    rs2: usize,
) -> u64
    ensures { result ≡ class_of (Register op rd rs1 rs2) (machine registers.now) }
{
    sorted(op, rd, register(registers, rs1), register(registers, rs2))
}

pub fn branch_class(registers: &Registers, on: Condition, rs1: usize, rs2: usize) -> u64
    ensures { result ≡ class_by (branch_sorting on (InRegister rs1) (InRegister rs2)) registers.now }
{
    let a = register(registers, rs1);
    let b = register(registers, rs2);
    match on {
        Condition::Equal => comparison(a, b),
    }
}

// What an operation sorts two operands by.
pub(crate) fn operands_sort(
    op: Operation,
    first: Operand,
    second: Operand,
    registers: &Registers,
) -> u64
    ensures { result ≡ sort_of op (operand first registers.now) (operand second registers.now) }
{
    sort_of(op, first.value(registers), second.value(registers))
}

fn class_by(s: Sorting, registers: &Registers) -> u64
    ensures { result ≡ class_by s registers.now }
{
    match s {
        Sorting::Operates { op, first, second } => operands_sort(op, first, second, registers),
        Sorting::Compares { first, second } => {
            comparison(first.value(registers), second.value(registers))
        }
        Sorting::Nothing => 0,
    }
}

// The class of a machine at an instruction.
pub fn class_of(i: Instruction, registers: &Registers) -> u64
    ensures { result ≡ class_of i (machine registers.now) }
{
    class_by(sorting_of(i), registers)
}
