// The plain listing of document 01: groups, fork rules, the ending order, moves, and one choice followed through the forks.
// What a reader must believe stands in specs/; the crates `corners` and `paths` have its laws.
// The code is what an instruction sorts by, and how a path ends: an enum of document 01's kinds, where kind 8 carries its reason, and
// their numbers.
#![tactic(auto)]

ghost use Rattle.std.specs.Prelude.{◌≡◌, cond, eqb};
ghost use Rattle.listing.specs.declared.Sorting.TheVariants.{Operates, Nothing};
ghost use Rattle.listing.specs.Group.{operand, branch_sorting, sorting_of};
ghost use Rattle.listing.specs.Numbers.{kind_number, reason_word};

use riscu::plain::{Registers, register};
use riscu::{Condition, Instruction, Operation};
use words::widen;

// What an instruction works on: a register, or a number of its own.
#[derive(Clone, Copy, PartialEq, Eq)]
pub enum Operand {
    InRegister(usize),
    Constant(u64),
}

// What an instruction sorts the choices by: an operation on two operands, a comparison of two, or nothing.
#[derive(Clone, Copy)]
pub enum Sorting {
    Operates {
        op: Operation,
        first: Operand,
        second: Operand,
    },
    Compares {
        first: Operand,
        second: Operand,
    },
    Nothing,
}

// Why a path is not followed, by document 01's numbers.
#[derive(Clone, Copy, PartialEq, Eq)]
pub enum Reason {
    BothOpen = 1,
    DivisorOpen = 4,
    Quotients = 5,
    BaseOpen = 6,
    CallOpen = 7,
}

#[derive(Clone, Copy, PartialEq, Eq)]
pub enum End {
    Exit,
    BadPc,
    BadWord,
    BadAddress,
    BadCall,
    StepLimit,
    NotFollowed(Reason),
    TraceFull,
}

impl Operand {
    // The value in a machine's registers.
    pub fn value(self, registers: &Registers) -> u64
        ensures { result ≡ operand self registers.now }
    {
        match self {
            Operand::InRegister(r) => register(registers, r),
            Operand::Constant(n) => n,
        }
    }
}

impl End {
    // The number of the kind.
    pub fn kind_number(self) -> u64
        ensures { result ≡ kind_number self }
    {
        match self {
            End::Exit => 1,
            End::BadPc => 3,
            End::BadWord => 4,
            End::BadAddress => 5,
            End::BadCall => 6,
            End::StepLimit => 7,
            End::NotFollowed(_) => 8,
            End::TraceFull => 9,
        }
    }

    // The reason's word in a record: 0 unless kind 8.
    pub fn reason_word(self) -> u64
        ensures { result ≡ reason_word self }
    {
        match self {
            End::NotFollowed(reason) => reason as u64,
            _ => 0,
        }
    }
}

// An operation into a register; into register 0 nothing is computed.
fn operates(rd: usize, op: Operation, first: Operand, second: Operand) -> Sorting
    ensures { result ≡ cond (eqb rd 0) Nothing (Operates op first second) }
{
    if rd == 0 {
        Sorting::Nothing
    } else {
        Sorting::Operates { op, first, second }
    }
}

fn branch_sorting(on: Condition, first: Operand, second: Operand) -> Sorting
    ensures { result ≡ branch_sorting on first second }
{
    match on {
        Condition::Equal => Sorting::Compares { first, second },
    }
}

// What an instruction sorts by.
#[tactic(auto, using(words::proofs::Signs::widen_held), unfolding(crate::specs::Group::sorting_of))]
pub fn sorting_of(i: Instruction) -> Sorting
    ensures { result ≡ sorting_of i }
{
    match i {
        Instruction::Immediate { op, rd, rs1, imm } => {
            let n = widen(imm);
            operates(rd, op, Operand::InRegister(rs1), Operand::Constant(n))
        }
        Instruction::Register { op, rd, rs1, rs2 } => {
            operates(rd, op, Operand::InRegister(rs1), Operand::InRegister(rs2))
        }
        Instruction::Branch { on, rs1, rs2, .. } => {
            branch_sorting(on, Operand::InRegister(rs1), Operand::InRegister(rs2))
        }
        _ => Sorting::Nothing,
    }
}
