// The ending order at the two corners: points 4 to 9, from the registers at the lowest inputs and at the highest.
#![tactic(auto, using(words::proofs::Signs::widen_held, crate::proofs::Verdicts::ends_first), unfolding(listing::specs::Group::sorting_of, listing::specs::Ending::operation_points, listing::specs::Ending::operand_points, listing::specs::Ending::address_points, listing::specs::Ending::points, crate::specs::Working::Corner::verdict))]

ghost use Rattle.std.specs.Prelude.{◌≡◌, ◌∷◌, [], cond, eqb};
ghost use Rattle.riscu.specs.declared.Instruction.TheVariants.{Immediate, Register, Ld, Ecall};
ghost use Rattle.listing.specs.declared.Operand.TheVariants.{InRegister};
ghost use Rattle.listing.specs.declared.Sorting.TheVariants.{Operates, Compares, Nothing};
ghost use Rattle.listing.specs.Ending.{◌⇒◌, open_at, value_at, bad_access, call_open, bad_call, bad_read, same_register, operand_open};
ghost use Rattle.listing.specs.Ending.{both_open, two_open, far_apart, operation_points, operand_points, address_points, points};
ghost use Rattle.decide.specs.Working.Corner.{corner_view, seen, verdict};

use crate::classes::{bad_address, operands_sort};
use listing::{End, Operand, Reason, Sorting, sorting_of};
use riscu::plain::{Registers, offset, register};
use riscu::{Instruction, Operation};
use words::widen;

// The registers at the two corners.
#[derive(Clone, Copy)]
struct Corners<'a> {
    low: &'a Registers,
    high: &'a Registers,
}

// A point of the order: where it applies it ends the path.
fn point(applies: bool, end: End) -> Result<(), End>
    ensures { result ≡ verdict ((applies ⇒ end) ∷ []) }
{
    if applies { Err(end) } else { Ok(()) }
}

// One register twice.
fn same_register(a: Operand, b: Operand) -> bool
    ensures { result ≡ same_register a b }
{
    matches!(a, Operand::InRegister(_)) && a == b
}

impl Corners<'_> {
    // Whether a register differs at the corners.
    fn is_open(self, r: usize) -> bool
        ensures { result ≡ open_at (seen self.entry) r }
    {
        register(self.low, r) != register(self.high, r)
    }

    // The least that a register has.
    fn least(self, r: usize) -> u64
        ensures { result ≡ value_at (seen self.entry) r }
    {
        register(self.low, r).min(register(self.high, r))
    }

    fn bad_access(self, r: usize, imm: i64) -> bool
        ensures { result ≡ bad_access (seen self.entry) r imm }
    {
        bad_address(offset(self.low, r, imm).min(offset(self.high, r, imm)))
    }

    fn call_open(self, read: bool) -> bool
        ensures { result ≡ call_open (seen self.entry) read }
    {
        self.is_open(17) || read && (self.is_open(10) || self.is_open(11) || self.is_open(12))
    }

    fn bad_call(self, read: bool, exit: bool) -> bool
        ensures { result ≡ bad_call (seen self.entry) read exit }
    {
        !(read || exit) || read && !(self.least(10) == 0 && self.least(12) == 8)
    }

    fn bad_read(self, read: bool) -> bool
        ensures { result ≡ bad_read (seen self.entry) read }
    {
        read && bad_address(self.least(11))
    }

    fn operand_open(self, o: Operand) -> bool
        ensures { result ≡ operand_open (seen self.entry) o }
    {
        match o {
            Operand::InRegister(r) => self.is_open(r),
            Operand::Constant(_) => false,
        }
    }

    fn both_open(self, a: Operand, b: Operand) -> bool
        ensures { result ≡ both_open (seen self.entry) a b }
    {
        self.operand_open(b) && self.operand_open(a)
    }

    // Both operands are open, and they are not one register twice.
    fn two_open(self, a: Operand, b: Operand) -> bool
        ensures { result ≡ two_open (seen self.entry) a b }
    {
        self.both_open(a, b) && !same_register(a, b)
    }

    // The quotients at the corners are more than 1 apart.
    fn far_apart(self, op: Operation, a: Operand, b: Operand) -> bool
        ensures { result ≡ far_apart (seen self.entry) op a b }
    {
        let x = operands_sort(op, a, b, self.low);
        let y = operands_sort(op, a, b, self.high);
        1 < x.abs_diff(y)
    }

    // Points 4 and 6 of LD and SD.
    fn access_points(self, r: usize, imm: i64) -> Result<(), End>
        ensures { result ≡ verdict (points (seen self.entry) (Ld 0 r imm)) }
    {
        point(self.is_open(r), End::NotFollowed(Reason::BaseOpen))?;
        point(self.bad_access(r, imm), End::BadAddress)
    }

    // Points 4, 5, 6 and 9 of ECALL.
    fn call_points(self) -> Result<(), End>
        ensures { result ≡ verdict (address_points (seen self.entry) Ecall) }
    {
        let number = self.least(17);
        let read = number == 63;
        let exit = number == 93;
        point(self.call_open(read), End::NotFollowed(Reason::CallOpen))?;
        point(self.bad_call(read, exit), End::BadCall)?;
        point(self.bad_read(read), End::BadAddress)?;
        point(exit, End::Exit)
    }

    // Points 4 to 6, and 9.
    fn address_points(self, i: Instruction) -> Result<(), End>
        ensures { result ≡ verdict (address_points (seen self.entry) i) }
    {
        match i {
            Instruction::Ld { rs1, imm, .. } => self.access_points(rs1, imm),
            Instruction::Sd { rs1, imm, .. } => self.access_points(rs1, imm),
            Instruction::Jalr { rs1, .. } => {
                point(self.is_open(rs1), End::NotFollowed(Reason::BaseOpen))
            }
            Instruction::Ecall => self.call_points(),
            _ => Ok(()),
        }
    }

    // SUB, SLTU and BEQ: one open register twice is followed.
    fn compared_points(self, a: Operand, b: Operand) -> Result<(), End>
        ensures { result ≡ verdict (operand_points (seen self.entry) (Compares a b)) }
    {
        point(self.two_open(a, b), End::NotFollowed(Reason::BothOpen))
    }

    // Points 7 and 8 of an operation on two operands; of ADD and MUL one open register twice is not followed.
    fn operation_points(self, op: Operation, a: Operand, b: Operand) -> Result<(), End>
        ensures { result ≡ verdict (operation_points (seen self.entry) op a b) }
    {
        match op {
            Operation::Add => point(self.both_open(a, b), End::NotFollowed(Reason::BothOpen)),
            Operation::Sub | Operation::Sltu => self.compared_points(a, b),
            Operation::Mul => {
                point(self.both_open(a, b), End::NotFollowed(Reason::BothOpen))?;
                point(
                    self.far_apart(op, a, b),
                    End::NotFollowed(Reason::Quotients),
                )
            }
            Operation::Divu => point(self.operand_open(b), End::NotFollowed(Reason::DivisorOpen)),
            Operation::Remu => {
                point(self.operand_open(b), End::NotFollowed(Reason::DivisorOpen))?;
                point(
                    self.far_apart(op, a, b),
                    End::NotFollowed(Reason::Quotients),
                )
            }
        }
    }

    fn operand_points(self, s: Sorting) -> Result<(), End>
        ensures { result ≡ verdict (operand_points (seen self.entry) s) }
    {
        match s {
            Sorting::Operates { op, first, second } => self.operation_points(op, first, second),
            Sorting::Compares { first, second } => self.compared_points(first, second),
            Sorting::Nothing => Ok(()),
        }
    }

    // An operation into a register; into register 0 nothing is computed.
    fn result_points(self, op: Operation, rd: usize, a: Operand, b: Operand) -> Result<(), End>
        ensures { let s = cond (eqb rd 0) Nothing (Operates op a b) in
            result ≡ verdict (operand_points (seen self.entry) s) }
    {
        if rd == 0 {
            Ok(())
        } else {
            self.operation_points(op, a, b)
        }
    }
}

// The points of a load or store, of an operation with an immediate, of one on two registers, and of a branch.
pub fn access_points(low: &Registers, high: &Registers, r: usize, imm: i64) -> Result<(), End>
    ensures { result ≡ verdict (points (corner_view low.now high.now) (Ld 0 r imm)) }
{
    Corners { low, high }.access_points(r, imm)
}

pub fn immediate_points(
    op: Operation,
    rd: usize,
    low: &Registers,
    high: &Registers,
    a: usize,
    imm: i64,
) -> Result<(), End>
    ensures { result ≡ verdict (points (corner_view low.now high.now) (Immediate op rd a imm)) }
{
    let n = widen(imm);
    Corners { low, high }.result_points(op, rd, Operand::InRegister(a), Operand::Constant(n))
}

pub fn register_points(
    op: Operation,
    rd: usize,
    low: &Registers,
    high: &Registers,
    a: usize,
    b: usize,
) -> Result<(), End>
    ensures { result ≡ verdict (points (corner_view low.now high.now) (Register op rd a b)) }
{
    let (a, b) = (Operand::InRegister(a), Operand::InRegister(b));
    Corners { low, high }.result_points(op, rd, a, b)
}

pub fn open_points(low: &Registers, high: &Registers, a: usize, b: usize) -> Result<(), End>
    ensures { result ≡ verdict (operand_points (corner_view low.now high.now) (Compares (InRegister a) (InRegister b))) }
{
    Corners { low, high }.compared_points(Operand::InRegister(a), Operand::InRegister(b))
}

// Points 4 to 9.
pub(crate) fn points(i: Instruction, low: &Registers, high: &Registers) -> Result<(), End>
    ensures { result ≡ verdict (points (corner_view low.now high.now) i) }
{
    let corners = Corners { low, high };
    corners.address_points(i)?;
    corners.operand_points(sorting_of(i))
}
