// The straight step of each row that most steps are. A row that a call or a computed jump is, is left.
// Rows of one shape stay apart, as in `riscu::plain`: each promises the step of its own instruction.
ghost use Rattle.std.specs.Prelude.{ℕ, Some};
ghost use Rattle.riscu.specs.declared.Instruction.TheVariants.{Lui, Immediate, Register, Ld, Sd, Branch, Jal};
ghost use Rattle.riscu.specs.Decode.{decode_of};
ghost use Rattle.riscu.specs.Working.Table.{form_of};
ghost use Rattle.straight.specs.Working.Stepped.{Stepped, FormStepped, Room};

use crate::Taken;
use decide::classes::{branch_class, immediate_class, operation_class};
use decide::group::one_unless_zero;
use decide::order::{access_points, immediate_points, open_points, register_points};
use lockstep::{Corners, Machines};
use riscu::decoder::{Row, imm_b, imm_i, imm_j, imm_s, imm_u, row_of};
use riscu::plain::{arithmetic, branch, immediate, jal, ld, lui, put, sd};
use riscu::{Condition, Operation};

// The entries that a write of rd takes, where so many are left.
fn room(entries: usize, rd: usize) -> Option<usize>
    ensures { Room entries rd result }
{
    let writes = one_unless_zero(rd);
    if entries < writes { None } else { Some(writes) }
}

fn straight_lui(m: &mut Machines, entries: usize, rd: usize, imm: i64, at: Corners) -> Option<Taken>
    ensures { Stepped entries (Lui rd imm) at m.old m.new result }
{
    let writes = room(entries, rd)?;
    put(&mut m.tags, rd, 0);
    let low = lui(&mut m.low, rd, imm, at.low);
    let high = lui(&mut m.high, rd, imm, at.high);
    let at = Corners { low, high };
    Some(Taken { at, writes })
}

fn straight_immediate(
    m: &mut Machines,
    entries: usize,
    op: Operation,
    rd: usize,
    rs1: usize,
    imm: i64,
    at: Corners,
) -> Option<Taken>
    ensures { Stepped entries (Immediate op rd rs1 imm) at m.old m.new result }
{
    let v = immediate_points(op, rd, &m.low, &m.high, rs1, imm);
    let Ok(()) = v else {
        return None;
    };
    let a = immediate_class(&m.low, op, rd, rs1, imm);
    let b = immediate_class(&m.high, op, rd, rs1, imm);
    if a != b {
        return None;
    }
    let writes = room(entries, rd)?;
    m.mark_copied(rd, rs1);
    let low = immediate(&mut m.low, op, rd, rs1, imm, at.low);
    let high = immediate(&mut m.high, op, rd, rs1, imm, at.high);
    let at = Corners { low, high };
    Some(Taken { at, writes })
}

fn straight_operation(
    m: &mut Machines,
    entries: usize,
    op: Operation,
    rd: usize,
    rs1: usize,
    rs2: usize,
    at: Corners,
) -> Option<Taken>
    ensures { Stepped entries (Register op rd rs1 rs2) at m.old m.new result }
{
    let v = register_points(op, rd, &m.low, &m.high, rs1, rs2);
    let Ok(()) = v else {
        return None;
    };
    let a = operation_class(&m.low, op, rd, rs1, rs2);
    let b = operation_class(&m.high, op, rd, rs1, rs2);
    if a != b {
        return None;
    }
    let writes = room(entries, rd)?;
    m.mark_result(rd, rs1, rs2);
    let low = arithmetic(&mut m.low, op, rd, rs1, rs2, at.low);
    let high = arithmetic(&mut m.high, op, rd, rs1, rs2, at.high);
    let at = Corners { low, high };
    Some(Taken { at, writes })
}

fn straight_load(
    m: &mut Machines,
    entries: usize,
    rd: usize,
    rs1: usize,
    imm: i64,
    at: Corners,
) -> Option<Taken>
    ensures { Stepped entries (Ld rd rs1 imm) at m.old m.new result }
{
    let v = access_points(&m.low, &m.high, rs1, imm);
    let Ok(()) = v else {
        return None;
    };
    let writes = room(entries, rd)?;
    m.mark_loaded(rd, rs1, imm);
    let low = ld(&mut m.low, &m.lowmem, rd, rs1, imm, at.low);
    let high = ld(&mut m.high, &m.highmem, rd, rs1, imm, at.high);
    let at = Corners { low, high };
    Some(Taken { at, writes })
}

fn straight_store(
    m: &mut Machines,
    entries: usize,
    rs1: usize,
    rs2: usize,
    imm: i64,
    at: Corners,
) -> Option<Taken>
    ensures { Stepped entries (Sd rs1 rs2 imm) at m.old m.new result }
{
    let v = access_points(&m.low, &m.high, rs1, imm);
    let Ok(()) = v else {
        return None;
    };
    if entries < 1 {
        return None;
    }
    m.mark_stored(rs1, rs2, imm);
    let low = sd(&m.low, &mut m.lowmem, rs1, rs2, imm, at.low);
    let high = sd(&m.high, &mut m.highmem, rs1, rs2, imm, at.high);
    let at = Corners { low, high };
    Some(Taken { at, writes: 1 })
}

// It writes nothing.
fn straight_branch(
    m: &Machines,
    on: Condition,
    rs1: usize,
    rs2: usize,
    imm: i64,
    at: Corners,
) -> Option<Taken>
    ensures { (entries : ℕ) → Stepped entries (Branch on rs1 rs2 imm) at m.now m.now result }
{
    let v = open_points(&m.low, &m.high, rs1, rs2);
    let Ok(()) = v else {
        return None;
    };
    let a = branch_class(&m.low, on, rs1, rs2);
    let b = branch_class(&m.high, on, rs1, rs2);
    if a != b {
        return None;
    }
    let low = branch(&m.low, on, rs1, rs2, imm, at.low);
    let high = branch(&m.high, on, rs1, rs2, imm, at.high);
    let at = Corners { low, high };
    Some(Taken { at, writes: 0 })
}

fn straight_jump(
    m: &mut Machines,
    entries: usize,
    rd: usize,
    imm: i64,
    at: Corners,
) -> Option<Taken>
    ensures { Stepped entries (Jal rd imm) at m.old m.new result }
{
    let writes = room(entries, rd)?;
    put(&mut m.tags, rd, 0);
    let low = jal(&mut m.low, rd, imm, at.low);
    let high = jal(&mut m.high, rd, imm, at.high);
    let at = Corners { low, high };
    Some(Taken { at, writes })
}

// The straight step of a word of that row; a call and a computed jump are left.
fn straight_row(m: &mut Machines, row: Row, w: usize, entries: usize, at: Corners) -> Option<Taken>
    ensures { FormStepped entries (form_of (Some row) w) at m.old m.new result }
{
    let rd = w / 128 % 32;
    let rs1 = w / 32768 % 32;
    let rs2 = w / 1048576 % 32;
    // a match: each arm takes other operands, and a table of closures would hand all of them to each
    match row {
        Row::Lui => straight_lui(m, entries, rd, imm_u(w), at),
        Row::Addi => straight_immediate(m, entries, Operation::Add, rd, rs1, imm_i(w), at),
        Row::Add => straight_operation(m, entries, Operation::Add, rd, rs1, rs2, at),
        Row::Sub => straight_operation(m, entries, Operation::Sub, rd, rs1, rs2, at),
        Row::Mul => straight_operation(m, entries, Operation::Mul, rd, rs1, rs2, at),
        Row::Divu => straight_operation(m, entries, Operation::Divu, rd, rs1, rs2, at),
        Row::Remu => straight_operation(m, entries, Operation::Remu, rd, rs1, rs2, at),
        Row::Sltu => straight_operation(m, entries, Operation::Sltu, rd, rs1, rs2, at),
        Row::Ld => straight_load(m, entries, rd, rs1, imm_i(w), at),
        Row::Sd => straight_store(m, entries, rs1, rs2, imm_s(w), at),
        Row::Beq => straight_branch(m, Condition::Equal, rs1, rs2, imm_b(w), at),
        Row::Jal => straight_jump(m, entries, rd, imm_j(w), at),
        Row::Jalr | Row::Ecall => None,
    }
}

// The straight step of a word.
pub(crate) fn straight_word(
    m: &mut Machines,
    word: u32,
    entries: usize,
    at: Corners,
) -> Option<Taken>
    ensures { FormStepped entries (decode_of word) at m.old m.new result }
{
    let w = word as usize;
    match row_of(w) {
        Some(row) => straight_row(m, row, w, entries, at),
        None => None,
    }
}
