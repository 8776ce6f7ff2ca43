// One step of the plain machine, by the row of its word.
ghost use Rattle.std.specs.Prelude.{◌≡◌, Some};
ghost use Rattle.riscu.specs.Decode.{decode_of};
ghost use Rattle.riscu.specs.Working.Table.{form_of};
ghost use Rattle.riscu.specs.Machine.{step_decoded};
ghost use Rattle.riscu.specs.Working.Parts.{state};

use riscu::decoder::{Row, imm_b, imm_i, imm_j, imm_s, imm_u, row_of};
use riscu::plain::{
    Memory, Registers, arithmetic, branch, ecall, immediate, jal, jalr, ld, lui, sd,
};
use riscu::{At, Condition, Operation};

// The step of a word of that row; a word that is no instruction moves nothing.
fn step_row(
    row: Row,
    w: usize,
    registers: &mut Registers,
    memory: &mut Memory,
    inputs: &[u64],
    at: At,
) -> At
    ensures { state result registers.new memory.new ≡ step_decoded inputs.now (form_of (Some row) w) (state at registers.old memory.old) }
{
    let rd = w / 128 % 32;
    let rs1 = w / 32768 % 32;
    let rs2 = w / 1048576 % 32;
    // a match: each arm takes other operands, and a table of closures would hand all of them to each
    match row {
        Row::Lui => lui(registers, rd, imm_u(w), at),
        Row::Addi => immediate(registers, Operation::Add, rd, rs1, imm_i(w), at),
        Row::Add => arithmetic(registers, Operation::Add, rd, rs1, rs2, at),
        Row::Sub => arithmetic(registers, Operation::Sub, rd, rs1, rs2, at),
        Row::Mul => arithmetic(registers, Operation::Mul, rd, rs1, rs2, at),
        Row::Divu => arithmetic(registers, Operation::Divu, rd, rs1, rs2, at),
        Row::Remu => arithmetic(registers, Operation::Remu, rd, rs1, rs2, at),
        Row::Sltu => arithmetic(registers, Operation::Sltu, rd, rs1, rs2, at),
        Row::Ld => ld(registers, memory, rd, rs1, imm_i(w), at),
        Row::Sd => sd(registers, memory, rs1, rs2, imm_s(w), at),
        Row::Beq => branch(registers, Condition::Equal, rs1, rs2, imm_b(w), at),
        Row::Jal => jal(registers, rd, imm_j(w), at),
        Row::Jalr => jalr(registers, rd, rs1, imm_i(w), at),
        Row::Ecall => {
            if w == 115 {
                ecall(registers, memory, inputs, at)
            } else {
                at
            }
        }
    }
}

// The step of a word.
pub(crate) fn step_word(
    word: u32,
    registers: &mut Registers,
    memory: &mut Memory,
    inputs: &[u64],
    at: At,
) -> At
    ensures { state result registers.new memory.new ≡ step_decoded inputs.now (decode_of word) (state at registers.old memory.old) }
{
    let w = word as usize;
    match row_of(w) {
        Some(row) => step_row(row, w, registers, memory, inputs, at),
        None => at,
    }
}
