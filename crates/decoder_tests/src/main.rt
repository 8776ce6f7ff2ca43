// Decodes words that the RISC-V assembler made, and compares each with the operands it was made of.
// Standard input has a word to a line; host/vectors.py makes them, and says what the fields are.
// Prints each line that differs, and how many words there are.
#![tactic(auto)]

use riscu::decoder::decode;
use riscu::{Condition, Instruction, Operation};
use std::io;
use vectors::{Fields, Lines, Tally, run_table};
use words::widen;

// The row of document 01's table, from 0, or 14 for none; a field that the row lacks is 0.
#[derive(PartialEq, Eq, Drop)]
struct Parts {
    row: u64,
    rd: u64,
    rs1: u64,
    rs2: u64,
    imm: u64,
}

fn operation_row(op: Operation) -> u64 {
    match op {
        Operation::Add => 2,
        Operation::Sub => 3,
        Operation::Mul => 4,
        Operation::Divu => 5,
        Operation::Remu => 6,
        Operation::Sltu => 7,
    }
}

// The table has ADDI alone of the operations with an immediate, and BEQ alone of the branches.
fn immediate_row(op: Operation) -> u64 {
    match op {
        Operation::Add => 1,
        _ => 14,
    }
}

fn branch_row(on: Condition) -> u64 {
    match on {
        Condition::Equal => 10,
    }
}

fn parts_of(row: u64, rd: usize, rs1: usize, rs2: usize, imm: i64) -> Parts {
    Parts {
        row,
        rd: rd as u64,
        rs1: rs1 as u64,
        rs2: rs2 as u64,
        imm: widen(imm),
    }
}

fn instruction_parts(i: Instruction) -> Parts {
    match i {
        Instruction::Lui { rd, imm } => parts_of(0, rd, 0, 0, imm),
        Instruction::Immediate { op, rd, rs1, imm } => parts_of(immediate_row(op), rd, rs1, 0, imm),
        Instruction::Register { op, rd, rs1, rs2 } => parts_of(operation_row(op), rd, rs1, rs2, 0),
        Instruction::Ld { rd, rs1, imm } => parts_of(8, rd, rs1, 0, imm),
        Instruction::Sd { rs1, rs2, imm } => parts_of(9, 0, rs1, rs2, imm),
        Instruction::Branch { on, rs1, rs2, imm } => parts_of(branch_row(on), 0, rs1, rs2, imm),
        Instruction::Jal { rd, imm } => parts_of(11, rd, 0, 0, imm),
        Instruction::Jalr { rd, rs1, imm } => parts_of(12, rd, rs1, 0, imm),
        Instruction::Ecall => parts_of(13, 0, 0, 0, 0),
    }
}

fn decoded_parts(word: u32) -> Parts {
    let Some(i) = decode(word) else {
        return parts_of(14, 0, 0, 0, 0);
    };
    instruction_parts(i)
}

fn agrees(line: &[u8]) -> bool {
    let mut fields = Fields::new(line);
    let word = fields.word();
    let wanted = Parts {
        row: fields.number(),
        rd: fields.number(),
        rs1: fields.number(),
        rs2: fields.number(),
        imm: fields.number(),
    };
    decoded_parts(word) == wanted
}

fn run_all(rt: &impl Print, text: &[u8]) -> io::Result<()> {
    let mut tally = Tally::new();
    for line in Lines::new(text) {
        tally.add(rt, agrees(line));
    }
    println!(rt; "{} words, {} differ", tally.lines, tally.differ)
}

// A read or a write that fails ends it with that error.
fn main(rt: HostRuntime) -> io::Result<()> {
    run_table(&rt, |text| run_all(&rt, text))
}
