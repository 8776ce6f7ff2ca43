// RISC-U: the fourteen instructions of document 01's table, and the machine that runs them.
// A word is decoded by the table's rows; the plain machine takes one step on one choice of inputs.
// A contract is an equation with a definition of specs/, where the papers leave nothing free.
#![tactic(auto)]

pub mod decoder;
pub mod plain;

// The six operations, on two registers or on a register and an immediate: ADDI is Add with an immediate.
#[derive(Clone, Copy)]
pub enum Operation {
    Add,
    Sub,
    Mul,
    Divu,
    Remu,
    Sltu,
}

// What a branch asks of its two registers.
#[derive(Clone, Copy)]
pub enum Condition {
    Equal,
}

// An instruction by its format, with its operation, its registers and its immediate.
#[derive(Clone, Copy)]
pub enum Instruction {
    Lui {
        rd: usize,
        imm: i64,
    },
    Immediate {
        op: Operation,
        rd: usize,
        rs1: usize,
        imm: i64,
    },
    Register {
        op: Operation,
        rd: usize,
        rs1: usize,
        rs2: usize,
    },
    Ld {
        rd: usize,
        rs1: usize,
        imm: i64,
    },
    Sd {
        rs1: usize,
        rs2: usize,
        imm: i64,
    },
    Branch {
        on: Condition,
        rs1: usize,
        rs2: usize,
        imm: i64,
    },
    Jal {
        rd: usize,
        imm: i64,
    },
    Jalr {
        rd: usize,
        rs1: usize,
        imm: i64,
    },
    Ecall,
}

// Where a machine is: its pc, and how many inputs it has read.
#[derive(Clone, Copy)]
pub struct At {
    pub pc: u64,
    pub reads: usize,
}
