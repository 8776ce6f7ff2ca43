// Runs the RISC-V project's own tests for RISC-U's instructions on the plain machine.
// Standard input has a case to a line; host/vectors.py makes them, and says what the fields are.
// Prints each line that differs, how many cases each instruction has, and the sum.
#![tactic(auto)]

use riscu::At;
use riscu::plain::{Machine, put, register, store};
use runs::running::proceed;
use std::{array, io};
use vectors::{Fields, Lines, Tally, run_table};

// How many bytes a name has, with the spaces after it.
const NAME: usize = 5;

// What a line says: the machine before, the steps to run, what must hold then, and the code.
#[derive(Drop)]
struct Case {
    a: u64,
    b: u64,
    address: u64,
    word: u64,
    steps: u64,
    register: u64,
    value: u64,
    pc: u64,
    code: [u32; 16],
}

// Past the line's end the words of the code are 0, which is no instruction.
fn case_of(line: &[u8]) -> Case {
    let mut fields = Fields::new(line.get(NAME..).unwrap_or(&[]));
    Case {
        a: fields.number(),
        b: fields.number(),
        address: fields.number(),
        word: fields.number(),
        steps: fields.number(),
        register: fields.number(),
        value: fields.number(),
        pc: fields.number(),
        code: array::from_fn(|_| fields.word()),
    }
}

fn agrees(line: &[u8]) -> bool {
    let c = case_of(line);
    let first = Machine::start();
    let mut registers = first.registers;
    let mut memory = [0u64; 512];
    put(&mut registers, 11, c.a);
    put(&mut registers, 12, c.b);
    store(&mut memory, c.address, c.word);
    let inputs = [0u64; 1];
    let steps = c.steps as usize;
    let from = At { pc: 0, reads: 0 };
    let at = proceed(&c.code, &inputs, steps, &mut registers, &mut memory, from);
    let r = c.register as usize;
    // A line with no steps tests nothing.
    0 < c.steps && register(&registers, r) == c.value && at.pc == c.pc
}

// Prints how many cases stand under a name; where the text ends before it, there is none.
fn print_count(rt: &impl Print, name: Option<&[u8]>, count: u64) -> io::Result<()> {
    let Some(name) = name else {
        return Ok(());
    };
    rt.write_all(name)?;
    println!(rt; "{count}")
}

// The lines of one name stand one after another. A name is taken from the text, so that a line shorter than it has one too.
fn run_all(rt: &impl Print, text: &[u8]) -> io::Result<()> {
    let mut tally = Tally::new();
    let mut rest = text;
    let mut name = text.get(..NAME);
    let mut before: u64 = 0;
    for line in Lines::new(text) {
        if rest.get(..NAME) != name {
            print_count(rt, name, tally.lines - before)?;
            name = rest.get(..NAME);
            before = tally.lines;
        }
        tally.add(rt, agrees(line));
        rest = rest.get(line.len() + 1..).unwrap_or(&[]);
    }
    print_count(rt, name, tally.lines - before)?;
    println!(rt; "{} cases, {} differ", tally.lines, tally.differ)
}

// A read or a write that fails ends it with that error.
fn main(rt: HostRuntime) -> io::Result<()> {
    run_table(&rt, |text| run_all(&rt, text))
}
