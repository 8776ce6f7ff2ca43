// Runs Job A and document 01's rules on trial, in its order, through the exploration, and prints each listing in its form.
// Below each path stand the inputs read and every register that is not 0 all along, as the two blocks have them.
// All calls are made on one memory and, but for the case of one entry, on one table.
#![tactic(auto)]

use blocks::layout::{
    EXIT_HIGH, EXIT_LOW, HIGHS, INPUTS, KIND, LOWS, NUMBER, PC, READS, REASON, STEPS,
};
use blocks::{BLOCK_WORDS, PATH_BYTES, WORD_BYTES};
use calls::Outcome;
use engine::explore;
use std::io;

// One path more than any of these cases has.
const REPORT: usize = 4 * PATH_BYTES;

// How many words a path's two blocks have.
const PATH_WORDS: usize = 2 * BLOCK_WORDS;

// The kinds of end that have an exit value and a reason.
const EXITS: u64 = 1;

const NOT_FOLLOWED: u64 = 8;

fn words_of(path: &[u8; PATH_BYTES]) -> [u64; PATH_WORDS] {
    let mut words = [0u64; PATH_WORDS];
    let (parts, _) = path.as_chunks::<WORD_BYTES>();
    for (word, bytes) in words.iter_mut().zip(parts) {
        *word = u64::from_le_bytes(*bytes);
    }
    words
}

fn print_inputs(rt: &impl Print, words: &[u64; PATH_WORDS]) -> io::Result<()> {
    let inputs = words[LOWS..HIGHS].iter().zip(&words[HIGHS..EXIT_LOW]);
    for (low, high) in inputs.take(words[INPUTS] as usize) {
        print!(rt; " in {low}..{high}")?;
    }
    Ok(())
}

// Register r has words 2r - 1 and 2r of the second block.
fn print_registers(rt: &impl Print, words: &[u64; PATH_WORDS]) -> io::Result<()> {
    let (registers, _) = words[BLOCK_WORDS + 1..].as_chunks::<2>();
    for (r, interval) in (1u64..32).zip(registers) {
        let [low, high] = *interval;
        if low != 0 || high != 0 {
            print!(rt; " x{r} {low}..{high}")?;
        }
    }
    Ok(())
}

// A path, in document 01's form, and below it what that leaves out.
fn print_path(rt: &impl Print, words: &[u64; PATH_WORDS]) -> io::Result<()> {
    let kind = words[KIND];
    print!(rt;
        "path {} end {kind} at {} steps {}",
        words[NUMBER], words[PC], words[STEPS]
    )?;
    print_inputs(rt, words)?;
    if kind == EXITS {
        print!(rt; " exit {}..{}", words[EXIT_LOW], words[EXIT_HIGH])?;
    }
    if kind == NOT_FOLLOWED {
        print!(rt; " reason {}", words[REASON])?;
    }
    print!(rt; "\n    read {}", words[READS])?;
    print_registers(rt, words)?;
    println!(rt)
}

fn print_listing(rt: &impl Print, o: Outcome, report: &[u8]) -> io::Result<()> {
    if o.refused != 0 {
        println!(rt; "turned away {}", o.refused)?;
    } else {
        println!(rt; "paths {} more {}", o.count, o.more)?;
    }
    let (paths, _) = report.as_chunks::<PATH_BYTES>();
    for path in paths.iter().take(o.count as usize) {
        print_path(rt, &words_of(path))?;
    }
    Ok(())
}

// A program on trial, the intervals of its inputs and the limit of its steps.
#[derive(Clone, Copy)]
struct Job {
    name: &'static str,
    code: &'static [u32],
    intervals: &'static [u64],
    limit: u64,
}

impl Job {
    fn new(
        name: &'static str,
        code: &'static [u32],
        intervals: &'static [u64],
        limit: u64,
    ) -> Self {
        Job {
            name,
            code,
            intervals,
            limit,
        }
    }
}

// A job's name and its listing.
fn try_job(rt: &impl Print, job: Job, memory: &[u64], table: &mut [u64]) -> io::Result<()> {
    let Job {
        name,
        code,
        intervals,
        limit,
    } = job;
    println!(rt; "{name}")?;
    let mut report = [0u8; REPORT];
    let a = explore(code, memory, intervals, limit, table, &mut report, 0);
    print_listing(rt, Outcome::from(a), &report)
}

// A program reads one input v into register 5, puts a value into register 10 by the words that are given and exits with it.
macro_rules! program {
    ($($word:expr),*) => {
        [
            0x03F00893u32, 0x00800613, 0x00000073, 0x00003283, // v into register 5
            $($word,)*
            0x05D00893, 0x00000073, // exit
        ]
    };
}

const JOB_A: [u32; 8] = program![0x00A00313, 0x0062B533];

const TEN_LESS: [u32; 10] = program![0x00A00313, 0x405303B3, 0x00100E13, 0x01C3B533];

const PLUS_5: [u32; 7] = program![0x00528513];

const TIMES_2: [u32; 8] = program![0x00200313, 0x02628533];

const TIMES_4: [u32; 8] = program![0x00400313, 0x02628533];

const MOD_5: [u32; 8] = program![0x00500313, 0x0262F533];

// Reads a second input into register 6.
const SUM: [u32; 10] = program![0x00000513, 0x00000073, 0x00003303, 0x00628533];

const LESS_0: [u32; 7] = program![0x0002B533];

// A loop of ten turns, each with the test.
const TEN_TIMES: [u32; 12] = program![
    0x00500313, 0x00A00393, 0x0062B533, 0xFFF38393, 0x00038463, 0xFF5FF06F
];

// A write that fails ends it with that error.
fn main(rt: HostRuntime) -> io::Result<()> {
    let memory = [0u64; 512];
    let mut table = [0u64; 8192];
    let mut entry = [0u64; 8];
    let jobs = [
        Job::new("Job A", &JOB_A, &[0, 255], 100),
        Job::new("limit 5", &JOB_A, &[0, 255], 5),
        Job::new("limit 7", &JOB_A, &[0, 255], 7),
        Job::new("10 - v < 1", &TEN_LESS, &[0, 255], 100),
        Job::new("0..MAX plus 5", &PLUS_5, &[0, u64::MAX], 100),
        Job::new("0..2^63 times 2", &TIMES_2, &[0, 1 << 63], 100),
        Job::new("0..2^63 times 4", &TIMES_4, &[0, 1 << 63], 100),
        Job::new("3..6 mod 5", &MOD_5, &[3, 6], 100),
        Job::new("3..7 mod 5", &MOD_5, &[3, 7], 100),
        Job::new("0..10 mod 5", &MOD_5, &[0, 10], 100),
        Job::new("5..5 plus 5..5", &SUM, &[5, 5, 5, 5], 100),
        Job::new("v < 0", &LESS_0, &[0, 255], 100),
    ];
    for job in jobs {
        try_job(&rt, job, &memory, &mut table)?;
    }
    let one_entry = Job::new("one entry of table", &JOB_A, &[0, 255], 100);
    try_job(&rt, one_entry, &memory, &mut entry)?;
    let ten_times = Job::new("v < 5 ten times", &TEN_TIMES, &[0, 255], 100);
    try_job(&rt, ten_times, &memory, &mut table)
}
