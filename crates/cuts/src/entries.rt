// The table of forks, an entry each, the latest fork last. C lends it as words, eight an entry; how many forks it holds stands beside it.
ghost use Rattle.std.specs.Prelude.{◌≡◌, length, replicate};
ghost use Rattle.forks.specs.Working.Stack.{with_rest, spend};
ghost use Rattle.forks.specs.Working.Table.{fork_in, HasEntry, OnTop};
ghost use Rattle.cuts.specs.Working.Entries.{fork_held};

use calls::questions::ENTRY_WORDS;

// Where the words of an entry stand, the input first.
const LOW: usize = 1;

const HIGH: usize = 2;

const REST: usize = 3;

const STEPS: usize = 4;

const USED: usize = 5;

const SPENT: usize = 6;

// A fork as the table holds it. Of a spent one the rest stays in the table, and so in the definitions: it is no Option.
#[derive(Clone, Copy)]
pub struct Entry {
    pub input: usize,
    pub low: u64,
    pub high: u64,
    pub rest: u64,
    pub steps: usize,
    pub used: usize,
    pub spent: bool,
}

// One more fork on n.
pub fn push(table: &mut [u64], n: usize, fork: Entry)
    requires { HasEntry table.old n }
    ensures { OnTop (fork_held fork) table.old n table.new }
{
    let k = ENTRY_WORDS * n;
    table[k] = fork.input as u64;
    table[k + LOW] = fork.low;
    table[k + HIGH] = fork.high;
    table[k + REST] = fork.rest;
    table[k + STEPS] = fork.steps as u64;
    table[k + USED] = fork.used as u64;
    table[k + SPENT] = u64::from(fork.spent);
}

// The entry of fork n.
pub fn top(table: &[u64], n: usize) -> Entry
    requires { HasEntry table.now n }
    ensures { fork_held result ≡ fork_in table.now n }
{
    let k = ENTRY_WORDS * n;
    Entry {
        input: table[k] as usize,
        low: table[k + LOW],
        high: table[k + HIGH],
        rest: table[k + REST],
        steps: table[k + STEPS] as usize,
        used: table[k + USED] as usize,
        spent: table[k + SPENT] != 0,
    }
}

// Another rest of the latest fork.
pub fn shorten(table: &mut [u64], n: usize, rest: u64)
    requires { HasEntry table.old n }
    ensures { OnTop (with_rest (fork_in table.old n) rest) table.old n table.new }
{
    table[ENTRY_WORDS * n + REST] = rest;
}

// Nothing left of the latest fork.
pub fn spend(table: &mut [u64], n: usize)
    requires { HasEntry table.old n }
    ensures { OnTop (spend (fork_in table.old n)) table.old n table.new }
{
    table[ENTRY_WORDS * n + SPENT] = 1;
}

// The whole table is zero.
pub fn clear(table: &mut [u64])
    ensures { table.new ≡ replicate (length table.old) 0 }
{
    table.fill(0);
}
