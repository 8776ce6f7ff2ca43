// Where a class changes along one input: probes, and the search for the edge.
ghost use Rattle.std.specs.Prelude.{◌≡◌, IfSome, ◌+◌, ◌<◌, ◌≤◌, ◌-◌, ◌*◌, length};
ghost use Rattle.riscu.specs.Working.Parts.{state};
ghost use Rattle.cuts.specs.Working.Cutting.{reached_by, probed_by, Starts, Turning};

use crate::Probing;
use crate::hints::Guesses;
use decide::classes::class_of;
use riscu::At;
use riscu::plain::{Memory, Registers};
use runs::running::run;

// What the search found: the edge, and where the machine at it is if the last probe was there.
#[derive(Clone, Copy)]
pub struct Found {
    pub edge: u64,
    pub at: Option<At>,
}

// A point, if it stands strictly between a and b, and otherwise the value so far from the end that it is beyond; of a short interval
// the middle.
fn toward(a: u64, b: u64, point: u64, away: u64) -> u64
    requires { (a + 1 < b) × (0 < away) }
    ensures free { (a < result) × (result < b) }
{
    if b - a <= away {
        return a + (b - a) / 2;
    }
    if point <= a {
        return a + away;
    }
    if b <= point { b - away } else { point }
}

// How far a turn goes from what was tried before.
fn away(turn: usize) -> u64
    ensures free { 0 < result }
{
    match turn {
        0..=2 => 8,
        3 | 4 => 64,
        5 => 512,
        _ => 4096,
    }
}

// A point strictly between a and b: the two guesses and their neighbours, then points further and further away, later the middle.
fn guess(a: u64, b: u64, guesses: Guesses, turn: usize) -> u64
    requires { a + 1 < b }
    ensures { (a < result) × (result < b) × (7 ≤ turn → (2 * (result - a) ≤ b - a + 1) × (2 * (b - result) ≤ b - a + 1)) }
{
    if 7 <= turn {
        return a + (b - a) / 2;
    }
    if turn < 2 {
        return toward(a, b, guesses.line, 1);
    }
    if turn < 4 && a <= guesses.rounded && guesses.rounded <= b {
        return toward(a, b, guesses.rounded, 1);
    }
    toward(a, b, guesses.line, away(turn))
}

impl Probing<'_> {
    // The machine before the instruction where the input of the choice is x. The choice is as before.
    fn probe(
        self,
        registers: &mut Registers,
        scratch: &mut Memory,
        choice: &mut [u64],
        x: u64,
    ) -> At
        requires { self.input < length choice.old }
        ensures scratch_value { state result registers.new scratch.new ≡ reached_by self.entry choice.old x }
        ensures choice_value { choice.new ≡ choice.old }
    {
        let old = choice[self.input];
        choice[self.input] = x;
        let at = run(
            self.code,
            self.memory,
            choice,
            self.steps,
            registers,
            scratch,
        );
        choice[self.input] = old;
        at
    }

    // The last value of the input, from lo to below hi, that has the class, where lo has it and hi does not: at most 71 probes; two where
    // the first guess is that value or the next, and four where the second is. Where the guess is the next, the last probe is at the edge,
    // and the machine there is left in the registers and scratch.
    pub(crate) fn cut(
        self,
        registers: &mut Registers,
        scratch: &mut Memory,
        choice: &mut [u64],
        lo: u64,
        hi: u64,
        guesses: Guesses,
    ) -> Found
        requires input_in_bounds { self.input < length choice.old }
        requires starts { Starts (probed_by self choice.old) self.class lo hi }
        ensures turning { Turning (probed_by self.entry choice.old) self.entry.class lo hi result.edge }
        ensures fact { let s = reached_by self.entry choice.old result.edge in
            IfSome result.at (λ at. state at registers.new scratch.new ≡ s) }
        ensures choice_value { choice.new ≡ choice.old }
    {
        let (mut a, mut b) = (lo, hi);
        let mut at = None;
        let mut turn: usize = 0;
        // a search: only each probe says where it goes on
        while 1 < b - a {
            let x = guess(a, b, guesses, turn);
            let probed = self.probe(registers, scratch, choice, x);
            if class_of(self.instruction, registers) == self.class {
                a = x;
                at = Some(probed);
            } else {
                b = x;
                at = None;
            }
            turn += 1;
        }
        Found { edge: a, at }
    }
}
