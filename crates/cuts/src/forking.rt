// A box in two lists: cut along an input, and with another interval for an input.
ghost use Rattle.std.specs.Prelude.{◌≡◌, ◌<◌, length};
ghost use Rattle.boxes.specs.Boxes.{◌⋯◌};
ghost use Rattle.boxes.specs.Working.Cuts.{cut, box_in};
ghost use Rattle.riscu.specs.Machine.{run, start};
ghost use Rattle.riscu.specs.Working.Parts.{state};
ghost use Rattle.cuts.specs.Working.Cutting.{probed_by};
ghost use Rattle.cuts.specs.Working.Forking.{Partable, Parted};

use crate::Probing;
use crate::hints::hint;
use crate::probes::Found;
use riscu::At;
use riscu::plain::{Memory, Registers};
use runs::running::run;

// The part of a box below its cut: where it ends, and where the machine at its high corner is.
#[derive(Clone, Copy)]
pub struct Below {
    pub edge: u64,
    pub high: At,
}

impl Probing<'_> {
    // Cuts the box along the input, where the class is left on the way up: the lists hold the part below then, and the registers and
    // memory the machine at its high corner. The registers at both corners give the first guesses.
    pub fn part(
        self,
        low: &Registers,
        registers: &mut Registers,
        scratch: &mut Memory,
        lows: &[u64],
        highs: &mut [u64],
    ) -> Below
        requires { Partable (probed_by self highs.old) self.class self.input lows.now highs.old }
        ensures fact { let p = self.entry in
            Parted (probed_by p highs.old) p.class p.input lows.now highs.old highs.new result.edge }
        ensures scratch_value { let s = run self.entry.code.now highs.new self.entry.steps (start self.entry.memory.now) in
            state result.high registers.new scratch.new ≡ s }
    {
        let lo = lows[self.input];
        let hi = highs[self.input];
        let guesses = hint(self.instruction, low, registers, lo, hi);
        let Found { edge, at } = self.cut(registers, scratch, highs, lo, hi, guesses);
        highs[self.input] = edge;
        let high = match at {
            Some(at) => at,
            None => run(
                self.code,
                self.memory,
                highs,
                self.steps,
                registers,
                scratch,
            ),
        };
        Below { edge, high }
    }
}

// Gives an input another interval.
pub fn set_interval(lows: &mut [u64], highs: &mut [u64], input: usize, low: u64, high: u64)
    requires { (input < length lows.old) × (input < length highs.old) }
    ensures { box_in lows.new highs.new ≡ cut (box_in lows.old highs.old) input (low ⋯ high) }
{
    lows[input] = low;
    highs[input] = high;
}
