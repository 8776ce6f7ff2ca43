// Both machines take the low one's instruction, and the tags move with them. Lows and highs are two lists, since each is the choice that
// one machine reads.
ghost use Rattle.std.specs.Prelude.{◌≡◌};
ghost use Rattle.riscu.specs.declared.Instruction.TheVariants.{Ecall};
ghost use Rattle.lockstep.specs.Working.LockStep.{both, advanced};

use crate::{Corners, Machines};
use riscu::Instruction;
use riscu::plain::{ecall, step};

impl Machines {
    // One instruction, already decoded, at both corners.
    pub fn advance(&mut self, i: Instruction, lows: &[u64], highs: &[u64], at: Corners) -> Corners
        ensures { both result self.new ≡ advanced lows.now highs.now i (both at self.old) }
    {
        self.mark(i, lows, at.low);
        let low = step(i, &mut self.low, &mut self.lowmem, lows, at.low);
        let high = step(i, &mut self.high, &mut self.highmem, highs, at.high);
        Corners { low, high }
    }

    // ECALL at both corners. By `advance` a job that reads and forks took 7% longer.
    pub fn advance_read(&mut self, lows: &[u64], highs: &[u64], at: Corners) -> Corners
        ensures { both result self.new ≡ advanced lows.now highs.now Ecall (both at self.old) }
    {
        self.mark_read(lows, at.low);
        let low = ecall(&mut self.low, &mut self.lowmem, lows, at.low);
        let high = ecall(&mut self.high, &mut self.highmem, highs, at.high);
        Corners { low, high }
    }
}
