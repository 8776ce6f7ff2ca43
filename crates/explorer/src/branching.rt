// A fork of the group at hand, and what is left of the latest fork taken up.
ghost use Rattle.std.specs.Prelude.{◌≡◌, Some};
ghost use Rattle.riscu.specs.Machine.{fetch};
ghost use Rattle.riscu.specs.declared.Instruction.{Instruction};
ghost use Rattle.cuts.specs.Working.Entries.{fork_held};
ghost use Rattle.explorer.specs.Working.Held.{job_of, lists, AtFork, AtRest, GoesOn, Takeable, TakenUp};

use crate::{Standing, Task};
use cuts::Probing;
use cuts::entries::{Entry, push, shorten, spend};
use cuts::forking::set_interval;
use decide::classes::class_of;
use decide::group::writes;
use lockstep::{Corners, Machines};
use riscu::Instruction;
use riscu::plain::fetch;
use straight::replaying::replay;

impl Task<'_> {
    // Cuts the box at the fork, puts the rest into the table, and goes on below the cut: the low corner stays, and `part` left the high one.
    pub(crate) fn fork_on(
        self,
        lows: &mut [u64],
        highs: &mut [u64],
        table: &mut [u64],
        m: &mut Machines,
        i: Instruction,
        s: Standing,
    ) -> Standing
        requires { AtFork (job_of self) self.limits (lists lows.old highs.old table.old m.old) s i }
        ensures { let x = lists lows.old highs.old table.old m.old in
            let y = lists lows.new highs.new table.new m.new in
            GoesOn (job_of self.entry) self.entry.limits x s y result }
    {
        let w = writes(s.at.low.reads < self.limits.inputs, i);
        let input = m.class_tag(i) as usize;
        let class = class_of(i, &m.low);
        let lo = lows[input];
        let hi = highs[input];
        let asked = Probing {
            code: self.code,
            memory: self.memory,
            steps: s.steps,
            instruction: i,
            input,
            class,
        };
        let below = asked.part(&m.low, &mut m.high, &mut m.highmem, lows, highs);
        let fork = Entry {
            input,
            low: lo,
            high: hi,
            rest: below.edge + 1,
            steps: s.steps,
            used: s.used,
            spent: false,
        };
        push(table, s.forks, fork);
        let cut = Corners {
            low: s.at.low,
            high: below.high,
        };
        let at = m.advance(i, lows, highs, cut);
        Standing {
            forks: s.forks + 1,
            ..s.at_group(s.steps + 1, s.used + (w + 1), at)
        }
    }

    // Takes up what is left of a fork, whose box the lists hold: whole where it is of one class, and otherwise up to its first cut.
    fn take_rest(
        self,
        lows: &mut [u64],
        highs: &mut [u64],
        table: &mut [u64],
        m: &mut Machines,
        below: usize,
        f: Entry,
        i: Instruction,
        at: Corners,
    ) -> Corners
        requires { let x = lists lows.old highs.old table.old m.old in
            Takeable self.code.now self.memory.now i below f.input f.steps x }
        ensures { let x = lists lows.old highs.old table.old m.old in
            let y = lists lows.new highs.new table.new m.new in
            TakenUp self.entry.code.now self.entry.memory.now i below f.input f.steps x at y result }
    {
        let a = class_of(i, &m.low);
        let b = class_of(i, &m.high);
        if a == b {
            spend(table, below);
            return m.advance(i, lows, highs, at);
        }
        let asked = Probing {
            code: self.code,
            memory: self.memory,
            steps: f.steps,
            instruction: i,
            input: f.input,
            class: a,
        };
        let first = asked.part(&m.low, &mut m.high, &mut m.highmem, lows, highs);
        shorten(table, below, first.edge + 1);
        let cut = Corners {
            low: at.low,
            high: first.high,
        };
        m.advance(i, lows, highs, cut)
    }

    // Takes up the rest of the latest fork, which is f: both corners are replayed to the fork, so that nothing of the path before is left.
    pub(crate) fn resume(
        self,
        lows: &mut [u64],
        highs: &mut [u64],
        table: &mut [u64],
        m: &mut Machines,
        f: Entry,
        s: Standing,
    ) -> Standing
        requires { let x = lists lows.old highs.old table.old m.old in
            AtRest (job_of self) self.limits x s (fork_held f) }
        ensures { let x = lists lows.old highs.old table.old m.old in
            let y = lists lows.new highs.new table.new m.new in
            GoesOn (job_of self.entry) self.entry.limits x s y result }
    {
        set_interval(lows, highs, f.input, f.rest, f.high);
        let at = replay(self.code, self.memory, f.steps, m, lows, highs);
        let i = instruction_at(self.code, at.low.pc);
        let w = writes(at.low.reads < self.limits.inputs, i);
        let to = self.take_rest(lows, highs, table, m, s.forks - 1, f, i, at);
        s.at_group(f.steps + 1, f.used + (w + 1), to)
    }
}

// The instruction that the code has at pc. What it is where there is none, is free.
fn instruction_at(code: &[u32], pc: u64) -> Instruction
    ensures { (i : Instruction) → fetch code.now pc ≡ Some i → result ≡ i }
{
    fetch(code, pc).unwrap_or(Instruction::Ecall)
}
