// One turn of an exploration, and the turns until it stops.
ghost use Rattle.std.specs.Prelude.{◌≡◌, true, false, ◌+◌, ◌≤◌, ◌<◌, ◌^◌, length, drop};
ghost use Rattle.blocks.specs.Record.{most_inputs, record_bytes};
ghost use Rattle.lockstep.specs.Working.LockStep.{both, advanced};
ghost use Rattle.pages.specs.Working.Page.{ended_path, page_with, filled};
ghost use Rattle.explorer.specs.Working.Held.{job_of, lists, listed, going, Held, stepped, ended};
ghost use Rattle.explorer.specs.Working.Explored.{Explored, Turned, TurnedBetween};
ghost use Rattle.explorer.specs.Working.Finished.{begun};
ghost use Rattle.explorer.specs.declared.Phase.TheVariants.{AtGroup, Between};

use crate::{Phase, Standing, Task};
use blocks::record::Ended;
use cuts::entries::top;
use cuts::forking::set_interval;
use decide::group::{decide, writes};
use decide::{Decision, Used};
use listing::End;
use lockstep::{Corners, Machines};
use pages::write_path;
use riscu::Instruction;

impl Task<'_> {
    // One instruction further at both corners.
    fn step_on(
        self,
        lows: &[u64],
        highs: &[u64],
        m: &mut Machines,
        i: Instruction,
        s: Standing,
    ) -> Standing
        requires { (s.steps + 1 < 2 ^ 64) × (s.used + 2 < 2 ^ 64) }
        ensures value { result ≡ stepped self.entry.limits s i result.at }
        ensures after_value { both result.at m.new ≡ advanced lows.now highs.now i (both s.at m.old) }
    {
        let w = writes(s.at.low.reads < self.limits.inputs, i);
        let to = m.advance(i, lows, highs, s.at);
        s.at_group(s.steps + 1, s.used + w, to)
    }

    // The path that ends here is written, if the page has begun.
    fn end_path(
        self,
        report: &mut [u8],
        lows: &[u64],
        highs: &[u64],
        m: &Machines,
        end: End,
        s: Standing,
    ) -> Standing
        requires lows_len_bound { (length lows.now ≤ most_inputs) × (length lows.now ≡ length highs.now) }
        requires lows_in_bounds { filled (length lows.now) self.window s.paths + record_bytes (length lows.now) ≤ length report.old }
        requires paths_bound { s.paths + 1 < 2 ^ 64 }
        ensures value { result ≡ ended s }
        ensures report_value { let p = ended_path lows.now highs.now m.now.low m.now.high s.at.low s.steps end in
            report.new ≡ page_with self.entry.window s.paths p report.old }
    {
        let p = Ended {
            number: s.paths,
            end,
            pc: s.at.low.pc,
            steps: s.steps as u64,
            reads: s.at.low.reads as u64,
        };
        write_path(report, self.window, p, lows, highs, &m.low, &m.high);
        Standing {
            phase: Phase::Between,
            paths: s.paths + 1,
            ..s
        }
    }

    // A turn at a group by the whole decision: it ends, goes on or forks.
    fn group_turn(
        self,
        lows: &mut [u64],
        highs: &mut [u64],
        table: &mut [u64],
        report: &mut [u8],
        m: &mut Machines,
        s: Standing,
    ) -> Standing
        requires fact { let x = lists lows.old highs.old table.old m.old in
            Explored (job_of self) self.limits self.window x report.old s }
        requires phase_value { s.phase ≡ AtGroup }
        ensures { let x = lists lows.old highs.old table.old m.old in
            let y = lists lows.new highs.new table.new m.new in
            Turned (job_of self.entry) self.entry.limits self.entry.window x report.old s y report.new result }
    {
        let used = Used {
            steps: s.steps,
            entries: s.used,
        };
        match decide(self.code, self.limits, used, s.at.low, &m.low, &m.high) {
            Decision::Ended(end) => self.end_path(report, lows, highs, m, end, s),
            Decision::Steps(i) => self.step_on(lows, highs, m, i, s),
            Decision::Forks(i) => self.fork_on(lows, highs, table, m, i, s),
        }
    }

    // A turn between two groups: a fork with nothing left goes, and what is left of the latest one is taken up unless the page is full.
    // With no fork left, or with the page full, it stops.
    fn rest_turn(
        self,
        lows: &mut [u64],
        highs: &mut [u64],
        table: &mut [u64],
        m: &mut Machines,
        s: Standing,
    ) -> Standing
        requires fact { let x = lists lows.old highs.old table.old m.old in
            Held (job_of self) self.limits (listed (job_of self) s) x s }
        requires phase_value { s.phase ≡ Between }
        ensures { let x = lists lows.old highs.old table.old m.old in
            let y = lists lows.new highs.new table.new m.new in
            TurnedBetween (job_of self.entry) self.entry.limits self.entry.window x s y result }
    {
        if s.forks == 0 {
            return s.halted(false);
        }
        let below = s.forks - 1;
        let f = top(table, below);
        if f.spent {
            set_interval(lows, highs, f.input, f.low, f.high);
            return Standing {
                phase: Phase::Between,
                steps: f.steps,
                used: f.used,
                forks: below,
                ..s
            };
        }
        if s.paths == self.window.end {
            return s.halted(true);
        }
        self.resume(lows, highs, table, m, f, s)
    }

    // A turn. At a group straight steps come first.
    fn turn(
        self,
        lows: &mut [u64],
        highs: &mut [u64],
        table: &mut [u64],
        report: &mut [u8],
        m: &mut Machines,
        s: Standing,
    ) -> Standing
        requires fact { let x = lists lows.old highs.old table.old m.old in
            Explored (job_of self) self.limits self.window x report.old s }
        requires phase_value { going s.phase ≡ true }
        ensures { let x = lists lows.old highs.old table.old m.old in
            let y = lists lows.new highs.new table.new m.new in
            Turned (job_of self.entry) self.entry.limits self.entry.window x report.old s y report.new result }
    {
        if s.is_at_group() {
            let to = self.run_straight(m, s);
            return self.group_turn(lows, highs, table, report, m, to);
        }
        self.rest_turn(lows, highs, table, m, s)
    }

    // Turns from the first group until it stops.
    pub(crate) fn run_turns(
        self,
        lows: &mut [u64],
        highs: &mut [u64],
        table: &mut [u64],
        report: &mut [u8],
        m: &mut Machines,
        at: Corners,
    ) -> Standing
        requires { let x = lists lows.old highs.old table.old m.old in
            Explored (job_of self) self.limits self.window x report.old (begun at) }
        ensures fact { let y = lists lows.new highs.new table.new m.new in
            Explored (job_of self.entry) self.entry.limits self.entry.window y report.new result }
        ensures phase_value { going result.phase ≡ false }
        ensures report_value { let n = filled self.entry.limits.inputs self.entry.window result.paths in
            drop n report.new ≡ drop n report.old }
    {
        let mut s = Standing {
            phase: Phase::AtGroup,
            steps: 0,
            used: 0,
            forks: 0,
            paths: 0,
            at,
        };
        // each turn says whether there is another one
        while s.is_going() {
            s = self.turn(lows, highs, table, report, m, s);
        }
        s
    }
}
