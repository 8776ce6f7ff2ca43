// The exploration of an accepted call.
ghost use Rattle.std.specs.Prelude.{◌≡◌, ◌-◌, ◌<◌, length};
ghost use Rattle.std.proofs.Math.Option.{none};
ghost use Rattle.riscu.specs.Lent.{lent};
ghost use Rattle.riscu.specs.Limits.{memory_words};
ghost use Rattle.calls.specs.Call.{call_of, refusal_of, left};
ghost use Rattle.calls.specs.Border.{call_lent, called_on};
ghost use Rattle.explorer.specs.Working.Held.{job_of};
ghost use Rattle.explorer.specs.Working.Finished.{padded_ends, Begins, Finished};

use crate::{Standing, Task};
use blocks::MOST_INPUTS;
use blocks::block::word_or_zero;
use blocks::report::records_in;
use calls::Page;
use calls::questions::ENTRY_WORDS;
use cuts::entries::clear;
use decide::Limits;
use lockstep::Machines;
use pages::Window;
use riscu::plain::{Machine, Memory};
use straight::replaying::replay;

// The lent memory, which is never written.
fn copied(memory: &[u64]) -> Memory
    requires { length memory.now ≡ memory_words }
    ensures { result ≡ memory.now }
{
    let mut words = [0u64; Machine::MEMORY_WORDS];
    words.copy_from_slice(memory);
    words
}

// The lows of the intervals and their highs, and 0 where there are none: as there is no heap, places for the most inputs, of which the
// first so many are lent on.
fn ends(intervals: &[u64]) -> ([u64; MOST_INPUTS], [u64; MOST_INPUTS])
    ensures low_ends { result.0 ≡ padded_ends 0 intervals.now }
    ensures high_ends { result.1 ≡ padded_ends 1 intervals.now }
{
    let mut lows = [0u64; MOST_INPUTS];
    let mut highs = [0u64; MOST_INPUTS];
    for k in 0..MOST_INPUTS {
        lows[k] = word_or_zero(intervals, 2 * k);
        highs[k] = word_or_zero(intervals, 2 * k + 1);
    }
    (lows, highs)
}

// Explores the box that the lists hold, and writes the page.
fn explore_box(
    task: Task<'_>,
    lows: &mut [u64],
    highs: &mut [u64],
    table: &mut [u64],
    report: &mut [u8],
) -> Standing
    requires { Begins (job_of task) task.limits task.window lows.old highs.old table.old report.old }
    ensures { let c = call_of task.entry.code.now task.entry.intervals.now task.entry.limits.steps report.old task.entry.window.first in
        Finished (job_of task.entry) c report.new result }
{
    let mut machines = Machines::zeroed();
    let at = replay(task.code, task.memory, 0, &mut machines, lows, highs);
    task.run_turns(lows, highs, table, report, &mut machines, at)
}

// A call that passed the questions. What is lent stands in single arguments, as C lends it.
pub fn accepted(
    code: &[u32],
    memory: &[u64],
    intervals: &[u64],
    limit: u64,
    table: &mut [u64],
    report: &mut [u8],
    first: u64,
) -> Page
    requires { let c = call_of code.now intervals.now limit report.old first in
        refusal_of memory.now (length table.old) c ≡ none }
    ensures { let c = call_lent code intervals limit report first in
        let l = left (Ok result) report.new table.new (lent memory) in
        l ≡ called_on memory table c }
{
    let held = copied(memory);
    let (mut lows, mut highs) = ends(intervals);
    let inputs = intervals.len() / 2;
    let limits = Limits {
        steps: limit as usize,
        entries: table.len() / ENTRY_WORDS,
        inputs,
    };
    let window = Window {
        first,
        end: first + records_in(report, inputs) as u64,
    };
    let task = Task {
        code,
        memory: &held,
        intervals,
        limits,
        window,
    };
    let s = explore_box(
        task,
        &mut lows[..inputs],
        &mut highs[..inputs],
        table,
        report,
    );
    clear(table);
    Page {
        count: s.paths.saturating_sub(first),
        more: s.has_more(),
    }
}
