// The call: the questions, and the exploration of a job that passes them.
// What a call leaves is one equation with the definition of a call: its answer, every byte of the report, the table and memory.
// Nothing is required of a caller; from the contract of `explore` alone proofs/Demands has the three demands.
#![tactic(auto)]

ghost use Rattle.calls.specs.Call.{left};
ghost use Rattle.calls.specs.Border.{call_lent};
ghost use Rattle.calls.specs.Engine.{Leaves};

use calls::Answer;
use calls::questions::ask;
use explorer::exploring::accepted;

// Explores a job and writes a page of its paths, or refuses the call.
#[tactic(auto, using(crate::proofs::Refusing::refused_leaves))]
pub fn explore(
    code: &[u32],
    memory: &[u64],
    intervals: &[u64],
    limit: u64,
    table: &mut [u64],
    report: &mut [u8],
    first: u64,
) -> Answer
    ensures { let c = call_lent code intervals limit report first in
        let l = left result report.new table.new memory.now in
        Leaves memory.now table.old c l }
{
    ask(code, memory, intervals, limit, table, report, first)?;
    Ok(accepted(code, memory, intervals, limit, table, report, first))
}
