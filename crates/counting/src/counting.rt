// The call that counts the choices of a job.
ghost use Rattle.std.specs.Prelude.{◌≡◌};
ghost use Rattle.counting.specs.Count.{counted};
ghost use Rattle.counting.specs.Working.Adding.{Startable, counted_job, in_one, job_lent};

use crate::adding::add_up;
use crate::sizes::box_size;
use crate::{Counted, MOST_PATHS, turned_away};
use blocks::{MOST_INPUTS, PATH_BYTES};
use calls::Refusal;
use calls::questions::{CODE_WORDS, require};
use jobs::Counts;
use jobs::reading::read_job;
use riscu::plain::Machine;
use serving::explore_read;

// Counts the choices of a job that was read, from path 0 on.
fn count_read(
    code: &[u32],
    intervals: &[u64],
    memory: &[u64],
    counts: Counts,
) -> Result<Counted, Refusal>
    requires { Startable code.now intervals.now memory.now counts }
    ensures { in_one result ≡ counted_job (job_lent code intervals memory counts) }
{
    let m = 2 * counts.inputs as usize;
    let total = box_size(&intervals[..m]).ok_or(Refusal::Size)?;
    let from_start = Counts { first: 0, ..counts };
    let mut report = [0u8; MOST_PATHS * PATH_BYTES];
    let page = explore_read(code, intervals, memory, from_start, &mut report)?;
    require(!page.more, Refusal::Paths)?;
    Ok(add_up(&report, counts.inputs as usize, page.count as usize, total))
}

// Reads a job in blocks and counts its choices. The buffers stand here and in `serving`, as there is no heap.
fn try_count(job: &[u8]) -> Result<Counted, Refusal>
    ensures { in_one result ≡ counted job.now }
{
    let mut code = [0u32; CODE_WORDS];
    let mut intervals = [0u64; 2 * MOST_INPUTS];
    let mut memory = [0u64; Machine::MEMORY_WORDS];
    let counts = read_job(job, &mut code, &mut intervals, &mut memory)?;
    count_read(&code, &intervals, &memory, counts)
}

// Counts the choices of a job in blocks by what they lead to, or turns it away.
pub fn count(job: &[u8]) -> Counted
    ensures { result ≡ counted job.now }
{
    try_count(job).unwrap_or_else(turned_away)
}
