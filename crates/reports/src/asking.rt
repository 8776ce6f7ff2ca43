// The questions 12 and 13; the first no decides.
ghost use Rattle.std.specs.Prelude.{◌≡◌, ◌≤◌};
ghost use Rattle.boxes.specs.Boxes.{every};
ghost use Rattle.listing.specs.First.{first};
ghost use Rattle.calls.specs.Working.Asking.{refusal_in};
ghost use Rattle.reports.specs.Readable.{records_of, has_count, readable};
ghost use Rattle.reports.specs.Placing.{rows_fit, place_questions, place_call_lent};

use blocks::block::checks_agree;
use blocks::layout::INPUTS;
use blocks::report::{record_bytes, record_word, records_in};
use calls::Refusal;
use calls::questions::{inputs_fit, require};

// Rows that one call places.
const MOST_ROWS: usize = 1024;

// Whether each record has this count in word 4.
fn counts_agree(report: &[u8], inputs: usize) -> bool
    ensures { result ≡ every (has_count inputs) (records_of inputs report.now) }
{
    (0..records_in(report, inputs)).all(|k| record_word(report, inputs, k, INPUTS) == inputs as u64)
}

// Question 12.
pub fn is_readable(inputs: u64, report: &[u8]) -> bool
    ensures { result ≡ readable inputs report.now }
{
    let n = inputs as usize;
    1 <= inputs
        && inputs_fit(inputs)
        && report.len() % record_bytes(n) == 0
        && counts_agree(report, n)
        && checks_agree(report)
}

// Question 13.
fn rows_fit(inputs: usize, rows: &[u64], answers: &[u64]) -> bool
    requires { 1 ≤ inputs }
    ensures { result ≡ rows_fit inputs rows.now answers.now }
{
    let n = rows.len() / inputs;
    rows.len() % inputs == 0 && n <= MOST_ROWS && answers.len() == n
}

// The first no of questions 12 and 13, or that both have the answer yes.
#[tactic(auto, unfolding(crate::specs::Placing::place_questions, listing::specs::First::first))]
pub(crate) fn ask_place(
    inputs: u64,
    report: &[u8],
    rows: &[u64],
    answers: &[u64],
) -> Result<(), Refusal>
    ensures { refusal_in result ≡ first (place_questions (place_call_lent inputs report rows answers)) }
{
    require(is_readable(inputs, report), Refusal::Records)?;
    require(rows_fit(inputs as usize, rows, answers), Refusal::Rows)
}
