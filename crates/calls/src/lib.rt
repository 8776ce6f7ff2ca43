// A call of the explorer: what is lent, the questions, what the call leaves, and the demands as statements about every
// engine whose calls leave that. What a reader must believe stands in specs/ outside Working/; the crate `demands` proves the statements.
// The code is the answer with its numbers, and `questions`, which asks the questions.
#![tactic(auto)]

ghost use Rattle.std.specs.Prelude.{◌≡◌};
ghost use Rattle.calls.specs.Questions.{number};
ghost use Rattle.calls.specs.Border.{refused_number, reply_of};
ghost use Rattle.calls.specs.Done.{refusal_from};

pub mod questions;

// Why a call is refused, with the papers' number of every cause. 1 to 8 are asked of an exploration, 9 to 11 of a job in blocks, 12 and 13
// of a report and of rows, 14 of a space to write, 15 and 16 of a job whose choices are counted.
#[derive(Clone, Copy, PartialEq, Eq, Debug)]
pub enum Refusal {
    Code = 1,
    Inputs = 2,
    Order = 3,
    Limit = 4,
    Table = 5,
    Memory = 6,
    Report = 7,
    First = 8,
    Blocks = 9,
    Check = 10,
    Form = 11,
    Records = 12,
    Rows = 13,
    Space = 14,
    Size = 15,
    Paths = 16,
}

// A page of a listing: how many paths are written, and whether a further path exists.
#[derive(Clone, Copy)]
pub struct Page {
    pub count: u64,
    pub more: bool,
}

// What an exploration answers.
pub type Answer = Result<Page, Refusal>;

// What a call answers that is done or refused: how much was done.
pub type Completion = Result<u64, Refusal>;

// An answer in numbers, for the C border: the refusal's number or 0, the paths written, and 1 if a further path exists.
#[repr(C)]
#[derive(Clone, Copy)]
pub struct Outcome {
    pub refused: u64,
    pub count: u64,
    pub more: u64,
}

// The number of a refusal.
impl From<Refusal> for u64 {
    ghost from_gives = { λ r n. n ≡ number r };

    fn from(r: Refusal) -> u64 {
        r as u64
    }
}

// An answer in numbers.
#[tactic(auto, unfolding(crate::specs::Call::written, crate::specs::Call::more))]
impl From<Answer> for Outcome {
    ghost from_gives = { λ a o. o ≡ reply_of a };

    fn from(a: Answer) -> Outcome {
        match a {
            Err(r) => Outcome {
                refused: u64::from(r),
                count: 0,
                more: 0,
            },
            Ok(page) => Outcome {
                refused: 0,
                count: page.count,
                more: u64::from(page.more),
            },
        }
    }
}

// The number of an answer: the refusal's, or 0.
pub fn completion_number(a: Completion) -> u64
    ensures { result ≡ refused_number (refusal_from a) }
{
    a.map_or_else(u64::from, |_| 0)
}
