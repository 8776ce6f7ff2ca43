// A job written in blocks, for the rule editor: document 02's call; what a reader must believe stands in specs/ outside Working/.
// `value_words` has the words of a job's header and parts, `writing` puts them into blocks and has the call.
// The laws say that the reader gets back what was written, and that a job has one such form; a refused call writes nothing.
#![tactic(auto)]

ghost use Rattle.std.specs.Prelude.{◌≡◌};
ghost use Rattle.writing.specs.Write.{write_outcome};

use calls::{Completion, completion_number};

mod value_words;
pub mod writing;

// An answer in numbers, for the C border: the refusal's number or 0, and the bytes written.
#[repr(C)]
#[derive(Clone, Copy)]
pub struct WriteOutcome {
    pub refused: u64,
    pub bytes: u64,
}

// An answer in numbers.
impl From<Completion> for WriteOutcome {
    ghost from_gives = { λ a o. o ≡ write_outcome a };

    fn from(a: Completion) -> WriteOutcome {
        WriteOutcome {
            refused: completion_number(a),
            bytes: a.unwrap_or(0),
        }
    }
}
