// Reports from outside: document 02's question 12 on a lent report, and the call that places rows in the paths of one.
// `asking` asks the questions, `placing` finds for each row the first record whose box holds it.
// What a reader must believe stands in specs/; a call that is refused writes nothing.

#![tactic(auto)]

pub mod asking;
pub mod placing;
