// A sheet for the wall: document 02's call that prints a report on lines of 72 columns.
// `asking` has the sheet's length and the questions 12 and 14, `lines` writes the lines from the records' words, `sheet` has the call.
// What a reader must believe stands in specs/; a call that is refused writes nothing.

#![tactic(auto)]

pub mod asking;
mod lines;
pub mod sheet;
