// A job in blocks of 512 bytes, as document 01 lays it out; what a reader must believe stands in specs/ outside Working/.
// `job_words` finds the words of a job's parts, `asking` asks the questions on it, `reading` copies what an accepted job holds.
// A refused job changes nothing that is lent.
#![tactic(auto)]

mod asking;
pub mod header;
pub mod job_words;
pub mod reading;

// The numbers of a job: how many code words and inputs were read, the step limit and the first path.
#[derive(Clone, Copy)]
pub struct Counts {
    pub code: u64,
    pub inputs: u64,
    pub limit: u64,
    pub first: u64,
}
