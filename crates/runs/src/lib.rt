// Runs of the plain machine, from its start or from where it is, a step by a row of the instruction table.
// A word is looked at once: its row says which step it is, and no instruction is built and taken apart again.
// It changes what a run costs and nothing else: a step is the one of the instruction that the code has at pc.
#![tactic(auto)]

mod rows;
pub mod running;
