// The explorer's state against the plain listing: the current group and a stack of forks, each with the rest of its interval.
// Each turn of the explorer is one move of the listing, the forks fit the trace table, and the work left falls.
// Theory only: the crate has no code.

#![tactic(auto)]
