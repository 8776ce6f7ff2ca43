// The user's demands, proved: whatever meets the contract of a call meets demands 1, 2 and 3 of the definitions in `calls`.
// Refusals and their causes, faithful paths, complete listings, the bytes of a report, and lists of calls on one memory and table.
// Theory only: the crate has no code.

#![tactic(auto)]
