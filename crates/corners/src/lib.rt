// The corner law: on a box whose choices went the same way so far, the machines at the lowest and at the highest inputs decide
// everything that document 01 asks of all its choices. Operation laws, values that hang on one input, smooth steps, and the listing
// by corners, with document 01's cases under P decided by it. Theory only: the crate has no code.

#![tactic(auto)]
