// The laws of the plain listing: every choice lies in exactly one path, two share a path exactly if they fell in the same piece at
// every fork, the paths stand in document 01's order, and the plain machine stops where its path says.
// Theory only: the crate has no code.

#![tactic(auto)]
