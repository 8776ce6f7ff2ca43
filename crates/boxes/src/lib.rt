// Boxes of inputs: the choices of a box, the least and the greatest value over them, fixed values, and the pieces that a class makes.
// The laws say when the lowest and the highest choice decide these, and how a box is cut along one input.
// Definitions and theory only: the crate has no code.

#![tactic(auto)]
