// What the programs of stored runs share: inputs, the lengths that belong to sizes, and printing.
#![tactic(auto)]

pub mod calls; // calls.rt: the fronts of buffers, and committing with them
pub mod faults; // faults.rt: calls about a commitment, and what can be wrong with them
pub mod inputs; // inputs.rt: the rules by which all inputs are made
pub mod printing; // printing.rt: digests, and what is printed
pub mod questions; // questions.rt: questions, made from what is asked
pub mod sizes; // sizes.rt: sizes, and the lengths that belong to them
pub mod small; // small.rt: the inputs of the refusals
