//! Public calls of the program once more, and of what explains faults. Each has some clauses of its contract, so that a
//! wrong body in its place is refused as that contract refuses it.
#![tactic(auto)]

mod endings;
mod explanations;
mod headline;
mod program;
mod questions;
