//! Public calls of the crates of worlds once more: worlds, journals beside them, saved sessions and visits. Each has some clauses of its
//! contract, so that a wrong body in its place is refused as that contract refuses it.
#![tactic(auto)]

mod frozen_worlds;
mod keeping;
mod loaded_sessions;
mod others;
mod saved_sessions;
mod taking;
mod visits;
mod worlds;
