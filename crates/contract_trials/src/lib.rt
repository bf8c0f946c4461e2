//! Public calls once more. Each has some clauses of its contract, so that a wrong body in its place is refused as that
//! contract refuses it.
#![tactic(auto)]

mod analysis;
mod blocks;
mod checks;
mod documents;
mod fields;
mod formats;
mod forms;
mod refusals;
mod requests;
