//! Which of some names is nearest to a word.
#![tactic(auto)]

pub mod laws;
mod near;

pub use near::nearer;
