//! What the entries of a journal bring about: each is handled by its key, one after another.
#![tactic(auto)]

pub mod laws;
