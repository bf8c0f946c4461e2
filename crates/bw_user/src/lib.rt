//! What a scripted user sends, and that it is read as it was meant: laws alone.
#![tactic(auto)]

pub mod laws;
