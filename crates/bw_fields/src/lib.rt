//! The faults of the fields that a show receives. Where there is none, every page has them.
#![tactic(auto)]

mod judging;
pub mod laws;

pub use judging::judge_fields;
