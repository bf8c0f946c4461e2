//! The faults of a page graph by a schema. Where there is none, every page is valid.
#![tactic(auto)]

mod attributes;
mod content;
mod elements;
mod judging;
pub mod laws;
mod misses;
pub mod scene;
pub mod sureness;

pub use judging::{judge, judge_by};
