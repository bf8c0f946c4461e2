//! Summaries of documents: what they may be made of, and what plugs make of them.
#![tactic(auto)]

mod constants;
pub mod labels;
pub mod laws;
mod opening;
mod parts;
pub mod summary;

pub use labels::{Label, Labels};
pub use summary::Summary;
