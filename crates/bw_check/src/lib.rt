//! The check of a service: it is accepted exactly where it keeps its limits and no fault is found on any of its pages or
//! in any of its plugs.
#![tactic(auto)]

mod bench;
mod checked;
mod checking;
mod fault;
pub mod laws;
mod pieces;

pub use checked::Checked;
pub use checking::{Findings, check, find_faults};
pub use fault::CheckFault;
