//! The faults of the check, and lists of them in their order.
#![tactic(auto)]

mod fault;
mod faults;
pub mod laws;

pub use fault::Fault;
pub use faults::Faults;
