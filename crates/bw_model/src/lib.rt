//! The world of a service as its meaning has it: live sessions by what they were sent, one request as one step, and a
//! stream of messages as one run.
#![tactic(auto)]

pub mod examples;
pub mod format_laws;
pub mod laws;
pub mod limits;
