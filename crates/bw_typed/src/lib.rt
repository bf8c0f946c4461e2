//! What every service is that some text reads as, and every one that is well typed: laws for what is built above.
#![tactic(auto)]

pub mod laws;
