//! The string literals of a service, and sets of the strings that a value may be.
#![tactic(auto)]

pub mod laws;
pub mod literals;
pub mod reading;
pub mod strings;

pub use literals::Literals;
pub use strings::StrSet;
