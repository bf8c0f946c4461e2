//! Loading of saved sessions: whatever the bytes were, what is loaded is a sound world of the service.
//!
//! A file that is of the layout may still hold values that the service never makes, as where someone changed it. So each
//! value is tested against what the check knows of its variable, and each document against what is known of its show.
#![tactic(auto)]

mod cells;
pub mod laws;
mod loading;
mod stack;
mod sums;

pub use loading::{LoadFault, load};
