//! The lines that show a place of a text.
#![tactic(auto)]

pub mod columns;
pub mod excerpt;

pub use columns::{Spot, spot_of};
pub use excerpt::{Paper, Place, digits, push_excerpt, push_note, readable, start_in};
