//! The inside of a template becomes items.
//!
//! A template is a list of pieces: texts, content gaps `<[name]>`, start tags, whole tags and end tags, whose
//! attributes have a text or a gap `[name]` for a value. `read_template` reads it with gaps, `read_closed`
//! without them, and both say of every other text the first reason why it isn't one (`TmplFault`).
#![tactic(auto)]

mod at_once;
mod building;
mod chars;
mod fault;
mod gaps;
pub mod laws;
mod nesting;
mod reading;
mod repeats;
mod tags;

pub use fault::TmplFault;
pub use reading::{read_closed, read_template};
