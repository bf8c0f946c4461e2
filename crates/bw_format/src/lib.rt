//! The formats of fields: patterns that a field's text has to match.
#![tactic(auto)]

pub mod file;
pub mod format;
mod frame;
pub mod laws;
mod laying;
pub mod light;
pub mod limits;
mod line;
pub mod pattern;
mod reader;
mod steps;
mod walking;

pub use file::{FormatFault, read_formats};
pub use format::{Format, Formats};
pub use light::Light;
pub use pattern::{Class, Member, Members, Node, Pattern};
