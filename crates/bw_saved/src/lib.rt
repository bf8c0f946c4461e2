//! The file of saved sessions, and its reading.
//!
//! A file holds the text of the service, the shared variables and the sessions that wait, each with the show at which it
//! waits, its variables and its document. What a file may hold, what its bytes are, and that each file is the file of
//! one content alone, are laws.
#![tactic(auto)]

mod documents;
mod fault;
mod fields;
mod file;
pub mod laws;
pub mod limits;
mod operations;
mod saved;
mod sessions;
mod stack;
mod values;

pub use fault::ReadError;
pub use file::{FileFault, read_file};
pub use operations::{Task, next, operations_of};
pub use saved::{Record, Records, Saved};
