//! A world is brought back from its journal.
//!
//! **Where it begins.** A journal begins at the world in which nothing was requested yet, or at a saved one, whose bytes it
//! holds (`read_start`). A saved world is loaded by the caller, and the entries behind it are handled from there on
//! (`recall_behind`).
//!
//! **What is promised.** A request is one step of the world by its key, so the entries, one after another, bring about the
//! world again: for every model world that the world stood for, it then stands for the one that they bring about. Where
//! there is neither an entry nor a first part of one, `recall_behind` says behind how many bytes.
#![tactic(auto)]

mod handling;
pub mod laws;
mod recalling;
mod starting;
mod window;

pub use recalling::{Recalled, recall_behind};
pub use starting::{Mark, Reader, Started, read_start};
