//! All that the program does: `run` takes the words of the command line and the outside, and ends with a status.
#![tactic(auto)]

mod beginning;
mod bringing;
mod freezing;
mod journal_lines;
mod keeping;
mod laws;
mod lent;
mod making;
mod obeying;
mod origins;
mod preserving;
mod program;
mod readying;
mod replaying;
mod resuming;
mod saved_lines;
mod saying;
mod server;
mod serving;
mod thawing;
mod visiting;

pub use bw_questions::Status;
pub use laws::{built_in_is_read, one_outcome};
pub use program::run;
