//! What `main` puts around a run: the words of the command line, a door that says where it stands, when a client's message
//! is whole, and what is said on standard error where standard output doesn't tell why the program ended.
#![tactic(auto)]

mod ends;
mod given;
mod help;
mod messages;
mod shown;

pub use ends::{say_end, say_memory};
pub use given::command_line;
pub use messages::Messages;
pub use shown::ShownDoor;
