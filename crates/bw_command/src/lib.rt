//! The command line: which command its words give.
#![tactic(auto)]

mod apart;
mod command;
mod numbers;
mod reading;
mod serviceless;
mod status;
mod words;

pub use command::{
    Command, DEFAULT_PORT, Judging, MAX_LINKS, MAX_PORT, MAX_REQUESTS, MAX_ROTATE, MAX_WORKERS,
    Named,
};
pub use reading::read_words;
pub use status::{Refusal, Status};
pub use words::WordsFault;
