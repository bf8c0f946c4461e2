//! Reading of services: from the bytes of a file to the one service that they spell, or the first reason why they spell
//! none.
#![tactic(auto)]

mod fault;
mod laws;
mod lexemes;
mod reading;
mod templates;
mod told;

pub use fault::SyntaxFault;
pub use laws::{always_an_answer, one_answer};
pub use lexemes::lexemes_of;
pub use reading::{read_service, read_told};
pub use told::{Told, tell};
