//! The parser, by descent: from what the tokens of a service's text say to its declarations, whose templates aren't
//! read yet.
#![tactic(auto)]

mod expressions;
mod fault;
pub mod laws;
mod lexemes;
mod services;
mod statements;

pub use fault::ParseFault;
pub use services::{ServiceDraft, parse_service};
