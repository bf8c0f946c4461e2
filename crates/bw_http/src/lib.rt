//! Requests cut from a stream, and replies written: the front of an HTTP/1.1 server (RFC 9110, RFC 9112).
//!
//! `read_request` takes bytes from a source, in whatever pieces they come, and gives the request that they begin with,
//! or the one refusal that is due. What is left over stays in the intake for the next call. `lack` says what bytes that
//! came so far still lack for that. `write_reply` writes the bytes of a reply. docs/HTTP.md says what is a request here, in
//! which order it is tested and what each test is for.
#![tactic(auto)]

mod decide;
mod form;
mod head;
mod intake;
pub mod laws;
mod paths;
mod reading;
mod replies;
mod request;
mod settled;

pub use form::read_form;
pub use intake::Intake;
pub use paths::is_word;
pub use reading::{Lack, read_request};
pub use replies::{Allow, Reply, write_reply};
pub use request::{Method, Path, ReadOutcome, Request};
pub use settled::lack;
