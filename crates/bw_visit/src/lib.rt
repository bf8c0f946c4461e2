//! A scripted user visits a service: it asks for a session's start, and fills in each page's form by a line of its script.
#![tactic(auto)]

mod exchange;
pub mod laws;
pub mod lent;
pub mod limits;
mod messages;
mod script;
mod turns;
mod visiting;

pub use lent::Host;
pub use script::{Script, read_script};
pub use visiting::{VisitEnd, visit};
