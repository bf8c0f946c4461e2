//! A user's agent: the forms of pages are filled in, as a browser fills them in for the one who sits before it.
#![tactic(auto)]

mod control;
mod controls;
mod filling;
mod form;
pub mod laws;
mod names;
mod page;
mod pairs;
mod unknown;

pub use control::{Control, Controls, Offer, Offers};
pub use page::{AgentFault, Filled, fill};
