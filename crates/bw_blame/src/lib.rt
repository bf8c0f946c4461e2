//! Which test of names and kinds fails first, and where.
#![tactic(auto)]

mod declarations;
mod demands;
mod expressions;
pub mod laws;
mod parts;
pub mod site;
mod statements;
mod templates;

pub use declarations::blame;
pub use site::{Blamed, Missed, Site};
