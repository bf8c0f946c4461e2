//! Whether a page is valid by a schema, and where it isn't: the first element that breaks its rule.
#![tactic(auto)]

mod attributes;
mod breach;
mod children;
mod formulas;
pub mod laws;

pub use breach::{Breach, valid};
