//! Names and kinds: a service is well typed, or the first test that fails says why it isn't.
#![tactic(auto)]

mod declarations;
pub mod expressions;
pub mod fault;
pub mod kinds;
pub mod laws;
pub mod locals;
pub mod names;
pub mod statements;
pub mod tables;
pub mod templates;
mod typed;

pub use fault::{GapKind, TypeFault};
pub use typed::{Typed, resolve};
