//! Runs a session's turns over its flow: each is exactly the turn that the statements mean, its cost included.
//!
//! A turn that ends at a show leaves a `Frame`, and `resume` goes on from it: what came before isn't run again. Documents
//! are shared between values and never copied.
#![tactic(auto)]

mod ending;
mod fields;
mod firsts;
pub mod laws;
mod receiving;
pub mod rests;
pub mod standing;
pub mod step;
pub mod turn;
pub mod walk;

pub use fields::{FieldFault, missing};
pub use firsts::first_values;
pub use rests::{Rest, Rests};
pub use turn::{Frame, SharedValues, Turn, resume, start};
