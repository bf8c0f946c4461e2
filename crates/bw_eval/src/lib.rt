//! Evaluates expressions: values, and the units that they take, are exactly those of the meaning.
#![tactic(auto)]

mod eval;
mod filling;
mod operators;
mod units;
mod value;
mod values;

pub use eval::Scene;
pub use units::take_unit;
pub use value::{Value, words_weight};
pub use values::{Values, Variable};
