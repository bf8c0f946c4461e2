//! The limits of a service's text: which of them is passed, and by which number.
//!
//! `too_deep` looks at the tokens alone, and so bounds the depth of what is read; `too_many` looks at the declarations
//! that were read.
#![tactic(auto)]

mod brackets;
mod declarations;
mod fields;
mod lengths;
mod locals;
mod passing;

pub use brackets::{depth_behind, ends_stretch, too_deep};
pub use declarations::too_many;
