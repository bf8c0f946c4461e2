//! What is shown behind the line of a refusal: where in the text it is, what is wrong, and how it is mended.
#![tactic(auto)]

mod aim;
mod attributes;
mod blocks;
mod finding;
mod gaps;
mod known;
pub mod laws;
mod marks;
mod markup;
mod meant;
mod names;
mod pairing;
mod places;
mod spelling;
mod tags;
mod templates;
mod walk;

pub use aim::{Aim, aim_at, no_aim};
pub use blocks::{
    push_facts_block, push_fault_block, push_points_block, push_syntax_block, push_type_block,
};
pub use bw_excerpt::Paper;
pub use known::{Known, Tokened, read_known, with_tokens};
pub use marks::{Marks, marks_of};
