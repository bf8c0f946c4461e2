//! Worlds as files: a world is frozen to the file of what waits in it, and thawed from the file again.
//!
//! What fits the file is proved, and nothing is tested as it is written: the weight is tested before, and from it follows
//! that every length and number fits its bytes, where no plug of a document filled nothing.
#![tactic(auto)]

mod documents;
mod fields;
mod filled;
mod freezing;
pub mod laws;
mod onward;
mod saving;
mod sessions;
mod thawing;
mod values;
mod weights;

pub use filled::is_all_filled;
pub use freezing::{FreezeFault, freeze};
pub use onward::{Frozen, freeze_on};
pub use saving::{SaveFault, save};
pub use thawing::thaw;
