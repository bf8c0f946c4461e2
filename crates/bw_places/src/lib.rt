//! Where the parts of a service stand in its text.
#![tactic(auto)]

mod counting;
pub mod laws;
mod scopes;
mod seeking;
pub mod span;
pub mod spelled;
mod tags;

pub use counting::declaration_tokens;
pub use scopes::locals_at;
pub use seeking::{declaration, statements};
pub use span::Span;
pub use spelled::Spelled;
pub use tags::tag_place;
