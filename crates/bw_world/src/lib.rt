//! The world of a service: its live sessions and its shared variables. One request is one step of it.
#![tactic(auto)]

mod away;
mod changes;
pub mod ends;
pub mod laws;
mod outcomes;
mod pages;
mod requests;
pub mod restoring;
mod state;
mod steps;
mod stream;
pub mod suspended;
mod turns;
pub mod world;

pub use ends::StreamEnd;
pub use outcomes::{Taken, want_of, without_request};
pub use requests::guarded;
pub use restoring::Parts;
pub use stream::answer;
pub use suspended::{Suspended, Suspendeds};
pub use world::World;
