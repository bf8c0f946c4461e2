//! What a crash leaves of a journal brings back the world, and from there the same requests come to the same as without the crash: for
//! entries that are kept, for links that are served and for streams that are answered.
#![tactic(auto)]

pub mod laws;
