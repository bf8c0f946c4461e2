//! The layout of a journal: a file that begins with the text of a service, holds requests with their keys one after
//! another, and only grows.
//!
//! **The head.** The letters `BWJOURNAL`, the version `1` and a line end; the service's file behind its length in four
//! bytes; and a byte that says where the journal begins: 0, at the world in which nothing was requested yet, or 1, at a saved
//! world. Its bytes follow then behind their length in eight bytes, with a check of eight behind them. Numbers are written with
//! their highest byte first.
//!
//! **An entry.** The length of its message in four bytes, its key in eight, and a check of eight; the bytes of its
//! message, and a check of eight. A check is that of all that stands before it, but for the checks themselves: so an
//! entry that was lost, doubled, moved or taken from another journal doesn't fit, and nor does one of a journal of
//! another service. The front has a check of its own, so that a damaged length isn't taken for that of a message whose
//! end isn't there yet.
//!
//! **What bytes are.** A first part of an entry that is less than all of it (`Short`) is what a crash leaves of the last
//! writes. Whatever else is no entry is damage (`Unsound`). The two are told apart by their form alone.
#![tactic(auto)]

mod entries;
mod fronts;
mod heads;
pub mod laws;
mod limits;
mod passing;
mod putting;
mod saving;
mod sums;
mod words;

pub use entries::{Found, Next, next_entry, put_entry};
pub use heads::{Head, head_bytes, put_head, read_head, start_sum};
pub use limits::{MAX_ENTRY_BYTES, MAX_MESSAGE_BYTES, MAX_SAVED_BYTES};
pub use saving::{FoundSaved, front_check, next_saved, put_saved_head, saved_size};
pub use sums::sum_over;
