//! A service beside a journal: links are served (`serve_kept`), or the messages of one stream answered (`answer_kept`), so that
//! what is kept of a message is in the journal before a byte of its reply is sent.
//!
//! **What is kept.** A journal keeps of each request that a page answered the bytes of its message and the key that was
//! drawn for it. A request is one step of the world by its key, so these entries, one after another, bring about the world
//! again (`recall_behind` of `bw_recall`). Each other reply leaves the world as it was, and nothing of its request is kept.
//!
//! **Groups.** A link that came waits with its reply until no further link is at hand, or until as many wait as may be. Then
//! what is kept of all of them goes into the journal in one piece, and they are sent their replies in the order in which
//! they came. So where many clients come at once, one wait for the disk serves many of them.
//!
//! **A stream** is answered message by message: the entry of each is kept in a piece of its own.
//!
//! **What is promised.** `serve_kept` says what each link that was given back got, by one run of the world over all of them,
//! and that its entry stood in a piece that was kept while neither it nor a later link had been given back. Where the
//! door or the journal fails, the links of which nothing was kept are given back without a byte. `answer_kept` says what each
//! message of the stream got, and what had been written when its entry was kept: the replies in front, and nothing of its own.
#![tactic(auto)]

pub mod ended;
mod flushing;
mod group;
pub mod laws;
pub mod lent;
mod notes;
mod replying;
mod room;
mod serving;
mod streaming;
mod taking;
mod waiting;

pub use ended::{Ended, StreamEnded};
pub use group::Group;
pub use lent::{Handler, StreamRoom};
pub use notes::Notes;
pub use room::Room;
pub use serving::serve_kept;
pub use streaming::answer_kept;
pub use taking::take_kept;
