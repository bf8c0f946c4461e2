//! Stable storage: what the program asks of the outside for a journal, a file that only grows and is kept on the disk.
//!
//! **What is told.** A journal tells what was done to it since it was opened (`Deed`): that the file was cut, or that
//! bytes were put behind it and kept. With the bytes it tells what the door had given back and what was written on the
//! links that waited by then: so contracts can say what was kept before a reply was begun. Telling is for contracts alone
//! and may be left out (`None`), as in all of the outside.
//!
//! **What a crash may leave** (`MayLeave`): what some first deeds made of the file, and of the next one a part: some
//! first bytes of those that were to be kept, or a file that is cut less far.
//!
//! **A new file in its place** (`replace`): it is written beside, comes onto the disk, takes the name, and then the names come
//! onto the disk. So a crash leaves the whole old file or the whole new one, which is a law.
//!
//! **After a failure** a journal is never used again. Nobody knows then what of the file is on the disk, and another try
//! may say that all is well: so a call demands that none before it has failed.
//!
//! **A journal has no `Drop`.** It has to be given to `Journals::close_journal`, or the program doesn't compile; so each
//! fault that it had is counted.
//!
//! The form in memory (`MemJournals`) tells everything, and fails where it was told to or without memory. The adapter
//! (`DiskJournals`) tells nothing of content. That the system keeps what it says to have kept is trusted.
#![tactic(auto)]

mod disk;
mod doors;
pub mod laws;
mod log;
mod memory;
mod outside;
mod replacing;
mod system;

pub use disk::{DiskJournal, DiskJournals};
pub use doors::WideDoor;
pub use memory::{MemJournal, MemJournals};
pub use outside::{Journal, Journals, ReadyDoor};
pub use replacing::replace;
