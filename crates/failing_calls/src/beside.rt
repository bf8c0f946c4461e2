//! Runs beside a journal in memory whose calls fail as they are told to.
use crate::door::GroupDoor;
use crate::runs::{
    Lent, ROOM, TWICE, door_of, held_by, service_file, sound, status_of, whole_file,
};
use crate::wrongs::Wrong;
use bw_out::{MemDoor, MemFile, MemSink};
use bw_stable::MemJournals;
use std::alloc::{AllocError, Global};
use std::num::NonZeroUsize;
use std::thread::Threads;

/// How a run beside a journal goes.
#[derive(Clone, Copy)]
pub struct Beside<'a> {
    /// What the journal holds before.
    pub journal: &'a [u8],
    /// Whether all links are at hand at once, so that they are kept together; else each is kept for itself.
    pub is_ready: bool,
    /// Whether the journal is begun anew, however short it is.
    pub rotates: bool,
    /// The numbers of the openings of the journal that fail.
    pub openings: &'a [u64],
    /// The numbers of the other calls of it that fail.
    pub failing: &'a [u64],
}

/// What came of a run beside a journal: its exit code, what it printed, what the links and the journal hold.
#[derive(Drop)]
pub struct Kept {
    pub status: u8,
    pub output: Vec<u8>,
    pub held: Vec<Vec<u8>>,
    pub journal: Vec<u8>,
}

/// Serves these links beside a journal.
pub fn keep<R: Threads + Sync>(
    rt: &R,
    alloc: Global,
    requests: &[&[u8]],
    beside: Beside<'_>,
) -> Result<Kept, Wrong> {
    let calls = sound(NonZeroUsize::MAX);
    let mut lent = Lent {
        journals: journals_of(alloc, beside)?,
        door: GroupDoor {
            door: door_of(alloc, requests, 0, calls)?,
            is_ready: beside.is_ready,
        },
        out: MemSink::new(alloc, ROOM, usize::MAX, &[])?,
    };
    let kept = keep_by(rt, alloc, beside, &mut lent);
    drop(lent);
    kept
}

/// The journal as it is before the run.
fn journals_of<'a>(alloc: Global, beside: Beside<'a>) -> Result<MemJournals<'a>, Wrong> {
    let file = Vec::from_slice(alloc, beside.journal)?;
    Ok(MemJournals::new(file, beside.openings, beside.failing))
}

/// The words by which links are served beside a journal.
const SERVES: [&str; 4] = ["serve", "s", "--journal", "j"];

/// The same beside one that is begun anew, however short it is.
const ROTATES: [&str; 6] = ["serve", "s", "--journal", "j", "--rotate", "1"];

/// Serves the links of a door beside a journal.
fn keep_by<R: Threads + Sync>(
    rt: &R,
    alloc: Global,
    beside: Beside<'_>,
    lent: &mut Lent<'_, GroupDoor<'_>>,
) -> Result<Kept, Wrong> {
    let folder = [service_file(TWICE), whole_file("j", beside.journal)];
    let status = if beside.rotates {
        status_of(rt, alloc, &ROTATES, &folder, lent)
    } else {
        status_of(rt, alloc, &SERVES, &folder, lent)
    };
    Ok(Kept {
        status: status?,
        output: Vec::from_slice(alloc, lent.out.bytes())?,
        held: held_by(alloc, lent.door.door.returned())?,
        journal: content_of(alloc, &lent.journals)?,
    })
}

/// What a journal that held this holds behind a run by these words over these files.
pub fn left_by<R: Threads + Sync>(
    rt: &R,
    alloc: Global,
    words: &[&str],
    folder: &[MemFile<'_>],
    journal: &[u8],
) -> Result<Vec<u8>, Wrong> {
    let mut lent = Lent {
        journals: MemJournals::new(Vec::from_slice(alloc, journal)?, &[], &[]),
        door: MemDoor::new(alloc, Vec::new(alloc))?,
        out: MemSink::new(alloc, ROOM, usize::MAX, &[])?,
    };
    let status = status_of(rt, alloc, words, folder, &mut lent);
    let left = content_of(alloc, &lent.journals);
    drop(lent);
    match status? {
        0 => Ok(left?),
        _ => Err(Wrong::Memory),
    }
}

/// What the journal's file holds.
fn content_of(alloc: Global, journals: &MemJournals<'_>) -> Result<Vec<u8>, AllocError> {
    match journals.file() {
        Some(content) => Vec::from_slice(alloc, content),
        None => Ok(Vec::new(alloc)),
    }
}
