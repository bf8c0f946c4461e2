//! Where a journal begins is read.
ghost use Rattle.std.specs.Prelude.{◌≡◌, ◌≤◌, ◌<◌, ◌+◌, ◌^◌, length, IfOk, IfSome, Some};
ghost use Rattle.bw_journal.specs.Heads.{head_of};
ghost use Rattle.bw_journal.specs.declared.limits.TheConstants.{MAX_ENTRY_BYTES};
ghost use Rattle.bw_journal.specs.Saved.{IsSavedSize};
ghost use Rattle.bw_out.specs.Sends.{Takes};
ghost use Rattle.bw_recall.specs.Starting.{IsMarked, IsSavedIn, IsStarted, StartsSaved};
ghost use Rattle.bw_recall.specs.Windows.{fresh};

use crate::recalling::room_for;
use crate::window::{MAX_TEXT_BYTES, Window};
use bw_http::Intake;
use bw_journal::{Head, front_check, head_bytes, next_saved, read_head, saved_size, start_sum};
use bw_lang::Memory;
use bw_out::{Failed, Source};
use std::alloc::Global;

/// What a journal begins with.
#[derive(Drop)]
pub enum Started {
    /// Nothing was kept yet: there are no bytes, or less than a whole head.
    New,
    /// It begins at the world in which nothing was requested yet, and its entries behind this mark.
    Empty(Mark),
    /// It begins at the world of these saved bytes, and its entries behind this mark.
    Saved(Vec<u8>, Mark),
    /// Behind so many bytes of the file stands no saved world, whole with its check. At 0 there is no head.
    Damaged(u64),
    /// The head of another version.
    Version(u8),
    /// The head of another service.
    Other,
    /// A read failed.
    ReadFault,
    /// There was no memory.
    Memory,
}

/// How far a journal was read: behind so many bytes of the file, with this check.
#[derive(Clone, Copy)]
pub struct Mark {
    pub len: u64,
    pub sum: u64,
}

/// The memory for reading a journal: about 1 MiB of its file are at hand at a time.
#[derive(Drop)]
pub struct Reader {
    pub(crate) window: Window,
    pub(crate) intake: Intake,
}

impl Reader {
    /// The memory for reading a journal of the service whose file is the text.
    pub fn new(alloc: Global, text: &[u8]) -> Result<Reader, Memory>
        requires { length text.now < 2 ^ 32 }
        ensures { IfOk result (λ reader. reader.window ≡ fresh (length (head_of text.now) + MAX_TEXT_BYTES)) }
    {
        match room_for(alloc, head_bytes(text)) {
            Err(Memory) => Err(Memory),
            Ok((window, intake)) => Ok(Reader { window, intake }),
        }
    }
}

/// Reads where the journal of the service whose file is the text begins, where the source is at its first byte.
///
/// A saved world is held whole beside what is at hand, and its check has been tested. `ReadFault` comes exactly where the
/// count of the source rose.
pub fn read_start<S: Source>(
    alloc: Global,
    reader: &mut Reader,
    source: &mut S,
    text: &[u8],
) -> Started
    requires text { length text.now < 2 ^ 32 }
    requires window { reader.old.window ≡ fresh (length (head_of text.now) + MAX_TEXT_BYTES) }
    ensures started { IfSome (S.left source.old) (λ bytes. IsStarted text.now bytes reader.new.window (S.left source.new) result) }
    ensures room { MAX_ENTRY_BYTES ≤ reader.new.window.size }
    ensures mark { IsMarked result }
    ensures takes { Takes S.Channel source.old source.new (result ≡ Started.ReadFault) }
{
    let from = head_bytes(text);
    match reader.window.hold(source, from + MAX_TEXT_BYTES) {
        Err(Failed) => Started::ReadFault,
        Ok(()) => match read_head(reader.window.bytes(), text) {
            Head::Begun => Started::New,
            Head::Version(version) => Started::Version(version),
            Head::Other => Started::Other,
            Head::Damaged => Started::Damaged(0),
            Head::Whole(_) => {
                reader.window.consume(from);
                Started::Empty(Mark {
                    len: from as u64,
                    sum: start_sum(text),
                })
            }
            Head::Saved(_) => {
                reader.window.consume(from);
                let start = Mark {
                    len: from as u64,
                    sum: front_check(text),
                };
                read_saved(alloc, &mut reader.window, source, start)
            }
        },
    }
}

/// The bytes of a saved world's length.
const LENGTH_BYTES: usize = 8;

/// Reads a saved world behind the mark.
fn read_saved<S: Source>(alloc: Global, window: &mut Window, source: &mut S, start: Mark) -> Started
    requires room { MAX_ENTRY_BYTES ≤ window.old.size }
    requires start { start.len < 2 ^ 33 }
    ensures starts { StartsSaved start window.old window.new (S.left source.old) (S.left source.new) result }
    ensures room { window.old.size ≤ window.new.size }
    ensures mark { IsMarked result }
    ensures takes { Takes S.Channel source.old source.new (result ≡ Started.ReadFault) }
{
    match window.hold(source, LENGTH_BYTES) {
        Err(Failed) => Started::ReadFault,
        Ok(()) => match saved_size(window.bytes()) {
            None => Started::Damaged(start.len),
            Some(size) => hold_saved(alloc, window, source, start, size),
        },
    }
}

/// The same where the saved world has so many bytes with its length and its check.
fn hold_saved<S: Source>(
    alloc: Global,
    window: &mut Window,
    source: &mut S,
    start: Mark,
    size: usize,
) -> Started
    requires start { start.len < 2 ^ 33 }
    requires size { IsSavedSize window.old.bytes (Some size) }
    ensures starts { StartsSaved start window.old window.new (S.left source.old) (S.left source.new) result }
    ensures room { window.old.size ≤ window.new.size }
    ensures mark { IsMarked result }
    ensures takes { Takes S.Channel source.old source.new (result ≡ Started.ReadFault) }
{
    match window.grow(size) {
        Err(Memory) => Started::Memory,
        Ok(()) => hold_grown(alloc, window, source, start, size),
    }
}

/// The same where there is room for so many bytes.
fn hold_grown<S: Source>(
    alloc: Global,
    window: &mut Window,
    source: &mut S,
    start: Mark,
    size: usize,
) -> Started
    requires start { start.len < 2 ^ 33 }
    requires size { IsSavedSize window.old.bytes (Some size) }
    requires room { size ≤ window.old.size }
    ensures starts { StartsSaved start window.old window.new (S.left source.old) (S.left source.new) result }
    ensures room { window.new.size ≡ window.old.size }
    ensures mark { IsMarked result }
    ensures takes { Takes S.Channel source.old source.new (result ≡ Started.ReadFault) }
{
    match window.hold(source, size) {
        Err(Failed) => Started::ReadFault,
        Ok(()) => take_saved(alloc, window, start),
    }
}

/// Takes the saved world that the bytes at hand begin with.
fn take_saved(alloc: Global, window: &mut Window, start: Mark) -> Started
    requires { start.len < 2 ^ 33 }
    ensures saved { IsSavedIn start window.old.bytes window.new.bytes result }
    ensures ended { window.new.ended ≡ window.old.ended }
    ensures size { window.new.size ≡ window.old.size }
    ensures mark { IsMarked result }
{
    match next_saved(window.bytes(), start.sum) {
        None => Started::Damaged(start.len),
        Some(found) => {
            let size = window.bytes().len() - found.rest.len();
            let behind = Mark {
                len: start.len + size as u64,
                sum: found.sum,
            };
            match Vec::from_slice(alloc, found.saved) {
                Err(_) => Started::Memory,
                Ok(saved) => {
                    window.consume(size);
                    Started::Saved(saved, behind)
                }
            }
        }
    }
}
