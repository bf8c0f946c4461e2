//! A world is brought back from its journal.
ghost use Rattle.std.specs.Prelude.{◌≡◌, ◌≤◌, ◌<◌, ◌+◌, ◌^◌, IfOk};
ghost use Rattle.bw_out.specs.Sends.{Takes};
ghost use Rattle.bw_recall.specs.Recalling.{Advances, IsAdvance, IsFew, IsShortEntry, Recalls};
ghost use Rattle.bw_recall.specs.Windows.{fresh};

use crate::handling::{One, handle_entry};
use crate::starting::{Mark, Reader};
use crate::window::{MAX_TEXT_BYTES, Window};
use bw_format::Formats;
use bw_http::Intake;
use bw_journal::{MAX_ENTRY_BYTES, Next, next_entry};
use bw_lang::Memory;
use bw_out::{Failed, Source, Steps};
use bw_world::World;
use std::alloc::Global;
use std::sync::ledger::Ledger;

/// What came of reading a journal.
#[derive(Clone, Copy, PartialEq, Eq)]
pub enum Recalled {
    /// Nothing was kept yet: there are no bytes, or less than a whole head.
    New,
    /// The world is that of its entries. They end behind so many bytes of the file; what stands there is less than an
    /// entry, and is to be cut off. This is the check behind them.
    Done { len: u64, sum: u64 },
    /// Behind so many bytes of the file stands neither an entry nor a first part of one, or an entry whose message is no
    /// request. At 0 there is no head.
    Damaged(u64),
    /// The head of another version.
    Version(u8),
    /// The head of another service.
    Other,
    /// A read failed.
    ReadFault,
    /// There was no memory, or the entries are more than any file has.
    Memory,
}

/// What came of one entry.
#[derive(Clone, Copy)]
pub(crate) enum Advance {
    /// It has so many bytes, and its request was handled. This is the check behind it.
    Entry { len: u64, sum: u64 },
    /// There is less than an entry.
    End,
    /// There is neither an entry nor a first part of one, or its message is no request.
    Wrong,
    /// A read failed.
    ReadFault,
    /// There was no memory.
    Memory,
}

/// More entries than any file has: so many of them have 3,900 TB at least.
const MAX_ENTRIES: u64 = 0x8000_0000_0000;

/// Handles the request of the entry that the bytes at hand begin with.
fn recall_held<L: Ledger>(
    alloc: Global,
    world: &mut World,
    formats: &Formats,
    intake: &mut Intake,
    window: &mut Window,
    sum: u64,
    steps: &mut Steps<L>,
) -> Advance
    ensures advances { IsAdvance formats.now world.old world.new sum window.old.bytes window.new.bytes result }
    ensures few { IsFew window.old.bytes result }
    ensures ended { window.new.ended ≡ window.old.ended }
    ensures size { window.new.size ≡ window.old.size }
    ensures service { world.new.service ≡ world.old.service }
    ensures steps { steps.old ≤ steps.new }
{
    match next_entry(window.bytes(), sum) {
        Next::Short => Advance::End,
        Next::Unsound => Advance::Wrong,
        Next::Whole(found) => {
            let len = window.bytes().len() - found.rest.len();
            let sum = found.sum;
            match handle_entry(
                alloc,
                world,
                formats,
                intake,
                found.key,
                found.message,
                steps,
            ) {
                One::Done => {
                    window.consume(len);
                    Advance::Entry {
                        len: len as u64,
                        sum,
                    }
                }
                One::NoRequest => Advance::Wrong,
                One::Memory => Advance::Memory,
            }
        }
    }
}

/// Handles the request of the next entry.
fn recall_next<S: Source, L: Ledger>(
    alloc: Global,
    world: &mut World,
    formats: &Formats,
    intake: &mut Intake,
    window: &mut Window,
    source: &mut S,
    sum: u64,
    steps: &mut Steps<L>,
) -> Advance
    requires { MAX_ENTRY_BYTES ≤ window.old.size }
    ensures advances { Advances formats.now world.old world.new sum window.old window.new (S.left source.old) (S.left source.new) result }
    ensures few { IsShortEntry result }
    ensures size { window.new.size ≡ window.old.size }
    ensures takes { Takes S.Channel source.old source.new (result ≡ Advance.ReadFault) }
    ensures service { world.new.service ≡ world.old.service }
    ensures steps { steps.old ≤ steps.new }
{
    match window.hold(source, MAX_ENTRY_BYTES) {
        Err(Failed) => Advance::ReadFault,
        Ok(()) => recall_held(alloc, world, formats, intake, window, sum, steps),
    }
}

/// Handles the requests of the entries behind the mark.
fn recall_entries<S: Source, L: Ledger>(
    alloc: Global,
    world: &mut World,
    formats: &Formats,
    intake: &mut Intake,
    window: &mut Window,
    source: &mut S,
    start: Mark,
    steps: &mut Steps<L>,
) -> Recalled
    requires room { MAX_ENTRY_BYTES ≤ window.old.size }
    requires start { start.len < 2 ^ 34 }
    ensures recalled { Recalls formats.now world.old world.new start.len start.sum window.old (S.left source.old) result }
    ensures takes { Takes S.Channel source.old source.new (result ≡ Recalled.ReadFault) }
    ensures service { world.new.service ≡ world.old.service }
    ensures steps { steps.old ≤ steps.new }
{
    let mut len = start.len;
    let mut sum = start.sum;
    'entries: for turn in 0..MAX_ENTRIES {
        match recall_next(alloc, world, formats, intake, window, source, sum, steps) {
            Advance::Entry {
                len: more,
                sum: after,
            } => {
                len += more;
                sum = after;
            }
            Advance::End => return Recalled::Done { len, sum },
            Advance::Wrong => return Recalled::Damaged(len),
            Advance::ReadFault => return Recalled::ReadFault,
            Advance::Memory => return Recalled::Memory,
        }
    }
    Recalled::Memory
}

/// Handles the requests of the entries behind the mark, each by its key, from the world that the journal begins at, and sends
/// no reply. The steps never fall.
///
/// `ReadFault` comes exactly where the count of the source rose; the world is then, and without memory, that of some of the
/// entries, and is of no use.
pub fn recall_behind<S: Source, L: Ledger>(
    alloc: Global,
    world: &mut World,
    formats: &Formats,
    reader: &mut Reader,
    source: &mut S,
    start: Mark,
    steps: &mut Steps<L>,
) -> Recalled
    requires room { MAX_ENTRY_BYTES ≤ reader.old.window.size }
    requires start { start.len < 2 ^ 34 }
    ensures recalled { Recalls formats.now world.old world.new start.len start.sum reader.old.window (S.left source.old) result }
    ensures takes { Takes S.Channel source.old source.new (result ≡ Recalled.ReadFault) }
    ensures service { world.new.service ≡ world.old.service }
    ensures steps { steps.old ≤ steps.new }
{
    recall_entries(
        alloc,
        world,
        formats,
        &mut reader.intake,
        &mut reader.window,
        source,
        start,
        steps,
    )
}

/// The memory for reading a journal whose head has so many bytes.
pub(crate) fn room_for(alloc: Global, head: usize) -> Result<(Window, Intake), Memory>
    requires { head < 2 ^ 33 }
    ensures { IfOk result (λ room. room.0 ≡ fresh (head + MAX_TEXT_BYTES)) }
{
    let window = Window::new(alloc, head + MAX_TEXT_BYTES)?;
    let intake = Intake::new(alloc)?;
    Ok((window, intake))
}
