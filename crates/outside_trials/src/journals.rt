//! Journals: their bytes, and their files.
ghost use Rattle.std.specs.Prelude.{◌≡◌, ◌<◌, ◌≤◌, ◌^◌, ◌++◌, length, IfOk, OnOk, OnErr};
ghost use Rattle.bw_out.specs.Causes.{HasCause, Rose};
ghost use Rattle.bw_journal.specs.Heads.{IsHead};
ghost use Rattle.bw_journal.specs.Layout.{entry_bytes, sum_after};
ghost use Rattle.bw_journal.specs.Reading.{IsNext, entry};
ghost use Rattle.bw_journal.specs.Saved.{IsSavedNext};
ghost use Rattle.bw_stable.specs.Deeds.{Does, DoesAll, DoesFirst, kept};
ghost use Rattle.bw_stable.specs.Disk.{faults_of, journal_faults_of};
ghost use Rattle.bw_stable.specs.Replacing.{replacing};

use bw_journal::{
    Found, FoundSaved, Head, MAX_ENTRY_BYTES, MAX_MESSAGE_BYTES, Next, next_entry, next_saved,
    put_entry, read_head,
};
use bw_out::{Channel, Door, Failed};
use bw_stable::{DiskJournal, DiskJournals, Journal, Journals, replace};
use std::alloc::AllocError;
use std::fs::File;
use std::rt;

/// The next entry of a journal: a torn end, and damage.
pub fn next(bytes: &[u8], sum: u64) -> Next<'_>
    ensures next { IsNext sum bytes.now result }
    ensures short { result ≡ Next.Short → length bytes.now < MAX_ENTRY_BYTES }
{
    next_entry(bytes, sum)
}

/// An entry is put behind the others: its key.
pub fn put(out: &mut Vec<u8>, key: u64, message: &[u8], sum: u64) -> Result<u64, AllocError>
    requires { length message.now ≤ MAX_MESSAGE_BYTES }
    ensures bytes { IfOk result (λ after. out.new.items ≡ out.old.items ++ entry_bytes sum (entry key message.now)) }
    ensures sum { IfOk result (λ after. after ≡ sum_after sum (entry key message.now)) }
    ensures kept { OnErr result (out.new.items ≡ out.old.items) }
{
    put_entry(out, key, message, sum)
}

/// The head of a journal: where it begins.
pub fn head<'a>(bytes: &'a [u8], text: &[u8]) -> Head<'a>
    requires { length text.now < 2 ^ 32 }
    ensures { IsHead text.now bytes.now result }
{
    read_head(bytes, text)
}

/// The saved world that a journal begins at: its check.
pub fn saved(bytes: &[u8], sum: u64) -> Option<FoundSaved<'_>>
    ensures { IsSavedNext sum bytes.now result }
{
    next_saved(bytes, sum)
}

/// A new file comes into a journal's place: the order of the deeds.
pub fn replaced<J: Journal>(journal: &mut J, bytes: &[u8]) -> Result<(), Failed>
    requires { J.is_sound journal.old }
    ensures done { OnOk result (DoesAll (J.deeds journal.old) (J.deeds journal.new) (replacing bytes.now)) }
    ensures begun { OnErr result (DoesFirst (J.deeds journal.old) (J.deeds journal.new) (replacing bytes.now)) }
    ensures sound { OnOk result (J.is_sound journal.new) }
    ensures cause { HasCause (J.faults journal.old) (J.faults journal.new) result }
{
    replace(journal, bytes)
}

/// A journal is closed: one of which a call failed.
pub fn close<R: rt::Files<File = File> + Copy>(
    journals: &mut DiskJournals<R>,
    _others: &mut DiskJournals<R>,
    journal: DiskJournal<R>,
)
    ensures failed { 0 < faults_of journal → Rose (journal_faults_of journals.old) (journal_faults_of journals.new) }
    ensures quiet { faults_of journal ≡ 0 → journal_faults_of journals.new ≡ journal_faults_of journals.old }
{
    journals.close_journal(journal)
}

/// Bytes are kept in a journal: where that fails.
pub fn keep<J: Journal, D: Door, C: Channel>(
    journal: &mut J,
    door: &D,
    channel: &C,
    bytes: &[u8],
) -> Result<(), Failed>
    requires { J.is_sound journal.old }
    ensures done { OnOk result (Does (J.deeds journal.old) (J.deeds journal.new) (kept bytes.now (D.returned door.now) (C.held channel.now))) }
    ensures sound { OnOk result (J.is_sound journal.new) }
    ensures cause { HasCause (J.faults journal.old) (J.faults journal.new) result }
{
    journal.keep(door, channel, bytes)
}
