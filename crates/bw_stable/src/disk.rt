//! Journals in files of the system.
ghost use Rattle.std.specs.Prelude.{◌≡◌, ◌≤◌, ◌<◌, None, Some, IfOk, IsSome, OnOk, OnErr, string_bytes};
ghost use Rattle.bw_out.specs.Adapters.{IsNoted};
ghost use Rattle.bw_out.specs.Causes.{HasCause, Rose};
ghost use Rattle.bw_stable.specs.Disk.{faults_of, trouble_of, journal_faults_of, journal_name_of, journal_trouble_of};

use crate::outside::{Journal, Journals};
use crate::system::{
    Names, cut_file, kind_of, make_file, open_named, sync_beside, sync_folder, write_to,
};
use bw_out::{Channel, Door, Failed, Writing};
use std::alloc::Global;
use std::fs::File;
use std::io::ErrorKind;
use std::{fs, rt};

/// A file of the system that is open for this process alone. It tells nothing of what the file holds.
///
/// A write that is interrupted is tried again up to 100 times in a row. A write or a sync that failed is never tried
/// again.
pub struct DiskJournal<R> {
    rt: R,
    // Its name, and that of the file beside it.
    name: String,
    new_name: String,
    file: Writing<File>,
    // The file beside it, if one was made. It is locked as it is made, and keeps its lock as it takes the name.
    beside: Option<Writing<File>>,
    trouble: Option<ErrorKind>,
    faults: u64,
}

impl<R> DiskJournal<R> {
    /// A file that was opened, of which no call failed yet.
    fn new(rt: R, names: Names, file: File) -> DiskJournal<R>
        ensures { faults_of result ≡ 0 }
    {
        let Names { name, new_name } = names;
        DiskJournal {
            rt,
            name,
            new_name,
            file: Writing::new(file),
            beside: None,
            trouble: None,
            faults: 0,
        }
    }

    /// Counts a failure, and notes why it came.
    fn fail(&mut self, kind: ErrorKind) -> Failed
        ensures rose { Rose (faults_of self.old) (faults_of self.new) }
        ensures noted { trouble_of self.new ≡ Some kind }
    {
        self.trouble = Some(kind);
        self.faults = self.faults.saturating_add(1);
        Failed
    }

    /// Counts a failure, if there was one, and notes why it came.
    fn tell(&mut self, outcome: Result<(), ErrorKind>) -> Result<(), Failed>
        requires { faults_of self.old ≡ 0 }
        ensures sound { OnOk result (faults_of self.new ≡ 0) }
        ensures cause { HasCause (faults_of self.old) (faults_of self.new) result }
        ensures noted { OnErr result (IsSome (trouble_of self.new)) }
    {
        match outcome {
            Ok(()) => Ok(()),
            Err(kind) => Err(self.fail(kind)),
        }
    }

    /// Writes bytes behind those that are there.
    fn write(&mut self, bytes: &[u8]) -> Result<(), Failed>
        requires { faults_of self.old ≡ 0 }
        ensures sound { OnOk result (faults_of self.new ≡ 0) }
        ensures cause { HasCause (faults_of self.old) (faults_of self.new) result }
        ensures noted { OnErr result (IsSome (trouble_of self.new)) }
    {
        let outcome = write_to(&mut self.file, bytes);
        self.tell(outcome)
    }

    /// Cuts the file, if it is longer.
    fn shorten(&mut self, len: u64) -> Result<(), Failed>
        requires { faults_of self.old ≡ 0 }
        ensures sound { OnOk result (faults_of self.new ≡ 0) }
        ensures cause { HasCause (faults_of self.old) (faults_of self.new) result }
        ensures noted { OnErr result (IsSome (trouble_of self.new)) }
    {
        let outcome = kind_of(cut_file(&self.file.inner, len));
        self.tell(outcome)
    }

    /// Returns once what was written and cut is on the disk. After a failure the next sync may say that all is well,
    /// though it isn't: so there is none.
    fn sync(&mut self) -> Result<(), Failed>
        requires { faults_of self.old ≡ 0 }
        ensures sound { OnOk result (faults_of self.new ≡ 0) }
        ensures cause { HasCause (faults_of self.old) (faults_of self.new) result }
        ensures noted { OnErr result (IsSome (trouble_of self.new)) }
    {
        let outcome = kind_of(self.file.inner.sync_data());
        self.tell(outcome)
    }
}

impl<R: rt::Files<File = File>> Journal for DiskJournal<R> {
    ghost deeds = { λ _. None };

    ghost is_sound = { λ journal. faults_of journal ≡ 0 };

    ghost faults = { faults_of };

    fn cut(&mut self, len: u64) -> Result<(), Failed> {
        self.shorten(len)?;
        self.sync()
    }

    fn keep<D: Door, C: Channel>(
        &mut self,
        _door: &D,
        _channel: &C,
        bytes: &[u8],
    ) -> Result<(), Failed> {
        self.write(bytes)?;
        self.sync()
    }

    fn write_beside(&mut self, bytes: &[u8]) -> Result<(), Failed> {
        match make_file(&self.rt, self.new_name.as_str(), bytes) {
            Ok(file) => {
                self.beside = Some(file);
                Ok(())
            }
            Err(kind) => Err(self.fail(kind)),
        }
    }

    fn settle_beside(&mut self) -> Result<(), Failed> {
        let outcome = sync_beside(&self.beside);
        self.tell(outcome)
    }

    /// Where no file was made beside it by this journal, no name changes.
    fn take_name(&mut self) -> Result<(), Failed> {
        match self.beside.take() {
            None => Err(self.fail(ErrorKind::NotFound)),
            Some(file) => {
                match kind_of(fs::rename(&self.rt, self.new_name.as_str(), self.name.as_str())) {
                    Ok(()) => {
                        self.file = file;
                        Ok(())
                    }
                    Err(kind) => {
                        self.beside = Some(file);
                        Err(self.fail(kind))
                    }
                }
            }
        }
    }

    fn settle_names(&mut self) -> Result<(), Failed> {
        let outcome = kind_of(sync_folder(&self.rt, self.name.as_str()));
        self.tell(outcome)
    }
}

/// Journals in files of the system. It counts the openings that failed and the journals that had a fault as they were
/// closed, and notes why, with the name that was last asked for.
///
/// A journal's file is made for its owner alone, who may read and write it, and locked while it is open. So is the file that
/// takes its place.
#[derive(Drop)]
pub struct DiskJournals<R> {
    alloc: Global,
    rt: R,
    name: String,
    trouble: Option<ErrorKind>,
    faults: u64,
}

impl<R> DiskJournals<R> {
    /// The journals of this runtime, of which no opening failed yet. `alloc` is where the names are noted.
    pub fn new(alloc: Global, rt: R) -> Self
        ensures { journal_faults_of result ≡ 0 }
    {
        DiskJournals {
            alloc,
            rt,
            name: String::new(alloc),
            trouble: None,
            faults: 0,
        }
    }

    /// The name that was last asked for; empty where there was no memory to note it, or where none was asked for.
    pub fn last_name(&self) -> &str
        ensures { result.now ≡ journal_name_of self.now }
    {
        self.name.as_str()
    }

    /// Why the last opening failed, or the last call of a journal that was closed with a fault since. None where neither
    /// failed. A journal that another process has is told as `WouldBlock`.
    pub fn trouble(&self) -> Option<ErrorKind>
        ensures { result ≡ journal_trouble_of self.now }
    {
        self.trouble
    }
}

impl<R: Copy> DiskJournals<R> {
    /// Counts an opening that failed, and notes why.
    fn tell(&mut self, opened: Result<(Names, File), ErrorKind>) -> Result<DiskJournal<R>, Failed>
        ensures quiet { IfOk result (λ journal. faults_of journal ≡ 0) }
        ensures cause { HasCause (journal_faults_of self.old) (journal_faults_of self.new) result }
        ensures noted { OnErr result (IsSome (journal_trouble_of self.new)) }
        ensures none { OnOk result (journal_trouble_of self.new ≡ None) }
        ensures named { journal_name_of self.new ≡ journal_name_of self.old }
    {
        match opened {
            Ok((names, file)) => {
                self.trouble = None;
                Ok(DiskJournal::new(self.rt, names, file))
            }
            Err(kind) => {
                self.trouble = Some(kind);
                self.faults = self.faults.saturating_add(1);
                Err(Failed)
            }
        }
    }
}

impl<R: rt::Files<File = File> + Copy> Journals for DiskJournals<R> {
    type Journal = DiskJournal<R>;

    ghost deeds = { λ _. None };

    ghost faults = { journal_faults_of };

    fn open_journal(&mut self, name: &str) -> Result<DiskJournal<R>, Failed>
        ensures quiet { IfOk result (λ journal. faults_of journal ≡ 0) }
        ensures sound { IfOk result (λ journal. faults_of journal ≡ 0) }
        ensures cause { HasCause (journal_faults_of self.old) (journal_faults_of self.new) result }

        // Why it failed is noted, and which journal was asked for.
        ensures noted { OnErr result (IsSome (journal_trouble_of self.new)) }
        ensures none { OnOk result (journal_trouble_of self.new ≡ None) }
        ensures named { IsNoted (journal_name_of self.new) name.now }
    {
        note_name(&mut self.name, name);
        let opened = open_named(self.alloc, &self.rt, name);
        self.tell(opened)
    }

    fn close_journal(&mut self, journal: DiskJournal<R>)
        ensures failed { 0 < faults_of journal → Rose (journal_faults_of self.old) (journal_faults_of self.new) }
        ensures quiet { faults_of journal ≡ 0 → journal_faults_of self.new ≡ journal_faults_of self.old }
        ensures later { journal_faults_of self.old ≤ journal_faults_of self.new }

        // Why a call of it failed is noted from then on.
        ensures noted { 0 < faults_of journal → journal_trouble_of self.new ≡ trouble_of journal }
        ensures kept { faults_of journal ≡ 0 → journal_trouble_of self.new ≡ journal_trouble_of self.old }
        ensures named { journal_name_of self.new ≡ journal_name_of self.old }
    {
        let DiskJournal {
            rt: _,
            name: _,
            new_name: _,
            file,
            beside,
            trouble,
            faults,
        } = journal;
        drop(file);
        drop(beside);
        if faults > 0 {
            self.trouble = trouble;
            self.faults = self.faults.saturating_add(1);
        }
    }
}

/// Notes a name in place of what was noted, or nothing where there is no memory for it.
fn note_name(noted: &mut String, name: &str)
    ensures { IsNoted (string_bytes noted.new) name.now }
{
    noted.clear();
    let _ = noted.push_str(name);
}
