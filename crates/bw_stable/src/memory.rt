//! Journals in memory.
ghost use Rattle.std.specs.Prelude.{◌≡◌, Some, OnOk, OnErr};
ghost use Rattle.bw_out.specs.Causes.{HasCause, raised};

use crate::log::Log;
use crate::outside::{Journal, Journals, ReadyDoor};
use bw_out::{Channel, Door, Failed, MemDoor};
use std::marker::Model;

/// The bytes of a journal's file, and for contracts what was done to it. A call fails where its number is among those
/// that fail, or where there is no memory for the bytes.
pub struct MemJournal<'a> {
    log: Log,
    file: Vec<u8>,
    // The file beside it, if there is one.
    beside: Option<Vec<u8>>,
    failing: &'a [u64],
    calls: u64,
    faults: u64,
}

impl<'a> Model for MemJournal<'a> {
    ghost use Rattle.std.specs.Option.{option_map};
    ghost use Rattle.bw_stable.specs.Memory.{JournalValue};

    ghost Value = { JournalValue };

    ghost view = { λ journal. record {
      deeds = journal.log.deeds;
      file = journal.file.items;
      beside = option_map (λ file. file.items) journal.beside;
      failing = journal.failing.now;
      calls = journal.calls;
      faults = journal.faults;
    } };
}

impl MemJournal<'_> {
    ghost use Rattle.std.specs.Prelude.{◌↔◌, Contains, IsErr};
    ghost use Rattle.bw_stable.specs.Memory.{begun, failed};

    /// Counts a call, which fails where it is to.
    fn begin(&mut self) -> Result<(), Failed>
        ensures fails { IsErr result ↔ Contains self.old.failing (raised self.old.calls) }
        ensures ok { OnOk result (self.new ≡ begun self.old) }
        ensures err { OnErr result (self.new ≡ failed self.old) }
    {
        self.calls = self.calls.saturating_add(1);
        if self.failing.contains(&self.calls) {
            self.faults = self.faults.saturating_add(1);
            return Err(Failed);
        }
        Ok(())
    }
}

impl Journal for MemJournal<'_> {
    ghost use Rattle.bw_stable.specs.Deeds.{Does, cut, kept, moved, named, renamed, settled, wrote};
    ghost use Rattle.bw_stable.specs.Memory.{with_deed};

    ghost deeds = { λ journal. Some journal.deeds };

    ghost is_sound = { λ journal. journal.faults ≡ 0 };

    ghost faults = { λ journal. journal.faults };

    fn cut(&mut self, len: u64) -> Result<(), Failed>
        requires { self.old.faults ≡ 0 }
        ensures done { OnOk result (Does (Some self.old.deeds) (Some self.new.deeds) (cut len)) }
        ensures untold { OnErr result (Some self.new.deeds ≡ Some self.old.deeds) }
        ensures sound { OnOk result (self.new.faults ≡ 0) }
        ensures cause { HasCause self.old.faults self.new.faults result }

        // Nothing else is done.
        ensures whole { OnOk result (self.new ≡ with_deed (cut len) self.old) }
    {
        self.begin()?;
        self.file.truncate(len as usize);
        self.log = self.log.and(&len);
        Ok(())
    }

    fn keep<D: Door, C: Channel>(
        &mut self,
        door: &D,
        channel: &C,
        bytes: &[u8],
    ) -> Result<(), Failed>
        requires { self.old.faults ≡ 0 }
        ensures done { OnOk result (Does (Some self.old.deeds) (Some self.new.deeds) (kept bytes.now (D.returned door.now) (C.held channel.now))) }
        ensures untold { OnErr result (Some self.new.deeds ≡ Some self.old.deeds) }
        ensures sound { OnOk result (self.new.faults ≡ 0) }
        ensures cause { HasCause self.old.faults self.new.faults result }

        // Nothing else is done.
        ensures whole { OnOk result (self.new ≡ with_deed (kept bytes.now (D.returned door.now) (C.held channel.now)) self.old) }
    {
        self.begin()?;
        if self.file.extend_from_slice(bytes).is_err() {
            self.faults = self.faults.saturating_add(1);
            return Err(Failed);
        }
        self.log = self.log.and(&(door, channel, bytes));
        Ok(())
    }

    fn write_beside(&mut self, bytes: &[u8]) -> Result<(), Failed>
        requires { self.old.faults ≡ 0 }
        ensures done { OnOk result (Does (Some self.old.deeds) (Some self.new.deeds) (moved (wrote bytes.now))) }
        ensures untold { OnErr result (Some self.new.deeds ≡ Some self.old.deeds) }
        ensures sound { OnOk result (self.new.faults ≡ 0) }
        ensures cause { HasCause self.old.faults self.new.faults result }

        // Nothing else is done.
        ensures whole { OnOk result (self.new ≡ with_deed (moved (wrote bytes.now)) self.old) }
    {
        self.begin()?;
        match Vec::from_slice(*self.file.allocator(), bytes) {
            Ok(file) => {
                self.log = self.log.and(&file);
                self.beside = Some(file);
                Ok(())
            }
            Err(_) => {
                self.faults = self.faults.saturating_add(1);
                Err(Failed)
            }
        }
    }

    fn settle_beside(&mut self) -> Result<(), Failed>
        requires { self.old.faults ≡ 0 }
        ensures done { OnOk result (Does (Some self.old.deeds) (Some self.new.deeds) (moved settled)) }
        ensures untold { OnErr result (Some self.new.deeds ≡ Some self.old.deeds) }
        ensures sound { OnOk result (self.new.faults ≡ 0) }
        ensures cause { HasCause self.old.faults self.new.faults result }

        // Nothing else is done.
        ensures whole { OnOk result (self.new ≡ with_deed (moved settled) self.old) }
    {
        self.begin()?;
        self.log = self.log.and(&());
        Ok(())
    }

    fn take_name(&mut self) -> Result<(), Failed>
        requires { self.old.faults ≡ 0 }
        ensures done { OnOk result (Does (Some self.old.deeds) (Some self.new.deeds) (moved renamed)) }
        ensures untold { OnErr result (Some self.new.deeds ≡ Some self.old.deeds) }
        ensures sound { OnOk result (self.new.faults ≡ 0) }
        ensures cause { HasCause self.old.faults self.new.faults result }

        // Nothing else is done.
        ensures whole { OnOk result (self.new ≡ with_deed (moved renamed) self.old) }
    {
        self.begin()?;
        if let Some(file) = self.beside.take() {
            self.file = file;
        }
        self.log = self.log.and(&());
        Ok(())
    }

    fn settle_names(&mut self) -> Result<(), Failed>
        requires { self.old.faults ≡ 0 }
        ensures done { OnOk result (Does (Some self.old.deeds) (Some self.new.deeds) (moved named)) }
        ensures untold { OnErr result (Some self.new.deeds ≡ Some self.old.deeds) }
        ensures sound { OnOk result (self.new.faults ≡ 0) }
        ensures cause { HasCause self.old.faults self.new.faults result }

        // Nothing else is done.
        ensures whole { OnOk result (self.new ≡ with_deed (moved named) self.old) }
    {
        self.begin()?;
        self.log = self.log.and(&());
        Ok(())
    }
}

/// One journal in memory, whatever its name. An opening fails where its number is among those that fail, or where the
/// journal is open.
#[derive(Drop)]
pub struct MemJournals<'a> {
    // What was done to the journal that was last closed.
    log: Log,
    // What the journal's file holds, unless it is open.
    file: Option<Vec<u8>>,
    openings: &'a [u64],
    failing: &'a [u64],
    calls: u64,
    faults: u64,
}

impl<'a> MemJournals<'a> {
    ghost use Rattle.std.specs.Option.{option_copied};
    ghost use Rattle.bw_stable.specs.MemJournals.{file_of, mem_faults_of};

    /// A journal whose file holds these bytes. The openings whose numbers are in `openings` fail, and of each journal the
    /// calls whose numbers are in `failing`, both counted from 1.
    pub fn new(file: Vec<u8>, openings: &'a [u64], failing: &'a [u64]) -> Self
        ensures { mem_faults_of result ≡ 0 }
    {
        MemJournals {
            log: Log::new(),
            file: Some(file),
            openings,
            failing,
            calls: 0,
            faults: 0,
        }
    }

    /// What the journal's file holds; none while it is open.
    pub fn file(&self) -> Option<&[u8]>
        ensures { option_copied result ≡ file_of self.now }
    {
        self.file.as_deref()
    }
}

impl<'a> Journals for MemJournals<'a> {
    type Journal = MemJournal<'a>;

    ghost deeds = { λ journals. Some journals.log.deeds };

    ghost faults = { λ journals. journals.faults };

    fn open_journal(&mut self, _name: &str) -> Result<MemJournal<'a>, Failed> {
        self.calls = self.calls.saturating_add(1);
        if self.openings.contains(&self.calls) {
            self.faults = self.faults.saturating_add(1);
            return Err(Failed);
        }
        match self.file.take() {
            Some(file) => Ok(MemJournal {
                log: Log::new(),
                file,
                beside: None,
                failing: self.failing,
                calls: 0,
                faults: 0,
            }),
            None => {
                self.faults = self.faults.saturating_add(1);
                Err(Failed)
            }
        }
    }

    fn close_journal(&mut self, journal: MemJournal<'a>) {
        let MemJournal {
            log,
            file,
            beside: _,
            failing: _,
            calls: _,
            faults,
        } = journal;
        self.log = log;
        if faults > 0 {
            self.faults = self.faults.saturating_add(1);
        }
        self.file = Some(file);
    }
}

impl ReadyDoor for MemDoor<'_> {
    /// Its links need never be waited for.
    fn is_ready(&self) -> bool {
        true
    }
}
