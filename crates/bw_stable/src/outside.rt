//! What the program asks of the outside for a journal.
ghost use Rattle.std.specs.Prelude.{◌≡◌, ◌≤◌, ◌<◌, ℕ, List, [], IfOk, IfSome, OnOk, OnErr};
ghost use Rattle.std.specs.declared.option.Option.{Option};
ghost use Rattle.bw_out.specs.Causes.{Rose, HasCause};
ghost use Rattle.bw_stable.specs.Deeds.{Deed, Does, cut, kept, moved, named, renamed, settled, wrote};

use bw_out::{Channel, Door, Failed};

/// A journal that is open: a file that grows by whole pieces, each of which is on the disk before the call ends. It has
/// no `Drop`, so it has to be closed.
pub trait Journal {
    /// What was done to it since it was opened, the oldest first, where told.
    ghost deeds: { Self → Option (List Deed) };

    /// No call of it has failed. After a failure nothing of it can be relied on, and it is not used again.
    ghost is_sound: { Self → Type 0 };

    /// The count of calls that failed.
    ghost faults: { Self → ℕ };

    /// Cuts the file behind its first bytes, so many, and returns once that is on the disk. A file that has no more
    /// stays as it is.
    ///
    /// `Failed` comes only where the count rose. The file is then cut or not, or less far.
    fn cut(&mut self, len: u64) -> Result<(), Failed>
        requires { is_sound self.old }
        ensures done { OnOk result (Does (deeds self.old) (deeds self.new) (cut len)) }
        ensures untold { OnErr result (deeds self.new ≡ deeds self.old) }
        ensures sound { OnOk result (is_sound self.new) }
        ensures cause { HasCause (faults self.old) (faults self.new) result };

    /// Puts bytes behind those that are there, and returns once they are on the disk. With them it is told what the door
    /// had given back by then, and what was written on the channel, which is all links that wait or where replies go.
    ///
    /// `Failed` comes only where the count rose. Some first part of the bytes is then there.
    fn keep<D: Door, C: Channel>(
        &mut self,
        door: &D,
        channel: &C,
        bytes: &[u8],
    ) -> Result<(), Failed>
        requires { is_sound self.old }
        ensures done { OnOk result (Does (deeds self.old) (deeds self.new) (kept bytes.now (D.returned door.now) (C.held channel.now))) }
        ensures untold { OnErr result (deeds self.new ≡ deeds self.old) }
        ensures sound { OnOk result (is_sound self.new) }
        ensures cause { HasCause (faults self.old) (faults self.new) result };

    /// Makes a file beside the journal's anew, with these bytes. The journal stays as it is.
    ///
    /// `Failed` comes only where the count rose. Anything may then be in the file beside.
    fn write_beside(&mut self, bytes: &[u8]) -> Result<(), Failed>
        requires { is_sound self.old }
        ensures done { OnOk result (Does (deeds self.old) (deeds self.new) (moved (wrote bytes.now))) }
        ensures untold { OnErr result (deeds self.new ≡ deeds self.old) }
        ensures sound { OnOk result (is_sound self.new) }
        ensures cause { HasCause (faults self.old) (faults self.new) result };

    /// Returns once all of the file beside is on the disk. `Failed` comes only where the count rose.
    fn settle_beside(&mut self) -> Result<(), Failed>
        requires { is_sound self.old }
        ensures done { OnOk result (Does (deeds self.old) (deeds self.new) (moved settled)) }
        ensures untold { OnErr result (deeds self.new ≡ deeds self.old) }
        ensures sound { OnOk result (is_sound self.new) }
        ensures cause { HasCause (faults self.old) (faults self.new) result };

    /// Gives the file beside the journal's name. It is the journal's file from then on, and the one before has no name.
    ///
    /// `Failed` comes only where the count rose. The name is then that of either.
    fn take_name(&mut self) -> Result<(), Failed>
        requires { is_sound self.old }
        ensures done { OnOk result (Does (deeds self.old) (deeds self.new) (moved renamed)) }
        ensures untold { OnErr result (deeds self.new ≡ deeds self.old) }
        ensures sound { OnOk result (is_sound self.new) }
        ensures cause { HasCause (faults self.old) (faults self.new) result };

    /// Returns once the names are on the disk. `Failed` comes only where the count rose.
    fn settle_names(&mut self) -> Result<(), Failed>
        requires { is_sound self.old }
        ensures done { OnOk result (Does (deeds self.old) (deeds self.new) (moved named)) }
        ensures untold { OnErr result (deeds self.new ≡ deeds self.old) }
        ensures sound { OnOk result (is_sound self.new) }
        ensures cause { HasCause (faults self.old) (faults self.new) result };
}

/// Where journals are kept. A journal is read as any other file is, before it is opened.
pub trait Journals {
    /// A journal that was opened. It has no `Drop`, so it has to be closed.
    type Journal: Journal;

    /// What was done to the journal that was last closed, where told.
    ghost deeds: { Self → Option (List Deed) };

    /// The count of openings that failed and of journals that had a fault when they were closed.
    ghost faults: { Self → ℕ };

    /// Opens the journal of a name, for this process alone; the file is made if there is none.
    ///
    /// `Failed` comes only where the count rose. It comes too where another process has the journal.
    fn open_journal(&mut self, name: &str) -> Result<Self::Journal, Failed>
        ensures quiet { IfOk result (λ journal. Self.Journal.faults journal ≡ 0) }
        ensures fresh { IfOk result (λ journal. IfSome (Self.Journal.deeds journal) (λ deeds. deeds ≡ [])) }
        ensures sound { IfOk result (λ journal. Self.Journal.is_sound journal) }
        ensures deeds { deeds self.new ≡ deeds self.old }
        ensures cause { HasCause (faults self.old) (faults self.new) result };

    /// Closes a journal, and tells from then on what was done to it. The count rises where the journal's isn't 0, and
    /// elsewhere it stays as it was.
    fn close_journal(&mut self, journal: Self::Journal)
        ensures deeds { deeds self.new ≡ Self.Journal.deeds journal }
        ensures failed { 0 < Self.Journal.faults journal → Rose (faults self.old) (faults self.new) }
        ensures quiet { Self.Journal.faults journal ≡ 0 → faults self.new ≡ faults self.old }
        ensures later { faults self.old ≤ faults self.new };
}

/// A door that says whether a link is at hand.
pub trait ReadyDoor: Door {
    /// Whether `next` has a link at hand, so that it needn't be waited for. Nothing rests on the answer but how many
    /// requests are kept at once.
    fn is_ready(&self) -> bool;
}
