//! The memory that serving takes.
ghost use Rattle.std.specs.Prelude.{◌≡◌, ◌<◌, ◌≤◌, ◌++◌, [], ◌∷◌, length, false, IfOk};
ghost use Rattle.bw_out.specs.Sends as sends;
ghost use Rattle.bw_keeping.specs.Groups.{HasRoom};
ghost use Rattle.bw_keeping.specs.Taking.{Takes};
ghost use Rattle.bw_world.specs.Streams.Answers.{place};
ghost use Rattle.bw_world.specs.Streams.Taking.{AreFit};
ghost use Rattle.bw_world.specs.declared.outcomes.Taken.TheVariants as takens;
ghost use Rattle.bw_keeping.specs.declared.waiting.TheConstants.{MAX_WAITING};
ghost use Rattle.bw_keeping.specs.declared.waiting.Waiting.{Waiting};

use crate::group::Group;
use crate::notes::Notes;
use crate::taking::take_kept;
use crate::waiting::{Queue, Waiting};
use bw_format::Formats;
use bw_http::Intake;
use bw_lang::Memory;
use bw_out::{Keys, Sink, Source, Steps};
use bw_world::World;
use std::alloc::Global;
use std::sync::ledger::Ledger;

/// The memory that serving takes: for reading, for what is noted of a message, for the entries that are to be kept
/// together, and for the links that wait.
pub struct Room<C> {
    pub(crate) intake: Intake,
    pub(crate) notes: Notes,
    pub group: Group,
    pub(crate) queue: Queue<C>,
}

impl<C> Room<C> {
    /// No link waits and nothing is to be kept, where this is the check behind the journal.
    pub fn new(alloc: Global, sum: u64) -> Result<Room<C>, Memory>
        ensures bytes { IfOk result (λ room. room.group.bytes ≡ []) }
        ensures sum { IfOk result (λ room. room.group.sum ≡ sum) }
        ensures queue { IfOk result (λ room. room.queue.links.items ≡ []) }
    {
        let intake = Intake::new(alloc)?;
        let notes = Notes::new(alloc)?;
        let group = Group::new(alloc, sum)?;
        let queue = Queue::new(alloc)?;
        Ok(Room {
            intake,
            notes,
            group,
            queue,
        })
    }

    /// Whether what waits is due to be kept and answered: no further link is at hand, or as much waits as may be.
    pub(crate) fn is_due(&self, is_ready: bool) -> bool
        ensures room { result ≡ false → HasRoom self.now.group }
        ensures few { result ≡ false → length self.now.queue.links.items < MAX_WAITING }
    {
        let waits_in_vain = !is_ready && !self.queue.is_empty();
        waits_in_vain || self.queue.is_full() || !self.group.has_room()
    }

    /// Lets the memory go, where no link waits.
    pub fn close(self)
        requires { self.queue.links.items ≡ [] }
    {
        let Room {
            intake: _,
            notes: _,
            group: _,
            queue,
        } = self;
        queue.close();
    }
}

impl<C: Source + Sink> Room<C> {
    /// Takes a message of a link that came, and handles it. The link then waits, and what is to be kept of its message is
    /// in the group.
    pub(crate) fn take_in<K: Keys, L: Ledger>(
        &mut self,
        alloc: Global,
        world: &mut World,
        formats: &Formats,
        mut link: C,
        keys: &mut K,
        steps: &mut Steps<L>,
    )
        requires room { HasRoom self.old.group }
        requires few { length self.old.queue.links.items < MAX_WAITING }
        ensures taken { (waiting : Waiting C) × (self.new.queue.links.items ≡ self.old.queue.links.items ++ waiting ∷ [])
            × Takes formats.now world.old.service (place C.Channel world.old [] link (K.coming keys.old) steps.old)
            (place C.Channel world.new self.new.intake waiting.link (K.coming keys.new) steps.new) self.old.group self.new.group waiting.taken
            × AreFit world.old.service waiting.taken
            × sends.Takes C.Channel link waiting.link (waiting.taken ≡ takens.ReadFault) }
        ensures service { world.new.service ≡ world.old.service }
    {
        self.intake.clear();
        let taken = take_kept(
            alloc,
            world,
            formats,
            &mut self.intake,
            &mut self.notes,
            &mut link,
            keys,
            steps,
            &mut self.group,
        );
        self.queue.push(Waiting { link, taken });
    }
}
