//! What answering a stream beside a journal is lent.
ghost use Rattle.std.specs.Prelude.{◌≡◌, [], IfOk};
ghost use Rattle.bw_keeping.specs.Groups.{IsReady};

use crate::group::Group;
use crate::notes::Notes;
use bw_format::Formats;
use bw_http::Intake;
use bw_lang::Memory;
use bw_world::World;
use std::alloc::Global;

/// What requests are handled with: memory, the world, the formats of its fields, the keys to come, and the count of steps.
#[derive(Drop)]
pub struct Handler<'w, 'k, 's, K, S> {
    pub alloc: Global,
    pub world: &'w mut World,
    pub formats: &'w Formats,
    pub keys: &'k mut K,
    pub steps: &'s mut S,
}

/// The memory that answering a stream takes: for reading, for what is noted of a message, and for its entry.
#[derive(Drop)]
pub struct StreamRoom {
    pub intake: Intake,
    pub notes: Notes,
    pub group: Group,
}

impl StreamRoom {
    /// Nothing was read and nothing is to be kept, where this is the check behind the journal.
    pub fn new(alloc: Global, sum: u64) -> Result<StreamRoom, Memory>
        ensures none { IfOk result (λ room. room.intake ≡ []) }
        ensures ready { IfOk result (λ room. IsReady room.group) }
        ensures sum { IfOk result (λ room. room.group.sum ≡ sum) }
    {
        let intake = Intake::new(alloc)?;
        let notes = Notes::new(alloc)?;
        let group = Group::new(alloc, sum)?;
        Ok(StreamRoom {
            intake,
            notes,
            group,
        })
    }
}
