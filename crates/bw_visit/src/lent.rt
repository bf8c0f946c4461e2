//! What a visit is lent, and the memory that it takes.
ghost use Rattle.std.specs.Prelude.{◌≡◌, [], IfOk};

use crate::limits::MAX_REPLY_BYTES;
use bw_format::Formats;
use bw_http::Intake;
use bw_lang::Memory;
use bw_out::MemSink;
use bw_world::World;
use std::alloc::Global;

/// What messages are answered with: memory, the world, the formats of its fields, the keys to come, and the count of steps.
#[derive(Drop)]
pub struct Host<'w, 'k, 's, K, S> {
    pub alloc: Global,
    pub world: &'w mut World,
    pub formats: &'w Formats,
    pub keys: &'k mut K,
    pub steps: &'s mut S,
}

/// The memory that a visit takes: for reading a message, for the reply to it, and for the message.
#[derive(Drop)]
pub(crate) struct Room<'a> {
    pub(crate) intake: Intake,
    pub(crate) sink: MemSink<'a>,
    pub(crate) message: Vec<u8>,
}

impl<'a> Room<'a> {
    /// No message yet. The memory for reading and for replies is taken here.
    pub(crate) fn new(alloc: Global) -> Result<Room<'a>, Memory>
        ensures { IfOk result (λ room. room.message.items ≡ []) }
    {
        let intake = Intake::new(alloc)?;
        let sink = MemSink::new(alloc, MAX_REPLY_BYTES, MAX_REPLY_BYTES, &[])?;
        Ok(Room {
            intake,
            sink,
            message: Vec::new(alloc),
        })
    }
}
