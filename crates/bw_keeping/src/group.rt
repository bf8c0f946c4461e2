//! Entries that are to be kept together.
ghost use Rattle.std.specs.Prelude.{◌≡◌, ◌≤◌, ◌<◌, ◌^◌, ◌↔◌, [], ◌∷◌, length, IsTrue, IfOk};
ghost use Rattle.bw_journal.specs.Reading.{entry};
ghost use Rattle.bw_keeping.specs.Groups.{Grows, HasRoom};

use bw_journal::{MAX_ENTRY_BYTES, MAX_MESSAGE_BYTES, put_entry};
use bw_lang::Memory;
use std::alloc::{AllocError, Global};
use std::marker::Model;

/// The bytes that a group has memory for.
const GROUP_BYTES: usize = 1_048_576;

/// The entries of requests that were handled and are to be kept together, with the memory for them. Contracts see the
/// bytes of the entries, the check behind them, and how many more bytes there is memory for.
#[derive(Drop)]
pub struct Group {
    bytes: Vec<u8>,
    sum: u64,
}

impl Model for Group {
    ghost use Rattle.std.specs.Prelude.{◌≤◌, ◌<◌, ◌-◌, ◌^◌, vec_len, vec_capacity};
    ghost use Rattle.bw_journal.specs.declared.limits.TheConstants.{MAX_ENTRY_BYTES};
    ghost use Rattle.bw_keeping.specs.Groups.{Grouped};

    ghost Value = { Grouped };

    ghost view = { λ g. record { bytes = g.bytes.items; sum = g.sum; room = vec_capacity g.bytes - vec_len g.bytes } };

    ghost invariant = { λ g. (MAX_ENTRY_BYTES ≤ vec_capacity g.bytes) × (g.sum < 2 ^ 64) };
}

impl Group {
    /// No entry yet, behind those that have this check. The memory for several entries is taken here.
    pub fn new(alloc: Global, sum: u64) -> Result<Group, Memory>
        ensures bytes { IfOk result (λ group. group.bytes ≡ []) }
        ensures sum { IfOk result (λ group. group.sum ≡ sum) }
        ensures room { IfOk result HasRoom }
    {
        let bytes = Vec::with_capacity(alloc, GROUP_BYTES)?;
        Ok(Group { bytes, sum })
    }

    /// The bytes of the entries.
    pub fn bytes(&self) -> &[u8]
        ensures { result.now ≡ self.now.bytes }
    {
        &self.bytes
    }

    /// Whether there is no entry.
    pub fn is_empty(&self) -> bool
        ensures { IsTrue result ↔ (self.now.bytes ≡ []) }
    {
        self.bytes.is_empty()
    }

    /// Whether there is memory for one entry more, however long it is.
    pub fn has_room(&self) -> bool
        ensures { IsTrue result ↔ HasRoom self.now }
    {
        self.bytes.capacity() - self.bytes.len() >= MAX_ENTRY_BYTES
    }

    /// The entries were kept. What comes is put behind them, in memory that is free again.
    pub fn clear(&mut self)
        ensures bytes { self.new.bytes ≡ [] }
        ensures sum { self.new.sum ≡ self.old.sum }
        ensures room { HasRoom self.new }
    {
        self.bytes.clear();
    }

    /// Puts the entry of a key and a message behind the others.
    pub(crate) fn enter(&mut self, key: u64, message: &[u8])
        requires room { HasRoom self.old }
        requires short { length message.now ≤ MAX_MESSAGE_BYTES }
        ensures { Grows self.old self.new (entry key message.now ∷ []) }
    {
        match put_entry(&mut self.bytes, key, message, self.sum) {
            Ok(sum) => self.sum = sum,
            Err(AllocError) => unreachable!(),
        }
    }
}
