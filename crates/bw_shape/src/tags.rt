//! Tables that give tags their numbers.
ghost use Rattle.std.specs.Prelude.{◌≡◌, ◌^◌, ◌<◌, [], length, Some, None, slice_get, MatchOption, OnOk, OnErr};
ghost use Rattle.bw_lang.specs.Table.Names.{name_number, with_name};

use bw_lang::{Memory, Name, NameTable};
use std::alloc::Global;
use std::marker::Model;

/// Tags, each of them once, in the order in which they were first seen. The number of a tag is its place, counted from 0.
/// Contracts see the list of the tags, of which there are fewer than 4,294,967,296.
#[derive(Drop)]
pub struct Tags {
    table: NameTable,
}

impl Model for Tags {
    ghost use Rattle.std.specs.Prelude.{ℕ, List, length, ◌<◌, ◌^◌};

    ghost Value = { List (List ℕ) };

    ghost view = { λ t. t.table };

    ghost invariant = { λ t. length t.table < 2 ^ 32 };
}

impl Tags {
    /// No tag yet.
    pub fn new(alloc: Global) -> Tags
        ensures { result ≡ [] }
    {
        Tags {
            table: NameTable::new(alloc),
        }
    }

    /// How many tags there are.
    pub fn len(&self) -> usize
        ensures len { result ≡ length self.now }
        ensures few { length self.now < 2 ^ 32 }
    {
        self.table.len()
    }

    /// The number of a tag, or, if it isn't there, the number that it would get: the number of tags.
    pub fn number(&self, tag: &Name) -> usize
        ensures number { result ≡ name_number self.now tag.now }
        ensures few { result < 2 ^ 32 }
    {
        self.table.number(tag.as_str())
    }

    /// The tag of this number, or none where there are no more than so many tags.
    pub fn name(&self, number: usize) -> Option<&str>
        ensures { MatchOption result (slice_get self.now number ≡ None) (λ s. slice_get self.now number ≡ Some s.now) }
    {
        self.table.name(number)
    }

    /// Takes a tag in, behind the others, unless it is there. `Memory` also says that there are no numbers left.
    pub fn add(&mut self, tag: &Name) -> Result<(), Memory>
        ensures ok { OnOk result (self.new ≡ with_name self.old tag.now) }
        ensures err { OnErr result (self.new ≡ self.old) }
    {
        if self.table.len() >= u32::MAX as usize {
            return Err(Memory);
        }
        self.table.add(tag.as_str())?;
        Ok(())
    }
}
