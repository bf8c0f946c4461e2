//! What is saved.
ghost use Rattle.std.specs.Prelude.{◌≡◌, ◌++◌, ◌∷◌, [], length, MatchOption, OnOk, OnErr};

use bw_doc::Doc;
use bw_lang::{Memory, SessionId};
use bw_run::{Frame, SharedValues};
use std::alloc::Global;
use std::marker::Model;

/// A session that waits.
#[derive(Drop)]
pub struct Record {
    /// Its number, by which a request names it.
    pub number: u32,
    /// Its key, without which no request reaches it.
    pub key: u64,
    /// Which session of the service it is.
    pub session: SessionId,
    /// The number of its current turn.
    pub turn: u32,
    /// Where it waits.
    pub frame: Frame,
    /// The document that it shows.
    pub page: Doc,
}

/// The sessions that wait, the most recently used first. Contracts see the list of them.
pub struct Records {
    list: Vec<Record>,
}

impl Drop for Records {
    fn drop(self) {
        let Records { list: _ } = self;
    }
}

impl Model for Records {
    ghost use Rattle.std.specs.Prelude.{List};
    ghost use Rattle.bw_saved.specs.declared.saved.Record.{Record as Kept};

    ghost Value = { List Kept };

    ghost use Rattle.std.specs.Coded.{codes};
    ghost use Rattle.bw_doc.specs.Encoding.MadeEncoding.{encoded_made};

    ghost coded = { Prim.hlevel (codes, encoded_made) };

    ghost view = { λ r. r.list.items };
}

impl Records {
    /// No session.
    pub fn new(alloc: Global) -> Records
        ensures { result ≡ [] }
    {
        Records {
            list: Vec::new(alloc),
        }
    }

    /// How many sessions there are.
    pub fn len(&self) -> usize
        ensures { result ≡ length self.now }
    {
        self.list.len()
    }

    /// A session behind the others.
    pub fn push(&mut self, one: Record) -> Result<(), Memory>
        ensures ok { OnOk result (self.new ≡ self.old ++ one ∷ []) }
        ensures err { OnErr result (self.new ≡ self.old) }
    {
        self.list.push(one)?;
        Ok(())
    }

    /// Takes the last session out, if there is one.
    pub fn pop(&mut self) -> Option<Record>
        ensures { MatchOption result (self.old ≡ []) (λ one. self.old ≡ self.new ++ one ∷ []) }
    {
        self.list.pop()
    }

    /// The sessions, in order.
    pub fn as_slice(&self) -> &[Record]
        ensures { result.now ≡ self.now }
    {
        self.list.as_slice()
    }
}

/// What is saved of a world.
#[derive(Drop)]
pub struct Saved {
    /// The number that the next session gets: from 1 to 2^32.
    pub next: u64,
    /// The number of a session's first turn.
    pub first: u32,
    /// The shared variables.
    pub shared: SharedValues,
    /// The sessions that wait, the most recently used first.
    pub records: Records,
}
