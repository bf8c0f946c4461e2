//! Live sessions.
ghost use Rattle.std.specs.Prelude.{◌≡◌, ◌∷◌, [], MatchOption, OnOk};

use bw_doc::Doc;
use bw_lang::{Memory, SessionId};
use bw_run::Frame;
use std::alloc::Global;
use std::marker::Model;

/// A live session: its number and key, which session of the service it is, the number of its current turn, the frame
/// where it waits, and the document that it shows. It holds nothing of what it was sent before.
#[derive(Drop)]
pub struct Suspended {
    pub number: u32,
    pub key: u64,
    pub session: SessionId,
    pub turn: u32,
    pub frame: Frame,
    pub page: Doc,
}

/// Live sessions, the most recently used first. Contracts see the list of them.
pub struct Suspendeds {
    /// The most recently used last.
    list: Vec<Suspended>,
}

impl Drop for Suspendeds {
    fn drop(self) {
        let Suspendeds { list: _ } = self;
    }
}

impl Model for Suspendeds {
    ghost use Rattle.std.specs.Prelude.{List};
    ghost use Rattle.bw_world.specs.declared.suspended.Suspended.{Suspended as Kept};

    ghost Value = { List Kept };

    ghost use Rattle.std.specs.Coded.{codes};
    ghost use Rattle.bw_doc.specs.Encoding.MadeEncoding.{encoded_made};

    ghost coded = { Prim.hlevel (codes, encoded_made) };

    ghost use Rattle.std.specs.Prelude.{reverse};

    ghost view = { λ s. reverse s.list.items };
}

impl Suspendeds {
    /// No session.
    pub fn new(alloc: Global) -> Suspendeds
        ensures { result ≡ [] }
    {
        Suspendeds {
            list: Vec::new(alloc),
        }
    }

    /// Puts a session in front: it is the most recently used one.
    pub fn push(&mut self, one: Suspended) -> Result<(), Memory>
        ensures { OnOk result (self.new ≡ one ∷ self.old) }
    {
        self.list.push(one)?;
        Ok(())
    }

    /// Takes the session in front out, if there is one: the most recently used one.
    pub fn pop(&mut self) -> Option<Suspended>
        ensures { MatchOption result (self.old ≡ []) (λ one. self.old ≡ one ∷ self.new) }
    {
        self.list.pop()
    }
}
