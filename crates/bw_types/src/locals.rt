//! The locals of a session.
ghost use Rattle.std.specs.Prelude.{◌≡◌, false, OnOk, length};
ghost use Rattle.bw_lang.specs.Table.Names.{beside};
ghost use Rattle.bw_types.specs.Scopes.{is_among, no_locals, with_local};
ghost use Rattle.bw_types.specs.Places.{outside};

use crate::tables::has;
use bw_lang::{Kind, Memory, Name, NameTable};
use std::alloc::Global;
use std::marker::Model;

/// A local that is in scope.
#[derive(Drop)]
struct Local {
    name: Name,
    kind: Kind,
}

/// What a place in a session's body sees: the locals in scope, and the names of all that the session declares in front
/// of it, in scope or not.
pub struct Locals {
    in_scope: Vec<Local>,
    taken: NameTable,
}

impl Drop for Locals {
    fn drop(self) {
        let Locals {
            in_scope: _,
            taken: _,
        } = self;
    }
}

impl Model for Locals {
    ghost use Rattle.bw_types.specs.Scopes.{Scope};

    ghost Value = { Scope };

    ghost use Rattle.std.specs.Prelude.{map, reverse};

    ghost view = { λ l. record { locals = reverse (map (λ x. (x.name, x.kind)) l.in_scope.items); taken = l.taken } };
}

impl Locals {
    /// No local yet.
    pub fn new(alloc: Global) -> Locals
        ensures { result ≡ no_locals }
    {
        Locals {
            in_scope: Vec::new(alloc),
            taken: NameTable::new(alloc),
        }
    }

    /// How many locals are in scope.
    pub fn depth(&self) -> usize
        ensures { result ≡ length self.now.locals }
    {
        self.in_scope.len()
    }

    /// The kind of the local in scope of that name.
    pub fn kind(&self, name: &str) -> Option<Kind>
        ensures { result ≡ beside name.now self.now.locals }
    {
        let local = self
            .in_scope
            .iter()
            .rev()
            .find(|local| name == local.name.as_str())?;
        Some(local.kind)
    }

    /// Whether a local of that name was declared.
    pub fn has(&self, name: &str) -> bool
        ensures { result ≡ is_among name.now self.now.taken }
    {
        has(&self.taken, name)
    }

    /// A local more, whose name no local had yet. After want of memory its name may be taken without the local's being
    /// in scope.
    pub fn declare(&mut self, name: &Name, kind: Kind) -> Result<(), Memory>
        requires { is_among name.now self.old.taken ≡ false }
        ensures { OnOk result (self.new ≡ with_local self.old name.now kind) }
    {
        self.taken.add(name.as_str())?;
        self.in_scope.push(Local {
            name: name.copy()?,
            kind,
        })?;
        Ok(())
    }

    /// Leaves a block: the oldest locals alone are in scope, so many of them.
    pub fn leave(&mut self, depth: usize)
        ensures { self.new ≡ outside depth self.old }
    {
        self.in_scope.truncate(depth);
    }
}
