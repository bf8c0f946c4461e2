//! What a world holds.
ghost use Rattle.std.specs.Prelude.{◌≡◌, ◌≤◌, ◌^◌, length, IfOk, IfSome, option_copied};
ghost use Rattle.bw_model.specs.Sessions.{empty};
ghost use Rattle.bw_world.specs.Kept.{IsKept, IsSuspended};
ghost use Rattle.bw_world.specs.Seen.{found};
ghost use Rattle.bw_world.specs.Stands.{StandsFor};
ghost use Rattle.bw_model.specs.declared.limits.TheConstants.{MAX_LIVE};

use crate::suspended::Suspended;
use bw_check::Checked;
use bw_lang::Memory;
use bw_model::limits::MAX_LIVE;
use bw_run::{SharedValues, first_values};
use lru::LruCache;
use std::alloc::Global;
use std::marker::Model;
use std::num::NonZeroUsize;

/// The live sessions of a service that the check accepted, and its shared variables. At most 1,000 sessions are live: where
/// one more begins, the one that wasn't used for the longest time gives way.
///
/// Contracts see the live sessions by their numbers, the most recently used first. Each waits at a show of its own with a
/// fit frame, and the shared variables are fit.
#[derive(Drop)]
pub struct State {
    pub(crate) checked: Checked,
    pub(crate) next: u64,
    pub(crate) first: u32,
    pub(crate) shared: SharedValues,
    pub(crate) live: LruCache<u32, Suspended>,
}

impl Model for State {
    ghost use Rattle.std.specs.Prelude.{◌≡◌};
    ghost use Rattle.bw_world.specs.Seen.{Seen};
    ghost use Rattle.bw_world.specs.Kept.{IsKept};
    ghost use Rattle.bw_model.specs.declared.limits.TheConstants.{MAX_LIVE};

    ghost Value = { Seen };

    ghost use Rattle.std.specs.Coded.{codes};
    ghost use Rattle.bw_lang.specs.contracts.service.Service as service;
    ghost use Rattle.bw_doc.specs.Encoding.MadeEncoding.{encoded_made};

    ghost coded = { Prim.hlevel (codes, encoded_made, service.the_row.coded) };

    ghost view = { λ w. record {
      service = w.checked.typed.service;
      shared = w.shared;
      next = w.next;
      first = w.first;
      live = w.live.entries;
    } };

    ghost invariant = { λ w. (w.live.cap ≡ MAX_LIVE) × IsKept (record {
      service = w.checked.typed.service;
      shared = w.shared;
      next = w.next;
      first = w.first;
      live = w.live.entries;
    }) };
}

impl State {
    /// Where nothing was requested yet: no session is live, and the shared variables have the values of their literals.
    pub(crate) fn new_at(
        alloc: Global,
        checked: Checked,
        next: u64,
        first: u32,
    ) -> Result<State, Memory>
        requires next { (1 ≤ next) × (next ≤ 2 ^ 32) }
        requires first { 1 ≤ first }
        ensures service { IfOk result (λ w. w.service ≡ checked.typed.service) }
        ensures stands { IfOk result (λ w. StandsFor w (record (empty checked.typed.service) { next = next; first = first })) }
    {
        let Some(most) = NonZeroUsize::new(MAX_LIVE) else {
            unreachable!()
        };
        let Ok(shared) = first_values(alloc, checked.typed()) else {
            drop(checked);
            return Err(Memory);
        };
        let Ok(live) = LruCache::new(alloc, most) else {
            drop(checked);
            drop(shared);
            return Err(Memory);
        };
        Ok(State {
            checked,
            next,
            first,
            shared,
            live,
        })
    }

    /// The live session of this number and key.
    pub(crate) fn get(&self, number: u32, key: u64) -> Option<&Suspended>
        ensures found { option_copied result ≡ found number key self.now.live }
        ensures fit { IfSome result (λ s. IsSuspended self.now.service s.now) }
        ensures kept { IsKept self.now }
    {
        let one = self.live.peek(&number)?;
        if one.key == key { Some(one) } else { None }
    }

    /// How many sessions are live.
    pub(crate) fn live(&self) -> usize
        ensures live { result ≡ length self.now.live }
        ensures few { result ≤ MAX_LIVE }
    {
        self.live.len()
    }

    /// The shared variables.
    pub(crate) fn shared(&self) -> &SharedValues
        ensures { result.now ≡ self.now.shared }
    {
        &self.shared
    }

    /// The service.
    pub(crate) fn checked(&self) -> &Checked
        ensures { result.now.typed.service ≡ self.now.service }
    {
        &self.checked
    }
}
