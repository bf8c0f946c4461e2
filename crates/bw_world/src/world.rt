//! Worlds.
ghost use Rattle.std.specs.Prelude.{◌≡◌, ◌≢◌, ◌≤◌, ◌^◌, true, length, IfOk, IfSome, option_copied};
ghost use Rattle.bw_http.specs.Replies.{IsReply};
ghost use Rattle.bw_model.specs.Sessions.{empty};
ghost use Rattle.bw_model.specs.Steps as model;
ghost use Rattle.bw_sound.specs.Worlds.{BeginsSound};
ghost use Rattle.bw_world.specs.Good.{IsSound, IsGoodReply, HasGoodReply};
ghost use Rattle.bw_world.specs.Kept.{IsKept, IsSuspended};
ghost use Rattle.bw_world.specs.Plain.{is_plain};
ghost use Rattle.bw_world.specs.Restored.{seen_of, loaded_world};
ghost use Rattle.bw_world.specs.Seen.{found};
ghost use Rattle.bw_world.specs.Stands.{StandsFor, Handles, Rises, fields_of};
ghost use Rattle.bw_model.specs.declared.limits.TheConstants.{MAX_LIVE};

use crate::restoring::Parts;
use crate::state::State;
use crate::suspended::Suspended;
use bw_check::Checked;
use bw_http::{Reply, Request};
use bw_lang::Memory;
use bw_out::Steps as Counter;
use bw_run::SharedValues;
use std::alloc::Global;
use std::marker::Model;
use std::sync::ledger::Ledger;

/// The live sessions of a service that the check accepted, and its shared variables. At most 1,000 sessions are live: where
/// one more begins, the one that wasn't used for the longest time gives way.
///
/// Contracts see the live sessions by their numbers, the most recently used first. Each waits at a show of its own with a
/// fit frame, and the shared variables are fit. Whatever was requested, there is a world of the meaning that this one stands
/// for, and that is sound: each page that is answered from it on is good.
pub struct World {
    state: State,
}

impl Drop for World {
    fn drop(self) {
        let World { state: _ } = self;
    }
}

impl Model for World {
    ghost use Rattle.bw_world.specs.Seen.{Seen};

    ghost Value = { Seen };

    ghost use Rattle.std.specs.Coded.{codes};
    ghost use Rattle.bw_lang.specs.contracts.service.Service as service;
    ghost use Rattle.bw_doc.specs.Encoding.MadeEncoding.{encoded_made};
    ghost use Rattle.bw_sound.specs.Worlds.{BeginsSound};
    ghost use Rattle.bw_world.specs.Good.{IsSound};

    ghost coded = { Prim.hlevel (codes, encoded_made, service.the_row.coded) };

    ghost view = { λ w. w.state };

    ghost invariant = { λ w. ∥ IsSound w.state ∥₁ };
}

impl World {
    /// The world in which nothing was requested yet: no session is live, the shared variables have the values of their
    /// literals, and the first session gets number 1, its first turn number 1. It stands for the empty world of the meaning,
    /// which is sound.
    pub fn new(alloc: Global, checked: Checked) -> Result<World, Memory>
        ensures service { IfOk result (λ w. w.service ≡ checked.typed.service) }
        ensures stands { IfOk result (λ w. StandsFor w (empty checked.typed.service)) }
        ensures sound { IfOk result (λ w. BeginsSound w.service) }
    {
        World::new_at(alloc, checked, 1, 1)
    }

    /// The same, but that the next session gets number `next`, and a first turn the number `first`.
    pub fn new_at(alloc: Global, checked: Checked, next: u64, first: u32) -> Result<World, Memory>
        requires next { (1 ≤ next) × (next ≤ 2 ^ 32) }
        requires first { 1 ≤ first }
        ensures service { IfOk result (λ w. w.service ≡ checked.typed.service) }
        ensures stands { IfOk result (λ w. StandsFor w (record (empty checked.typed.service) { next = next; first = first })) }
        ensures sound { IfOk result (λ w. BeginsSound w.service) }
    {
        let state = State::new_at(alloc, checked, next, first)?;
        Ok(World { state })
    }

    /// The world of these parts, which goes on from their sessions. Among others it stands for the world of the meaning in
    /// which each of them was loaded where it waits, and was sent nothing since.
    pub fn restore(alloc: Global, parts: Parts) -> Result<World, Memory>
        requires kept { IsKept (seen_of parts) }
        requires sound { ∥ IsSound (seen_of parts) ∥₁ }
        ensures same { IfOk result (λ w. w ≡ seen_of parts) }
        ensures stands { IfOk result (λ w. StandsFor w (loaded_world parts)) }
    {
        let state = State::restore(alloc, parts)?;
        Ok(World { state })
    }

    /// The parts of the world, which is given up, also where there is no memory. They are fit for `restore`, which makes the
    /// same world of them.
    pub fn dismantle(self, alloc: Global) -> Result<Parts, Memory>
        ensures same { IfOk result (λ p. seen_of p ≡ self) }
        ensures kept { IfOk result (λ p. IsKept (seen_of p)) }
        ensures sound { IfOk result (λ p. ∥ IsSound (seen_of p) ∥₁) }
    {
        let World { state } = self;
        let parts = state.dismantle(alloc)?;
        Ok(parts)
    }

    /// The live session of this number and key, which waits at a show of its own with a fit frame. It takes no memory, and
    /// doesn't count as a use.
    pub fn get(&self, number: u32, key: u64) -> Option<&Suspended>
        ensures found { option_copied result ≡ found number key self.now.live }
        ensures fit { IfSome result (λ s. IsSuspended self.now.service s.now) }
        ensures kept { IsKept self.now }
    {
        self.state.get(number, key)
    }

    /// How many sessions are live: at most 1,000. It takes no memory.
    pub fn live(&self) -> usize
        ensures live { result ≡ length self.now.live }
        ensures few { result ≤ MAX_LIVE }
    {
        self.state.live()
    }

    /// The shared variables. It takes no memory.
    pub fn shared(&self) -> &SharedValues
        ensures { result.now ≡ self.now.shared }
    {
        self.state.shared()
    }

    /// The service. It takes no memory.
    pub fn checked(&self) -> &Checked
        ensures { result.now.typed.service ≡ self.now.service }
    {
        self.state.checked()
    }

    /// One request is one step of the world, by the key that was drawn for it: for each world of the meaning that this one
    /// stands for, the reply is the step's, this world stands for the step's world, and the counter rises by the step's
    /// cost. Or the reply is `Memory`: there was no memory, the world is as before, and the counter rose by at most 100,000.
    ///
    /// A request that needs no page and no turn is never answered `Memory`: of a path or method that isn't served, of a
    /// session that isn't there, of another turn than the current one, or with a form that isn't taken.
    ///
    /// Every page that is answered is valid by each schema that accepts the service, the page of a show has each field that
    /// the show receives, and the bytes read as this one page: so it is for each sound world of the meaning that this one
    /// stands for, and there is one.
    pub fn handle<L: Ledger>(
        &mut self,
        alloc: Global,
        request: &Request,
        key: u64,
        steps: &mut Counter<L>,
    ) -> Reply
        ensures step { Handles self.old self.new result steps.old steps.new (λ m. model.step self.old.service m request.now key) }
        ensures service { self.new.service ≡ self.old.service }
        ensures memory { result ≡ Reply.Memory → self.new ≡ self.old }
        ensures plain { is_plain self.old request.now ≡ true → result ≢ Reply.Memory }
        ensures reply { IsReply (fields_of self.old.service) result }
        ensures rises { Rises steps.old steps.new }
        ensures good { IsGoodReply self.old request.now key result }
        ensures pages { HasGoodReply self.old request.now key result }
    {
        // Both for the proof alone: this world is sound, and the form's values are UTF-8.
        let _ = self.state.checked();
        let _ = request.form.as_slice();
        self.state.step(alloc, request, key, steps)
    }
}
