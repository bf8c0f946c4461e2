//! Worlds, and one request of them.
ghost use Rattle.std.specs.Prelude.{◌≡◌, ◌≤◌, ◌^◌, IfOk};
ghost use Rattle.bw_model.specs.Sessions.{empty};
ghost use Rattle.bw_world.specs.Handled.{Handles};
ghost use Rattle.bw_world.specs.Restored.{seen_of};
ghost use Rattle.bw_world.specs.Stands.{StandsFor};

use bw_check::Checked;
use bw_format::Formats;
use bw_http::{Reply, Request};
use bw_lang::Memory;
use bw_out::Steps;
use bw_world::{Parts, World, guarded};
use std::alloc::Global;
use std::sync::ledger::Ledger;

/// `World::new_at`: from which number on sessions are counted.
pub fn begun_at(alloc: Global, checked: Checked, next: u64, first: u32) -> Result<World, Memory>
    requires next { (1 ≤ next) × (next ≤ 2 ^ 32) }
    requires first { 1 ≤ first }
    ensures stands { IfOk result (λ w. StandsFor w (record (empty checked.typed.service) { next = next; first = first })) }
{
    World::new_at(alloc, checked, next, first)
}

/// `World::dismantle`: the sessions that a world is taken apart into.
pub fn taken_apart(world: World, alloc: Global) -> Result<Parts, Memory>
    ensures same { IfOk result (λ p. seen_of p ≡ world) }
{
    world.dismantle(alloc)
}

/// `guarded`: what a request is answered, leaves behind and costs.
pub fn handled<L: Ledger>(
    alloc: Global,
    world: &mut World,
    formats: &Formats,
    request: &Request,
    key: u64,
    steps: &mut Steps<L>,
) -> Reply
    ensures step { Handles formats.now world.old world.new request.now key result steps.old steps.new }
{
    guarded(alloc, world, formats, request, key, steps)
}
