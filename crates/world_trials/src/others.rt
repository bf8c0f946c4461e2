//! A request beside another one, and beside another world.
ghost use Rattle.bw_world.specs.Handled.{Handles};

use bw_format::Formats;
use bw_http::{Reply, Request};
use bw_out::Steps;
use bw_world::{World, guarded};
use std::alloc::Global;
use std::sync::ledger::Ledger;

/// `guarded`: which of two requests is answered, and of which of two worlds.
pub fn handled_beside<L: Ledger>(
    alloc: Global,
    world: &mut World,
    other_world: &mut World,
    formats: &Formats,
    request: &Request,
    other_request: &Request,
    key: u64,
    steps: &mut Steps<L>,
) -> Reply
    ensures step { Handles formats.now world.old world.new request.now key result steps.old steps.new }
{
    guarded(alloc, world, formats, request, key, steps)
}
