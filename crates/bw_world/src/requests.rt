//! One request with formats of fields: one step, unless its form is turned away.
ghost use Rattle.std.specs.Prelude.{◌≡◌, ◌≢◌, true};
ghost use Rattle.bw_model.specs.Guards as guards;
ghost use Rattle.bw_world.specs.Handled.{Handles, IsGoodReply, KeepsWithin};
ghost use Rattle.bw_http.specs.Replies.{IsReply};
ghost use Rattle.bw_world.specs.Plain.{is_plain};
ghost use Rattle.bw_world.specs.Stands.{Rises, fields_of};

use crate::away::outside;
use crate::world::World;
use bw_format::Formats;
use bw_http::{Reply, Request};
use bw_lang::FieldId;
use bw_out::Steps;
use std::alloc::Global;
use std::sync::ledger::Ledger;

/// The reply to a form with a value outside the format of this field.
fn outside_reply(field: FieldId) -> Reply
    ensures { result ≡ guards.outside_reply field }
{
    Reply::Format(field)
}

/// One request of a world with formats of fields. A form that a session's next turn would take is turned away by the first
/// field, in the order of its receives, that has a value outside its format: the reply is `Format` of this field, the world
/// is as before, the counter stays, and it takes no memory. Any other request is one step, as `World::handle` takes it.
///
/// So each value that a session stored for a field is in the field's format, where that holds of the world before. Pages are
/// good as those of `World::handle` are.
pub fn guarded<L: Ledger>(
    alloc: Global,
    world: &mut World,
    formats: &Formats,
    request: &Request,
    key: u64,
    steps: &mut Steps<L>,
) -> Reply
    ensures step { Handles formats.now world.old world.new request.now key result steps.old steps.new }
    ensures service { world.new.service ≡ world.old.service }
    ensures memory { result ≡ Reply.Memory → world.new ≡ world.old }
    ensures plain { is_plain world.old request.now ≡ true → result ≢ Reply.Memory }
    ensures reply { IsReply (fields_of world.old.service) result }
    ensures rises { Rises steps.old steps.new }
    ensures good { IsGoodReply formats.now world.old request.now key result }
    ensures within { KeepsWithin formats.now world.old world.new }
{
    match outside(world, formats, request) {
        Some(field) => outside_reply(field),
        None => world.handle(alloc, request, key, steps),
    }
}
