//! A message that is taken, handled and put into a group.
ghost use Rattle.std.specs.Prelude.{◌≡◌};
ghost use Rattle.bw_out.specs.Sends as sends;
ghost use Rattle.bw_world.specs.Streams.Answers.{place};
ghost use Rattle.bw_keeping.specs.Groups.{HasRoom};
ghost use Rattle.bw_keeping.specs.Taking.{Takes};

use bw_format::Formats;
use bw_http::Intake;
use bw_keeping::{Group, Notes, take_kept};
use bw_out::{Keys, Sink, Source, Steps};
use bw_world::{Taken, World};
use std::alloc::Global;
use std::sync::ledger::Ledger;

/// `take_kept`: what of a message is put into the group, and that nothing is written meanwhile.
pub fn taken<C: Source + Sink, K: Keys, L: Ledger>(
    alloc: Global,
    world: &mut World,
    formats: &Formats,
    intake: &mut Intake,
    notes: &mut Notes,
    link: &mut C,
    keys: &mut K,
    steps: &mut Steps<L>,
    group: &mut Group,
) -> Taken
    requires room { HasRoom group.old }
    ensures takes { Takes formats.now world.old.service (place C.Channel world.old intake.old link.old (K.coming keys.old) steps.old)
        (place C.Channel world.new intake.new link.new (K.coming keys.new) steps.new) group.old group.new result }
    ensures reads { sends.Takes C.Channel link.old link.new (result ≡ Taken.ReadFault) }
{
    take_kept(
        alloc, world, formats, intake, notes, link, keys, steps, group,
    )
}
