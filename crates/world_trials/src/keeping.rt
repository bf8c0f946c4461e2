//! Serving and answering beside a journal.
ghost use Rattle.std.specs.Prelude.{◌≡◌, ◌≢◌, []};
ghost use Rattle.bw_world.specs.Streams.Answers.{place};
ghost use Rattle.bw_keeping.specs.Groups.{IsReady};
ghost use Rattle.bw_keeping.specs.Served.{Serves, view};
ghost use Rattle.bw_keeping.specs.Streamed.{Streams, sight};

use bw_format::Formats;
use bw_keeping::{Ended, Handler, Room, StreamEnded, StreamRoom, answer_kept, serve_kept};
use bw_out::{Door, Keys, Sink, Source, Steps};
use bw_stable::{Journal, WideDoor};
use bw_world::World;
use std::alloc::Global;
use std::sync::ledger::Ledger;

/// `serve_kept`: what links are answered, and that what is kept of each is kept before.
pub fn served<D: WideDoor, K: Keys, J: Journal, L: Ledger>(
    alloc: Global,
    world: &mut World,
    formats: &Formats,
    room: &mut Room<D::Link>,
    door: &mut D,
    journal: &mut J,
    keys: &mut K,
    most: u32,
    steps: &mut Steps<L>,
) -> Ended
    requires sound { J.is_sound journal.old }
    requires bytes { room.old.group.bytes ≡ [] }
    requires queue { room.old.queue.links.items ≡ [] }
    ensures serves { Serves formats.now world.old.service most
        (view world.old (K.coming keys.old) (D.coming door.old) (D.returned door.old) (J.deeds journal.old) room.old.group.sum steps.old)
        (view world.new (K.coming keys.new) (D.coming door.new) (D.returned door.new) (J.deeds journal.new) room.new.group.sum steps.new) result }
{
    serve_kept(
        alloc, world, formats, room, door, journal, keys, most, steps,
    )
}

/// `answer_kept`: what messages are answered, what is kept of each before, and that no entry is left over.
pub fn answered_kept<C: Source + Sink, K: Keys, D: Door, J: Journal, L: Ledger>(
    handler: &mut Handler<'_, '_, '_, K, Steps<L>>,
    room: &mut StreamRoom,
    link: &mut C,
    door: &D,
    journal: &mut J,
    most: u32,
) -> StreamEnded
    requires sound { J.is_sound journal.old }
    requires ready { IsReady room.old.group }
    ensures streams { Streams handler.old.formats.now handler.old.world.now.service most (D.returned door.now)
        (sight (place C.Channel handler.old.world.now room.old.intake link.old (K.coming handler.old.keys.now) handler.old.steps.now)
        (J.deeds journal.old) room.old.group.sum)
        (sight (place C.Channel handler.new.world.now room.new.intake link.new (K.coming handler.new.keys.now) handler.new.steps.now)
        (J.deeds journal.new) room.new.group.sum) result }
    ensures ready { result ≢ StreamEnded.JournalFault → IsReady room.new.group }
{
    answer_kept(handler, room, link, door, journal, most)
}
