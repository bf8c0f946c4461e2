//! Links are served beside a journal.
ghost use Rattle.std.specs.Prelude.{◌≡◌, []};
ghost use Rattle.bw_out.specs.Causes.{Shows};
ghost use Rattle.bw_keeping.specs.Served.{Serves, view};

use crate::ended::Ended;
use crate::flushing::{finish, make_room};
use crate::replying::give_up_all;
use crate::room::Room;
use bw_format::Formats;
use bw_out::{Failed, Keys, Steps};
use bw_stable::{Journal, WideDoor};
use bw_world::World;
use std::alloc::Global;
use std::sync::ledger::Ledger;

/// Serves up to `most` links of a door over one world, beside a journal: one message of each is answered, and what is kept
/// of it is in the journal before a byte of its reply is sent.
///
/// Links that are at hand at once wait for one another, up to 32, and what is kept of them is kept in one piece. After a
/// fault on a link, which ends that link alone, serving goes on. Where the door or the journal fails, the links that wait
/// are given back without a byte.
pub fn serve_kept<D: WideDoor, K: Keys, J: Journal, L: Ledger>(
    alloc: Global,
    world: &mut World,
    formats: &Formats,
    room: &mut Room<D::Link>,
    door: &mut D,
    journal: &mut J,
    keys: &mut K,
    most: u32,
    steps: &mut Steps<L>,
) -> Ended
    requires sound { J.is_sound journal.old }
    requires bytes { room.old.group.bytes ≡ [] }
    requires queue { room.old.queue.links.items ≡ [] }
    ensures serves { Serves formats.now world.old.service most
        (view world.old (K.coming keys.old) (D.coming door.old) (D.returned door.old) (J.deeds journal.old) room.old.group.sum steps.old)
        (view world.new (K.coming keys.new) (D.coming door.new) (D.returned door.new) (J.deeds journal.new) room.new.group.sum steps.new) result }
    ensures journal_fault { Shows (result ≡ Ended.JournalFault) (J.faults journal.old) (J.faults journal.new) }
    ensures door_fault { Shows (result ≡ Ended.DoorFault) (D.faults door.old) (D.faults door.new) }
    ensures asked { D.asked door.new ≡ D.asked door.old }
    ensures service { world.new.service ≡ world.old.service }
    ensures queue { room.new.queue.links.items ≡ [] }
{
    'links: for turn in 0..most {
        match make_room(world, room, door, journal) {
            Err(Failed) => return Ended::JournalFault,
            Ok(()) => match door.next_link() {
                Err(Failed) => {
                    give_up_all(&mut room.queue, door);
                    return Ended::DoorFault;
                }
                Ok(None) => return finish(world, room, door, journal),
                Ok(Some(link)) => room.take_in(alloc, world, formats, link, keys, steps),
            },
        }
    }
    finish(world, room, door, journal)
}
