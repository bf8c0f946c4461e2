//! What waits is kept and answered.
ghost use Rattle.std.specs.Prelude.{◌≡◌, ◌≢◌, ◌⊎◌, ◌<◌, ◌≤◌, [], length, OnOk, OnErr};
ghost use Rattle.std.specs.List.{AllByRecursion};
ghost use Rattle.bw_out.specs.Causes.{HasCause, Shows};
ghost use Rattle.bw_keeping.specs.Groups.{HasRoom};
ghost use Rattle.bw_world.specs.Streams.Taking.{AreFit};
ghost use Rattle.bw_keeping.specs.declared.waiting.TheConstants.{MAX_WAITING};
ghost use Rattle.bw_keeping.specs.Steps.{Closes, Finishes, Flushes, Keeps, desk};

use crate::ended::Ended;
use crate::group::Group;
use crate::replying::{give_up_all, reply_to_all};
use crate::room::Room;
use bw_out::{Channel, Door, Failed};
use bw_stable::{Journal, WideDoor};
use bw_world::World;

/// Keeps bytes in one piece, if there are some. What is written on the links that wait is told with it.
fn keep_bytes<D: Door, C: Channel, J: Journal>(
    bytes: &[u8],
    links: &C,
    door: &D,
    journal: &mut J,
) -> Result<(), Failed>
    requires { J.is_sound journal.old }
    ensures keeps { OnOk result (Keeps (J.deeds journal.old) (J.deeds journal.new) bytes.now (D.returned door.now) (C.held links.now)) }
    ensures none { OnErr result (J.deeds journal.new ≡ J.deeds journal.old) }
    ensures some { OnErr result (bytes.now ≢ []) }
    ensures sound { OnOk result (J.is_sound journal.new) }
    ensures cause { HasCause (J.faults journal.old) (J.faults journal.new) result }
{
    if bytes.is_empty() {
        return Ok(());
    }
    journal.keep(door, links, bytes)
}

/// Keeps the entries of the group in one piece, if there are some, and lets them go. What is written on the links that wait, or
/// on the link that is answered, is told with it.
pub(crate) fn keep_group<D: Door, C: Channel, J: Journal>(
    group: &mut Group,
    links: &C,
    door: &D,
    journal: &mut J,
) -> Result<(), Failed>
    requires { J.is_sound journal.old }
    ensures keeps { OnOk result (Keeps (J.deeds journal.old) (J.deeds journal.new) group.old.bytes (D.returned door.now) (C.held links.now)) }
    ensures none { OnErr result (J.deeds journal.new ≡ J.deeds journal.old) }
    ensures some { OnErr result (group.old.bytes ≢ []) }
    ensures bytes { OnOk result (group.new.bytes ≡ []) }
    ensures room { OnOk result (HasRoom group.new) }
    ensures sum { group.new.sum ≡ group.old.sum }
    ensures sound { OnOk result (J.is_sound journal.new) }
    ensures cause { HasCause (J.faults journal.old) (J.faults journal.new) result }
{
    keep_bytes(group.bytes(), links, door, journal)?;
    group.clear();
    Ok(())
}

/// Keeps the entries of the group, and then sends the links that wait their replies and gives them back. Where the journal
/// fails they are given back without a byte.
pub(crate) fn flush<D: WideDoor, J: Journal>(
    world: &World,
    room: &mut Room<D::Link>,
    door: &mut D,
    journal: &mut J,
) -> Result<(), Failed>
    requires sound { J.is_sound journal.old }
    requires out { length room.old.queue.links.items ≤ D.out door.old }
    requires fit { AllByRecursion (λ w. AreFit world.now.service w.taken) room.old.queue.links.items }
    ensures flushes { OnOk result (Flushes D.Link.Channel world.now.service
        (desk (D.returned door.old) (J.deeds journal.old) room.old.group.bytes room.old.group.sum room.old.queue.links.items)
        (desk (D.returned door.new) (J.deeds journal.new) room.new.group.bytes room.new.group.sum room.new.queue.links.items)) }
    ensures closes { OnErr result (Closes D.Link.Channel
        (desk (D.returned door.old) (J.deeds journal.old) room.old.group.bytes room.old.group.sum room.old.queue.links.items)
        (desk (D.returned door.new) (J.deeds journal.new) room.new.group.bytes room.new.group.sum room.new.queue.links.items)) }
    ensures room { OnOk result (HasRoom room.new.group) }
    ensures sound { OnOk result (J.is_sound journal.new) }
    ensures cause { HasCause (J.faults journal.old) (J.faults journal.new) result }
    ensures coming { D.coming door.new ≡ D.coming door.old }
    ensures asked { D.asked door.new ≡ D.asked door.old }
    ensures quiet { D.faults door.new ≡ D.faults door.old }
    ensures none { room.new.queue.links.items ≡ [] }
{
    match keep_group(&mut room.group, &room.queue, door, journal) {
        Ok(()) => {
            reply_to_all(world, &mut room.queue, door);
            Ok(())
        }
        Err(Failed) => {
            give_up_all(&mut room.queue, door);
            Err(Failed)
        }
    }
}

/// The same where what waits is due. There is then room for one link more.
pub(crate) fn make_room<D: WideDoor, J: Journal>(
    world: &World,
    room: &mut Room<D::Link>,
    door: &mut D,
    journal: &mut J,
) -> Result<(), Failed>
    requires sound { J.is_sound journal.old }
    requires out { length room.old.queue.links.items ≤ D.out door.old }
    requires fit { AllByRecursion (λ w. AreFit world.now.service w.taken) room.old.queue.links.items }
    ensures flushes { OnOk result (
        let before = desk (D.returned door.old) (J.deeds journal.old) room.old.group.bytes room.old.group.sum room.old.queue.links.items in
        let now = desk (D.returned door.new) (J.deeds journal.new) room.new.group.bytes room.new.group.sum room.new.queue.links.items in
        (now ≡ before) ⊎ Flushes D.Link.Channel world.now.service before now) }
    ensures closes { OnErr result (Closes D.Link.Channel
        (desk (D.returned door.old) (J.deeds journal.old) room.old.group.bytes room.old.group.sum room.old.queue.links.items)
        (desk (D.returned door.new) (J.deeds journal.new) room.new.group.bytes room.new.group.sum room.new.queue.links.items)) }
    ensures room { OnOk result (HasRoom room.new.group) }
    ensures few { OnOk result (length room.new.queue.links.items < MAX_WAITING) }
    ensures fit { OnOk result (AllByRecursion (λ w. AreFit world.now.service w.taken) room.new.queue.links.items) }
    ensures out { OnOk result (length room.new.queue.links.items ≤ D.out door.new) }
    ensures sound { OnOk result (J.is_sound journal.new) }
    ensures cause { HasCause (J.faults journal.old) (J.faults journal.new) result }
    ensures coming { D.coming door.new ≡ D.coming door.old }
    ensures asked { D.asked door.new ≡ D.asked door.old }
    ensures quiet { D.faults door.new ≡ D.faults door.old }
{
    if room.is_due(door.is_ready()) {
        flush(world, room, door, journal)
    } else {
        Ok(())
    }
}

/// The same where no further link is waited for, and how serving ended so.
pub(crate) fn finish<D: WideDoor, J: Journal>(
    world: &World,
    room: &mut Room<D::Link>,
    door: &mut D,
    journal: &mut J,
) -> Ended
    requires sound { J.is_sound journal.old }
    requires out { length room.old.queue.links.items ≤ D.out door.old }
    requires fit { AllByRecursion (λ w. AreFit world.now.service w.taken) room.old.queue.links.items }
    ensures finishes { Finishes D.Link.Channel world.now.service
        (desk (D.returned door.old) (J.deeds journal.old) room.old.group.bytes room.old.group.sum room.old.queue.links.items)
        (desk (D.returned door.new) (J.deeds journal.new) room.new.group.bytes room.new.group.sum room.new.queue.links.items) result }
    ensures fault { Shows (result ≡ Ended.JournalFault) (J.faults journal.old) (J.faults journal.new) }
    ensures coming { D.coming door.new ≡ D.coming door.old }
    ensures asked { D.asked door.new ≡ D.asked door.old }
    ensures quiet { D.faults door.new ≡ D.faults door.old }
    ensures none { room.new.queue.links.items ≡ [] }
{
    match flush(world, room, door, journal) {
        Ok(()) => Ended::Done,
        Err(Failed) => Ended::JournalFault,
    }
}
