//! Links that wait are sent their replies, or are given back as they are.
ghost use Rattle.std.specs.Prelude.{◌≡◌, ◌≤◌, [], List, length};
ghost use Rattle.std.specs.List.{AllByRecursion};
ghost use Rattle.bw_world.specs.Streams.Taking.{AreFit};
ghost use Rattle.bw_out.specs.Doors.{Returned};
ghost use Rattle.bw_out.specs.Sends.{Sends};
ghost use Rattle.bw_http.specs.Replies.{IsReply};
ghost use Rattle.bw_world.specs.Stands.{fields_of};
ghost use Rattle.bw_world.specs.Streams.Courses.{bytes_by};
ghost use Rattle.bw_keeping.specs.Steps.{AreReplied, GivesBackAll, IsSent, Replies, unanswered};

use crate::waiting::{Queue, Waiting};
use bw_http::{Reply, write_reply};
use bw_out::{Sink, Source, WriteFault};
use bw_stable::WideDoor;
use bw_world::{Taken, World};

/// Sends the reply that is due on a link, if one is, and gives the link. A fault ends this link alone.
fn reply_to<C: Source + Sink>(world: &World, waiting: Waiting<C>) -> C
    requires { AreFit world.now.service waiting.taken }
    ensures { Replies C.Channel world.now.service waiting.link result waiting.taken }
{
    let Waiting { link, taken } = waiting;
    match taken {
        Taken::End | Taken::ReadFault => link,
        Taken::Refused(reply) | Taken::Answered(reply) => send_on(world, link, reply),
    }
}

/// Sends a reply on a link. After a fault a first part of it is written.
pub(crate) fn send<C: Sink>(world: &World, reply: Reply, link: &mut C) -> Result<(), WriteFault>
    requires { IsReply (fields_of world.now.service) reply }
    ensures { Sends C.Channel link.old link.new (bytes_by world.now.service reply) result }
{
    write_reply(reply, world.checked().typed().fields(), link)
}

/// Sends a reply on a link, and gives the link.
fn send_on<C: Source + Sink>(world: &World, mut link: C, reply: Reply) -> C
    requires { IsReply (fields_of world.now.service) reply }
    ensures { IsSent C.Channel link result (bytes_by world.now.service reply) }
{
    let _ = send(world, reply, &mut link);
    link
}

/// Sends the links that wait their replies, and gives each back before the next is sent its own.
pub(crate) fn reply_to_all<D: WideDoor>(world: &World, queue: &mut Queue<D::Link>, door: &mut D)
    requires out { length queue.old.links.items ≤ D.out door.old }
    requires fit { AllByRecursion (λ w. AreFit world.now.service w.taken) queue.old.links.items }
    ensures given { (backs : List Returned) × AreReplied D.Link.Channel world.now.service queue.old.links.items backs
        × GivesBackAll (D.returned door.old) (D.returned door.new) backs }
    ensures none { queue.new.links.items ≡ [] }
    ensures coming { D.coming door.new ≡ D.coming door.old }
    ensures asked { D.asked door.new ≡ D.asked door.old }
    ensures quiet { D.faults door.new ≡ D.faults door.old }
{
    while let Some(waiting) = queue.pop() {
        let link = reply_to(world, waiting);
        door.take_back(link);
    }
}

/// Gives the links that wait back as they are.
pub(crate) fn give_up_all<D: WideDoor>(queue: &mut Queue<D::Link>, door: &mut D)
    requires out { length queue.old.links.items ≤ D.out door.old }
    ensures given { GivesBackAll (D.returned door.old) (D.returned door.new) (unanswered D.Link.Channel queue.old.links.items) }
    ensures none { queue.new.links.items ≡ [] }
    ensures coming { D.coming door.new ≡ D.coming door.old }
    ensures asked { D.asked door.new ≡ D.asked door.old }
    ensures quiet { D.faults door.new ≡ D.faults door.old }
{
    while let Some(waiting) = queue.pop() {
        let Waiting { link, taken: _ } = waiting;
        door.take_back(link);
    }
}
