//! Messages of a stream are answered beside a journal.
ghost use Rattle.std.specs.Prelude.{◌≡◌, ◌≢◌};
ghost use Rattle.bw_out.specs.Causes.{Shows};
ghost use Rattle.bw_world.specs.Streams.Answers.{place};
ghost use Rattle.bw_world.specs.Streams.Good.{RepliesAreGood};
ghost use Rattle.bw_keeping.specs.Groups.{IsReady};
ghost use Rattle.bw_keeping.specs.StreamSteps.{AreSame, Goes, IsFew};
ghost use Rattle.bw_keeping.specs.Streamed.{Streams, sight};

use crate::ended::StreamEnded;
use crate::flushing::keep_group;
use crate::lent::{Handler, StreamRoom};
use crate::replying::send;
use crate::taking::take_kept;
use bw_out::{Door, Failed, Keys, Sink, Source, Steps, WriteFault};
use bw_stable::Journal;
use bw_world::{Taken, want_of};
use std::sync::ledger::Ledger;

/// What came of one message.
#[derive(Clone, Copy)]
pub(crate) enum Next {
    /// It was answered, and the stream may go on. 1 where the reply is that there was no memory.
    Answered(u32),
    /// The stream is over.
    Ended,
    ReadFault,
    WriteFault,
    JournalFault,
}

/// Answers the next message of a link, or what is none. What is kept of it is kept before its reply is written.
fn answer_next<C: Source + Sink, K: Keys, D: Door, J: Journal, L: Ledger>(
    handler: &mut Handler<'_, '_, '_, K, Steps<L>>,
    room: &mut StreamRoom,
    link: &mut C,
    door: &D,
    journal: &mut J,
) -> Next
    requires sound { J.is_sound journal.old }
    requires ready { IsReady room.old.group }
    ensures goes { Goes handler.old.formats.now handler.old.world.now.service (D.returned door.now)
        (sight (place C.Channel handler.old.world.now room.old.intake link.old (K.coming handler.old.keys.now) handler.old.steps.now)
        (J.deeds journal.old) room.old.group.sum)
        (sight (place C.Channel handler.new.world.now room.new.intake link.new (K.coming handler.new.keys.now) handler.new.steps.now)
        (J.deeds journal.new) room.new.group.sum) result }
    ensures few { IsFew result }
    ensures read_fault { Shows (result ≡ Next.ReadFault) (C.read_faults link.old) (C.read_faults link.new) }
    ensures write_fault { Shows (result ≡ Next.WriteFault) (C.write_faults link.old) (C.write_faults link.new) }
    ensures journal_fault { Shows (result ≡ Next.JournalFault) (J.faults journal.old) (J.faults journal.new) }
    ensures sound { result ≢ Next.JournalFault → J.is_sound journal.new }
    ensures ready { result ≢ Next.JournalFault → IsReady room.new.group }
    ensures same_link { C.same link.old link.new }
    ensures same { AreSame handler.old handler.new }
    ensures service { handler.new.world.now.service ≡ handler.old.world.now.service }
{
    let taken = take_kept(
        handler.alloc,
        handler.world,
        handler.formats,
        &mut room.intake,
        &mut room.notes,
        link,
        handler.keys,
        handler.steps,
        &mut room.group,
    );
    match taken {
        Taken::End => Next::Ended,
        Taken::ReadFault => Next::ReadFault,
        Taken::Refused(reply) => match send(handler.world, reply, link) {
            Ok(()) => Next::Ended,
            Err(WriteFault) => Next::WriteFault,
        },
        Taken::Answered(reply) => {
            let count = want_of(&reply);
            match keep_group(&mut room.group, link, door, journal) {
                Err(Failed) => Next::JournalFault,
                Ok(()) => match send(handler.world, reply, link) {
                    Ok(()) => Next::Answered(count),
                    Err(WriteFault) => Next::WriteFault,
                },
            }
        }
    }
}

/// Answers up to `most` messages of a link beside a journal, each before the next is read. What is kept of a message is in the
/// journal, in one piece, before a byte of its reply is written; the door is asked only what it has given back by then.
///
/// It ends as `bw_world::answer` does, or where the journal fails: the message was then handled, but isn't kept, and no byte of
/// its reply is written. Each fault comes exactly where its count rose. What is left of the stream is in the intake and in
/// the link, so that a further call goes on from there, but for a journal's fault.
///
/// Every page among the replies is good, as those of `bw_world::answer` are.
pub fn answer_kept<C: Source + Sink, K: Keys, D: Door, J: Journal, L: Ledger>(
    handler: &mut Handler<'_, '_, '_, K, Steps<L>>,
    room: &mut StreamRoom,
    link: &mut C,
    door: &D,
    journal: &mut J,
    most: u32,
) -> StreamEnded
    requires sound { J.is_sound journal.old }
    requires ready { IsReady room.old.group }
    ensures streams { Streams handler.old.formats.now handler.old.world.now.service most (D.returned door.now)
        (sight (place C.Channel handler.old.world.now room.old.intake link.old (K.coming handler.old.keys.now) handler.old.steps.now)
        (J.deeds journal.old) room.old.group.sum)
        (sight (place C.Channel handler.new.world.now room.new.intake link.new (K.coming handler.new.keys.now) handler.new.steps.now)
        (J.deeds journal.new) room.new.group.sum) result }
    ensures read_fault { Shows (result ≡ StreamEnded.ReadFault) (C.read_faults link.old) (C.read_faults link.new) }
    ensures write_fault { Shows (result ≡ StreamEnded.WriteFault) (C.write_faults link.old) (C.write_faults link.new) }
    ensures journal_fault { Shows (result ≡ StreamEnded.JournalFault) (J.faults journal.old) (J.faults journal.new) }
    ensures sound { result ≢ StreamEnded.JournalFault → J.is_sound journal.new }
    ensures ready { result ≢ StreamEnded.JournalFault → IsReady room.new.group }
    ensures same_link { C.same link.old link.new }
    ensures same { AreSame handler.old handler.new }
    ensures service { handler.new.world.now.service ≡ handler.old.world.now.service }
    ensures pages { RepliesAreGood handler.old.formats.now handler.old.world.now.service
        (place C.Channel handler.old.world.now room.old.intake link.old (K.coming handler.old.keys.now) handler.old.steps.now) }
{
    let mut count: u32 = 0;
    'messages: for turn in 0..most {
        match answer_next(handler, room, link, door, journal) {
            Next::Answered(want) => count += want,
            Next::Ended => return StreamEnded::Ended(count),
            Next::ReadFault => return StreamEnded::ReadFault,
            Next::WriteFault => return StreamEnded::WriteFault,
            Next::JournalFault => return StreamEnded::JournalFault,
        }
    }
    StreamEnded::Ended(count)
}
