//! Streams of requests, and their answers.
ghost use Rattle.std.specs.Prelude.{◌≡◌, ◌≤◌, []};
ghost use Rattle.bw_lang.specs.Table.Names.{with_names};
ghost use Rattle.bw_out.specs.Causes.{Shows};
ghost use Rattle.bw_out.specs.Sends as sends;
ghost use Rattle.bw_types.specs.Fields.{field_names};
ghost use Rattle.bw_world.specs.Streams.Answers.{Answers, place};
ghost use Rattle.bw_world.specs.Streams.Good.{RepliesAreGood};
ghost use Rattle.bw_world.specs.Streams.Steps.Turns.{Takes, Goes, IsFew};
ghost use Rattle.bw_world.specs.Streams.Taking.{AreFit};

use crate::World;
use crate::ends::StreamEnd;
use crate::outcomes::{Next, Taken, want_of, without_request};
use crate::requests::guarded;
use bw_format::Formats;
use bw_http::{Intake, Reply, read_request, write_reply};
use bw_out::{Keys, Sink, Source, Steps, WriteFault};
use std::alloc::Global;
use std::sync::ledger::Ledger;

/// Takes a message of the link and handles it. There may be no memory for it, and it then draws no key.
fn take<C: Source + Sink, K: Keys, L: Ledger>(
    alloc: Global,
    world: &mut World,
    formats: &Formats,
    intake: &mut Intake,
    link: &mut C,
    keys: &mut K,
    steps: &mut Steps<L>,
) -> Taken
    ensures takes { Takes formats.now world.old.service (place C.Channel world.old intake.old link.old (K.coming keys.old) steps.old)
        (place C.Channel world.new intake.new link.new (K.coming keys.new) steps.new) result }
    ensures fit { AreFit world.old.service result }
    ensures reads { sends.Takes C.Channel link.old link.new (result ≡ Taken.ReadFault) }
    ensures service { world.new.service ≡ world.old.service }
{
    match read_request(alloc, intake, link) {
        Ok(request) => {
            let key = keys.draw();
            Taken::Answered(guarded(alloc, world, formats, &request, key, steps))
        }
        Err(outcome) => without_request(outcome),
    }
}

/// Answers the next message of a link, or what is none.
fn answer_next<C: Source + Sink, K: Keys, L: Ledger>(
    alloc: Global,
    world: &mut World,
    formats: &Formats,
    intake: &mut Intake,
    link: &mut C,
    keys: &mut K,
    steps: &mut Steps<L>,
) -> Next
    ensures goes { Goes formats.now world.old.service (place C.Channel world.old intake.old link.old (K.coming keys.old) steps.old)
        (place C.Channel world.new intake.new link.new (K.coming keys.new) steps.new) result }
    ensures few { IsFew result }
    ensures read_fault { Shows (result ≡ Next.ReadFault) (C.read_faults link.old) (C.read_faults link.new) }
    ensures write_fault { Shows (result ≡ Next.WriteFault) (C.write_faults link.old) (C.write_faults link.new) }
    ensures same { C.same link.old link.new }
    ensures service { world.new.service ≡ world.old.service }
{
    match take(alloc, world, formats, intake, link, keys, steps) {
        Taken::End => Next::Ended,
        Taken::ReadFault => Next::ReadFault,
        Taken::Refused(reply) => match write_reply(reply, world.checked().typed().fields(), link) {
            Ok(()) => Next::Ended,
            Err(WriteFault) => Next::WriteFault,
        },
        Taken::Answered(reply) => {
            let count = want_of(&reply);
            match write_reply(reply, world.checked().typed().fields(), link) {
                Ok(()) => Next::Answered(count),
                Err(WriteFault) => Next::WriteFault,
            }
        }
    }
}

/// Answers up to `most` messages of a link with these formats of fields, each before the next is read. Their bytes are taken
/// into the intake.
///
/// It ends where `most` messages were answered, where the link has ended, or behind the refusal of what can't be cut.
/// `ReadFault` and `WriteFault` come exactly where the count of that side of the link rose; a world whose reply couldn't
/// be written is as after the request. The steps rise by the costs of the requests, and by at most 100,000 for each that
/// there was no memory for. What is left of the stream is in the intake and in the link, so that a further call goes on
/// from there.
///
/// Every page among the replies is valid by each schema that accepts the service, the page of a show has each field that
/// the show receives, and the bytes read as this one page: so it is for each sound world that this one stands for, and
/// each `World` stands for one.
pub fn answer<C: Source + Sink, K: Keys, L: Ledger>(
    alloc: Global,
    world: &mut World,
    formats: &Formats,
    intake: &mut Intake,
    link: &mut C,
    keys: &mut K,
    most: u32,
    steps: &mut Steps<L>,
) -> StreamEnd
    ensures answers { Answers formats.now world.old.service most (place C.Channel world.old intake.old link.old (K.coming keys.old) steps.old)
        (place C.Channel world.new intake.new link.new (K.coming keys.new) steps.new) result }
    ensures read_fault { Shows (result ≡ StreamEnd.ReadFault) (C.read_faults link.old) (C.read_faults link.new) }
    ensures write_fault { Shows (result ≡ StreamEnd.WriteFault) (C.write_faults link.old) (C.write_faults link.new) }
    ensures same { C.same link.old link.new }
    ensures service { world.new.service ≡ world.old.service }
    ensures pages { RepliesAreGood formats.now world.old.service (place C.Channel world.old intake.old link.old (K.coming keys.old) steps.old) }
{
    let mut count: u32 = 0;
    'messages: for turn in 0..most {
        match answer_next(alloc, world, formats, intake, link, keys, steps) {
            Next::Answered(want) => count += want,
            Next::Ended => return StreamEnd::Ended(count),
            Next::ReadFault => return StreamEnd::ReadFault,
            Next::WriteFault => return StreamEnd::WriteFault,
        }
    }
    StreamEnd::Ended(count)
}
