//! One message, answered in memory.
ghost use Rattle.std.specs.Prelude.{◌≡◌, ◌<◌, ℕ, true, length};
ghost use Rattle.bw_world.specs.Streams.Answers.{Answers, between};
ghost use Rattle.bw_visit.specs.Exchanges.{AreSame, Exchanges, standing};

use crate::lent::{Host, Room};
use crate::limits::MAX_REPLY_BYTES;
use bw_http::Intake;
use bw_out::{Keys, MemSource, Pair, Sink, Source, Steps};
use bw_world::{StreamEnd, answer};
use std::sync::ledger::Ledger;

/// Sends the message and takes the reply to it into the sink. `false` where the sink or the message failed, which is said to
/// be want of memory.
pub(crate) fn exchange<K: Keys, L: Ledger>(
    host: &mut Host<'_, '_, '_, K, Steps<L>>,
    room: &mut Room<'_>,
) -> bool
    requires some { 0 < length room.old.message.items }
    ensures exchanges { result ≡ true → Exchanges room.old.message.items (standing K.Keys host.old) (standing K.Keys host.new) room.new.sink.held }
    ensures service { host.new.world.now.service ≡ host.old.world.now.service }
    ensures same { AreSame host.old host.new }
{
    room.sink.clear();
    room.intake.clear();
    let message = room.message.as_slice();
    let mut source = MemSource::new(message, message.len(), &[]);
    if !answer_one(host, &mut room.intake, &mut source, &mut room.sink) {
        return false;
    }
    room.sink.bytes().len() <= MAX_REPLY_BYTES
}

/// Answers the one message of a source into a sink.
fn answer_one<S: Source, W: Sink, K: Keys, L: Ledger>(
    host: &mut Host<'_, '_, '_, K, Steps<L>>,
    intake: &mut Intake,
    source: &mut S,
    sink: &mut W,
) -> bool
    ensures answers { result ≡ true → (count : ℕ) × Answers host.old.formats.now host.old.world.now.service 1
        (between host.old.world.now intake.old (S.left source.old) (W.held sink.old) (K.coming host.old.keys.now) host.old.steps.now)
        (between host.new.world.now intake.new (S.left source.new) (W.held sink.new) (K.coming host.new.keys.now) host.new.steps.now)
        (StreamEnd.Ended count) }
    ensures service { host.new.world.now.service ≡ host.old.world.now.service }
    ensures same { AreSame host.old host.new }
{
    let mut link = Pair { source, sink };
    let end = answer(
        host.alloc,
        host.world,
        host.formats,
        intake,
        &mut link,
        host.keys,
        1,
        host.steps,
    );
    match end {
        StreamEnd::Ended(_) => true,
        StreamEnd::ReadFault | StreamEnd::WriteFault => false,
    }
}
