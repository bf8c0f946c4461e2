//! `replay`: requests of a file, answered by the service of another.
ghost use Rattle.std.specs.Prelude.{◌≡◌, ◌≢◌, List, ℕ, [], IfSome, Some};
ghost use Rattle.bw_out.specs.Causes.{Shows};
ghost use Rattle.bw_save.specs.Frozen.{loaded_of};
ghost use Rattle.bw_world.specs.Streams.Answers as answers;
ghost use Rattle.bw_world.specs.Streams.Good.{RepliesAreGood};
ghost use Rattle.bw_questions.specs.Asked.{Ruled};
ghost use Rattle.bigwig.specs.Asked.{replayed, replayed_from};
ghost use Rattle.bw_questions.specs.Checks.{IsRuled};
ghost use Rattle.bigwig.specs.Fits.{IsFitStart};
ghost use Rattle.bigwig.specs.Lent.{AreSame, HasCauses, faults_of};
ghost use Rattle.bigwig.specs.Works as works;
ghost use Rattle.bigwig.specs.Outcomes.{Replies};

use crate::lent::Lent;
use crate::server::Server;
use crate::thawing::begin_server;
use bw_lang::Text;
use bw_out::{Door, Failed, Files, Keys, Pair, Sink, Source, Steps};
use bw_questions::{Kept, Status, no_file, report};
use bw_stable::Journals;
use bw_world::{StreamEnd, answer};
use std::alloc::Global;
use std::sync::ledger::Ledger;

/// `replay`: answers the requests of a file by a service that is accepted, from the saved sessions on that are named, if they are.
/// These are looked for before the requests.
pub fn replay_service<F: Files, J: Journals, D: Door, K: Keys, W: Sink, L: Ledger>(
    alloc: Global,
    kept: Kept,
    load: &Option<Text>,
    name: &str,
    most: u32,
    lent: &mut Lent<F, J, D, K, W, Steps<L>>,
) -> Status
    ensures comes { IfSome (F.told lent.old.files.now) (λ disk. (ruled : Ruled) (service : List ℕ)
        → IsRuled kept.served.checked.typed.service kept.served.formats ruled → disk service ≡ Some kept.text.items
        → Replies (replayed_from disk service load.now name.now most ruled)
        (W.held lent.old.out.now) (W.held lent.new.out.now) (K.coming lent.old.keys.now) (K.coming lent.new.keys.now) (F.unread lent.new.files.now)
        lent.old.steps.now lent.new.steps.now result) }
    ensures not_usage { result ≢ Status.Usage }
    ensures causes { HasCauses result (faults_of F.Files J.Journals D.Door W.Channel lent.old) (faults_of F.Files J.Journals D.Door W.Channel lent.new) }
    ensures others { (lent.new.door.now ≡ lent.old.door.now) × (lent.new.journals.now ≡ lent.old.journals.now) }
    ensures same { AreSame lent.old lent.new }
{
    let Kept { served, text } = kept;
    let begun = begin_server(alloc, lent.files, served, &text, load);
    drop(text);
    match begun {
        Ok(mut server) => {
            let status = replay_from(&mut server, name, most, lent);
            drop(server);
            status
        }
        Err(stop) => report(lent.out, stop),
    }
}

/// The same by a server that has answered nothing yet. The file is closed again.
fn replay_from<F: Files, J: Journals, D: Door, K: Keys, W: Sink, L: Ledger>(
    server: &mut Server,
    name: &str,
    most: u32,
    lent: &mut Lent<F, J, D, K, W, Steps<L>>,
) -> Status
    requires fit { IsFitStart server.old.formats server.old.world }
    requires none { server.old.intake ≡ [] }
    ensures comes { IfSome (F.told lent.old.files.now) (λ disk. (ruled : Ruled) → IsRuled server.old.world.service server.old.formats ruled →
        Replies (replayed disk name.now most ruled (loaded_of server.old.world))
        (W.held lent.old.out.now) (W.held lent.new.out.now) (K.coming lent.old.keys.now) (K.coming lent.new.keys.now) (F.unread lent.new.files.now)
        lent.old.steps.now lent.new.steps.now result) }
    ensures not_usage { result ≢ Status.Usage }
    ensures causes { HasCauses result (faults_of F.Files J.Journals D.Door W.Channel lent.old) (faults_of F.Files J.Journals D.Door W.Channel lent.new) }
    ensures others { (lent.new.door.now ≡ lent.old.door.now) × (lent.new.journals.now ≡ lent.old.journals.now) }
    ensures same { AreSame lent.old lent.new }
{
    match lent.files.fetch(name) {
        Err(Failed) => Status::ReadFault,
        Ok(None) => report(lent.out, no_file(server.alloc, name)),
        Ok(Some(mut file)) => {
            let end = answer_source(server, &mut file, lent.keys, lent.out, most, lent.steps);
            lent.files.close(file);
            status_of(end)
        }
    }
}

/// The status of a stream that ended so.
fn status_of(end: StreamEnd) -> Status
    ensures { result ≡ works.status_of end }
{
    match end {
        StreamEnd::Ended(_) => Status::Done,
        StreamEnd::ReadFault => Status::ReadFault,
        StreamEnd::WriteFault => Status::WriteFault,
    }
}

/// Answers up to `most` messages of a source into a sink, as `answer` does those of a link.
pub fn answer_source<S: Source, K: Keys, W: Sink, L: Ledger>(
    server: &mut Server,
    source: &mut S,
    keys: &mut K,
    out: &mut W,
    most: u32,
    steps: &mut Steps<L>,
) -> StreamEnd
    ensures answers { answers.Answers server.old.formats server.old.world.service most
        (answers.between server.old.world server.old.intake (S.left source.old) (W.held out.old) (K.coming keys.old) steps.old)
        (answers.between server.new.world server.new.intake (S.left source.new) (W.held out.new) (K.coming keys.new) steps.new) result }
    ensures pages { RepliesAreGood server.old.formats server.old.world.service
        (answers.between server.old.world server.old.intake (S.left source.old) (W.held out.old) (K.coming keys.old) steps.old) }
    ensures service { server.new.world.service ≡ server.old.world.service }
    ensures read_fault { Shows (result ≡ StreamEnd.ReadFault) (S.read_faults source.old) (S.read_faults source.new) }
    ensures write_fault { Shows (result ≡ StreamEnd.WriteFault) (W.write_faults out.old) (W.write_faults out.new) }
{
    let mut link = Pair { source, sink: out };
    answer(
        server.alloc,
        &mut server.world,
        &server.formats,
        &mut server.intake,
        &mut link,
        keys,
        most,
        steps,
    )
}
