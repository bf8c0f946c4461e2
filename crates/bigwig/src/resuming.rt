//! `replay` beside a journal: the requests of a file are answered over the world that the journal brings about.
ghost use Rattle.std.specs.Prelude.{◌≡◌, ◌≢◌, ◌≤◌, ℕ, List, [], length, Option, IfSome, None, Some};
ghost use Rattle.bw_keeping.specs.Groups.{IsReady};
ghost use Rattle.bw_keeping.specs.StreamSteps as handles;
ghost use Rattle.bw_keeping.specs.Streamed.{Streams, sight};
ghost use Rattle.bw_keeping.specs.declared.ended.StreamEnded.{StreamEnded as StreamEnded_};
ghost use Rattle.bw_lang.specs.declared.limits.TheConstants.{MAX_FILE_BYTES};
ghost use Rattle.bw_out.specs.Causes.{Shows};
ghost use Rattle.bw_world.specs.Streams.Answers.{between};
ghost use Rattle.bw_world.specs.Streams.Good.{RepliesAreGood};
ghost use Rattle.bw_questions.specs.Asked.{Ruled};
ghost use Rattle.bigwig.specs.Asked.{resumed as asks};
ghost use Rattle.bw_questions.specs.Asked.Task.{to_answer};
ghost use Rattle.bw_questions.specs.Checks.{IsRuled};
ghost use Rattle.bigwig.specs.Finding.{IsRead};
ghost use Rattle.bigwig.specs.Keeping.{AnswersEndWith, IsKept};
ghost use Rattle.bigwig.specs.Lent.{AreSame, HasCauses, ShowsJournal, faults_of, seen_of};
ghost use Rattle.bigwig.specs.Outcomes.{Comes};

use crate::beginning::{begin, tell_fault};
use crate::keeping::{Stream, Task, close_stream, keep_service};
use crate::lent::Lent;
use crate::readying::Opening;
use crate::server::Server;
use bw_keeping::{Handler, StreamEnded, StreamRoom, answer_kept};
use bw_lang::Text;
use bw_out::{Failed, Files, Keys, Pair, Sink, Source, Steps};
use bw_questions::{Kept, Status, no_file, report};
use bw_stable::{Journal, Journals, WideDoor};
use std::alloc::Global;
use std::sync::ledger::Ledger;

/// What is answered beside a journal: how many requests at most, and by which names the file and the journal are found.
#[derive(Clone, Copy)]
pub struct Resumed<'r, 'j> {
    /// The name of the file of requests.
    pub requests: &'r Text,
    /// The name of the journal.
    pub journal: &'j Text,
    /// The greatest number of requests that are answered.
    pub most: u32,
}

/// `replay` beside a journal, of a service that is accepted: the world that the journal brings about is brought back, and then the
/// requests of a file are answered. The file is looked for before the journal.
pub fn resume_service<F: Files, J: Journals, D: WideDoor, K: Keys, W: Sink, L: Ledger>(
    alloc: Global,
    kept: Kept,
    resumed: Resumed<'_, '_>,
    lent: &mut Lent<F, J, D, K, W, Steps<L>>,
) -> Status
    requires text { length kept.text.items ≤ MAX_FILE_BYTES }
    ensures comes { IfSome (F.told lent.old.files.now) (λ disk. (ruled : Ruled) (name : List ℕ)
        → IsRuled kept.served.checked.typed.service kept.served.formats ruled → disk name ≡ Some kept.text.items
        → Comes (asks disk name resumed.entry.requests.now resumed.entry.journal.now resumed.entry.most ruled)
        (seen_of F.Files J.Journals D.Door K.Keys W.Channel lent.old) (seen_of F.Files J.Journals D.Door K.Keys W.Channel lent.new) result) }
    ensures not_usage { result ≢ Status.Usage }
    ensures causes { HasCauses result (faults_of F.Files J.Journals D.Door W.Channel lent.old) (faults_of F.Files J.Journals D.Door W.Channel lent.new) }
    ensures same { AreSame lent.old lent.new }
{
    let name = resumed.requests.as_str();
    match lent.files.fetch(name) {
        Err(Failed) => {
            drop(kept);
            Status::ReadFault
        }
        Ok(None) => {
            drop(kept);
            report(lent.out, no_file(alloc, name))
        }
        Ok(Some(file)) => {
            let most = resumed.most;
            let task = Task::Stream(Stream { file, most });
            keep_service(alloc, kept, resumed.journal.as_str(), task, lent)
        }
    }
}

/// Answers the requests of a file beside a journal of which all was read. The memory for that is taken first, and the file is
/// closed again.
pub fn resume_beside<F: Files, J: Journals, I: Journal, D: WideDoor, K: Keys, W: Sink, L: Ledger>(
    server: &mut Server,
    opening: Opening,
    mut stream: Stream<F::File>,
    journal: &mut I,
    lent: &mut Lent<F, J, D, K, W, Steps<L>>,
) -> Status
    requires journal { I.is_sound journal.old }
    requires none { IfSome (I.deeds journal.old) (λ deeds. deeds ≡ []) }
    requires fresh { F.File.read_faults stream.file ≡ 0 }
    ensures keeps { (ruled : Ruled) (text content bytes : List ℕ) → IsRuled server.old.world.service server.old.formats ruled
        → IsRead ruled text content None server.old.world opening → F.File.left stream.file ≡ Some bytes
        → IsKept ruled text content (to_answer bytes stream.most)
        (record (seen_of F.Files J.Journals D.Door K.Keys W.Channel lent.old) { deeds = I.deeds journal.old })
        (record (seen_of F.Files J.Journals D.Door K.Keys W.Channel lent.new) { deeds = I.deeds journal.new }) result }
    ensures others { (result ≢ Status.Usage) × (result ≢ Status.DoorFault) }
    ensures read_fault { Shows (result ≡ Status.ReadFault) (F.faults lent.old.files.now) (F.faults lent.new.files.now) }
    ensures write_fault { Shows (result ≡ Status.WriteFault) (W.write_faults lent.old.out.now) (W.write_faults lent.new.out.now) }
    ensures journal_fault { ShowsJournal result (I.faults journal.old) (I.faults journal.new) }
    ensures kept { (lent.new.door.now ≡ lent.old.door.now) × (lent.new.journals.now ≡ lent.old.journals.now) }
    ensures same { AreSame lent.old lent.new }
{
    let Ok(mut room) = StreamRoom::new(server.alloc, opening.sum()) else {
        close_stream(stream, lent.files);
        drop(opening);
        return Status::Memory;
    };
    let began = begin(&opening, journal, lent.door, lent.out);
    drop(opening);
    match began {
        Err(Failed) => {
            close_stream(stream, lent.files);
            drop(room);
            tell_fault(lent.out)
        }
        Ok(()) => {
            let status = answer_requests(server, &mut room, &mut stream, journal, lent);
            let Stream { file, most: _ } = stream;
            lent.files.close(file);
            drop(room);
            status
        }
    }
}

/// Answers requests of a file beside a journal that is begun, and prints it where the journal failed.
fn answer_requests<
    S: Source,
    F: Files,
    J: Journals,
    I: Journal,
    D: WideDoor,
    K: Keys,
    W: Sink,
    L: Ledger,
>(
    server: &mut Server,
    room: &mut StreamRoom,
    stream: &mut Stream<S>,
    journal: &mut I,
    lent: &mut Lent<F, J, D, K, W, Steps<L>>,
) -> Status
    requires journal { I.is_sound journal.old }
    requires ready { IsReady room.old.group }
    ensures streams { (end : StreamEnded_) × (printed : Option (List ℕ)) × AnswersEndWith printed (W.held lent.new.out.now) end result
        × Streams server.old.formats server.old.world.service stream.old.most (D.returned lent.old.door.now)
        (sight (between server.old.world room.old.intake (S.left stream.old.file) (W.held lent.old.out.now) (K.coming lent.old.keys.now) lent.old.steps.now)
        (I.deeds journal.old) room.old.group.sum)
        (sight (between server.new.world room.new.intake (S.left stream.new.file) printed (K.coming lent.new.keys.now) lent.new.steps.now)
        (I.deeds journal.new) room.new.group.sum) end }
    ensures pages { RepliesAreGood server.old.formats server.old.world.service
        (between server.old.world room.old.intake (S.left stream.old.file) (W.held lent.old.out.now) (K.coming lent.old.keys.now) lent.old.steps.now) }
    ensures others { (result ≢ Status.Usage) × (result ≢ Status.DoorFault) }
    ensures read_fault { Shows (result ≡ Status.ReadFault) (S.read_faults stream.old.file) (S.read_faults stream.new.file) }
    ensures write_fault { Shows (result ≡ Status.WriteFault) (W.write_faults lent.old.out.now) (W.write_faults lent.new.out.now) }
    ensures journal_fault { ShowsJournal result (I.faults journal.old) (I.faults journal.new) }
    ensures kept { (lent.new.files.now ≡ lent.old.files.now) × (lent.new.journals.now ≡ lent.old.journals.now) × (lent.new.door.now ≡ lent.old.door.now) }
    ensures same { AreSame lent.old lent.new }
{
    let alloc = server.alloc;
    let world = &mut server.world;
    let formats = &server.formats;
    let keys = &mut *lent.keys;
    let steps = &mut *lent.steps;
    let mut handler = Handler {
        alloc,
        world,
        formats,
        keys,
        steps,
    };
    let end = answer_stream(&mut handler, room, stream, lent.out, lent.door, journal);
    match end {
        StreamEnded::Ended(_) => Status::Done,
        StreamEnded::ReadFault => Status::ReadFault,
        StreamEnded::WriteFault => Status::WriteFault,
        StreamEnded::JournalFault => tell_fault(lent.out),
    }
}

/// Answers requests of a file on the output, as `answer_kept` does those of a link.
fn answer_stream<S: Source, W: Sink, D: WideDoor, I: Journal, K: Keys, L: Ledger>(
    handler: &mut Handler<'_, '_, '_, K, Steps<L>>,
    room: &mut StreamRoom,
    stream: &mut Stream<S>,
    out: &mut W,
    door: &D,
    journal: &mut I,
) -> StreamEnded
    requires journal { I.is_sound journal.old }
    requires ready { IsReady room.old.group }
    ensures streams { Streams handler.old.formats.now handler.old.world.now.service stream.old.most (D.returned door.now)
        (sight (between handler.old.world.now room.old.intake (S.left stream.old.file) (W.held out.old) (K.coming handler.old.keys.now) handler.old.steps.now)
        (I.deeds journal.old) room.old.group.sum)
        (sight (between handler.new.world.now room.new.intake (S.left stream.new.file) (W.held out.new) (K.coming handler.new.keys.now) handler.new.steps.now)
        (I.deeds journal.new) room.new.group.sum) result }
    ensures pages { RepliesAreGood handler.old.formats.now handler.old.world.now.service
        (between handler.old.world.now room.old.intake (S.left stream.old.file) (W.held out.old) (K.coming handler.old.keys.now) handler.old.steps.now) }
    ensures read_fault { Shows (result ≡ StreamEnded.ReadFault) (S.read_faults stream.old.file) (S.read_faults stream.new.file) }
    ensures write_fault { Shows (result ≡ StreamEnded.WriteFault) (W.write_faults out.old) (W.write_faults out.new) }
    ensures journal_fault { Shows (result ≡ StreamEnded.JournalFault) (I.faults journal.old) (I.faults journal.new) }
    ensures same { handles.AreSame handler.old handler.new }
{
    let source = &mut stream.file;
    let mut link = Pair { source, sink: out };
    answer_kept(handler, room, &mut link, door, journal, stream.most)
}
