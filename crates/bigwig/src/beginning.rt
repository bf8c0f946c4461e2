//! A journal that was read is begun, and links are served beside it.
ghost use Rattle.std.specs.Prelude.{◌≡◌, ◌≢◌, ◌⊎◌, ℕ, List, [], IfSome, OnErr, OnOk};
ghost use Rattle.bw_model.specs.Sessions as model;
ghost use Rattle.bw_out.specs.Causes.{HasCause, Shows};
ghost use Rattle.bw_world.specs.Stands.{StandsFor};
ghost use Rattle.bw_questions.specs.Asked.{Ruled};
ghost use Rattle.bw_questions.specs.Checks.{IsRuled};
ghost use Rattle.bigwig.specs.Fits.{IsFitWorld};
ghost use Rattle.bw_questions.specs.Asked.Task.{to_serve};
ghost use Rattle.bigwig.specs.Finding.{IsRead, begun_by, sum_of};
ghost use Rattle.bigwig.specs.Keeping.{EndsWith, IsKept, Keeps, fault_line};
ghost use Rattle.bw_stable.specs.Deeds.{DoesAll, DoesFirst};
ghost use Rattle.bw_keeping.specs.Served.{Serves, view};
ghost use Rattle.bw_keeping.specs.declared.ended.Ended.{Ended as Ended_};
ghost use Rattle.bigwig.specs.Lent.{AreSame, ShowsJournal, seen_of};
ghost use Rattle.bw_questions.specs.Reports.{Prints};

use crate::keeping::Place;
use crate::lent::Lent;
use crate::readying::Opening;
use crate::server::Server;
use crate::serving::print_serving;
use bw_keeping::{Ended, Room, serve_kept};
use bw_out::{Failed, Files, Keys, Sink, Steps, WriteFault};
use bw_questions::{Status, print_line};
use bw_stable::{Journal, Journals, WideDoor, replace};
use std::alloc::Global;
use std::sync::ledger::Ledger;

/// Serves a port beside a journal of which all was read. The memory for links is taken first.
pub fn serve_beside<F: Files, J: Journals, I: Journal, D: WideDoor, K: Keys, W: Sink, L: Ledger>(
    server: &mut Server,
    opening: Opening,
    place: Place,
    journal: &mut I,
    lent: &mut Lent<F, J, D, K, W, Steps<L>>,
) -> Status
    requires journal { I.is_sound journal.old }
    requires none { IfSome (I.deeds journal.old) (λ deeds. deeds ≡ []) }
    ensures keeps { (ruled : Ruled) (text content : List ℕ) → IsRuled server.old.world.service server.old.formats ruled
        → IsRead ruled text content place.rotate server.old.world opening
        → IsKept ruled text content (to_serve place.port place.most place.rotate)
        (record (seen_of F.Files J.Journals D.Door K.Keys W.Channel lent.old) { deeds = I.deeds journal.old })
        (record (seen_of F.Files J.Journals D.Door K.Keys W.Channel lent.new) { deeds = I.deeds journal.new }) result }
    ensures others { (result ≢ Status.Usage) × (result ≢ Status.ReadFault) }
    ensures write_fault { Shows (result ≡ Status.WriteFault) (W.write_faults lent.old.out.now) (W.write_faults lent.new.out.now) }
    ensures door_fault { Shows (result ≡ Status.DoorFault) (D.faults lent.old.door.now) (D.faults lent.new.door.now) }
    ensures journal_fault { ShowsJournal result (I.faults journal.old) (I.faults journal.new) }
    ensures kept { (lent.new.files.now ≡ lent.old.files.now) × (lent.new.journals.now ≡ lent.old.journals.now) }
    ensures same { AreSame lent.old lent.new }
{
    let Ok(mut room) = Room::new(server.alloc, opening.sum()) else {
        drop(opening);
        return Status::Memory;
    };
    let status = keep_begun(server, &mut room, &opening, place, journal, lent);
    room.close();
    drop(opening);
    status
}

/// The same with memory for links: the journal is begun, and then they are served.
fn keep_begun<F: Files, J: Journals, I: Journal, D: WideDoor, K: Keys, W: Sink, L: Ledger>(
    server: &mut Server,
    room: &mut Room<D::Link>,
    opening: &Opening,
    place: Place,
    journal: &mut I,
    lent: &mut Lent<F, J, D, K, W, Steps<L>>,
) -> Status
    requires journal { I.is_sound journal.old }
    requires none { IfSome (I.deeds journal.old) (λ deeds. deeds ≡ []) }
    requires bytes { room.old.group.bytes ≡ [] }
    requires sum { room.old.group.sum ≡ sum_of opening.now }
    requires queue { room.old.queue.links.items ≡ [] }
    ensures keeps { (ruled : Ruled) (text content : List ℕ) → IsRuled server.old.world.service server.old.formats ruled
        → IsRead ruled text content place.rotate server.old.world opening.now
        → IsKept ruled text content (to_serve place.port place.most place.rotate)
        (record (seen_of F.Files J.Journals D.Door K.Keys W.Channel lent.old) { deeds = I.deeds journal.old })
        (record (seen_of F.Files J.Journals D.Door K.Keys W.Channel lent.new) { deeds = I.deeds journal.new }) result }
    ensures others { (result ≢ Status.Usage) × (result ≢ Status.ReadFault) }
    ensures write_fault { Shows (result ≡ Status.WriteFault) (W.write_faults lent.old.out.now) (W.write_faults lent.new.out.now) }
    ensures door_fault { Shows (result ≡ Status.DoorFault) (D.faults lent.old.door.now) (D.faults lent.new.door.now) }
    ensures journal_fault { ShowsJournal result (I.faults journal.old) (I.faults journal.new) }
    ensures kept { (lent.new.files.now ≡ lent.old.files.now) × (lent.new.journals.now ≡ lent.old.journals.now) }
    ensures same { AreSame lent.old lent.new }
    ensures queue { room.new.queue.links.items ≡ [] }
{
    match begin(opening, journal, lent.door, lent.out) {
        Err(Failed) => tell_fault(lent.out),
        Ok(()) => keep_port(server, room, place, journal, lent),
    }
}

/// Makes a journal ready for entries: puts the head there where there is none, cuts off what is less than an entry, or puts a new
/// file in its place. Where it fails, the first of these deeds were done, none or all among them, and nothing else.
pub fn begin<J: Journal, D: WideDoor, W: Sink>(
    opening: &Opening,
    journal: &mut J,
    door: &D,
    out: &W,
) -> Result<(), Failed>
    requires { J.is_sound journal.old }
    ensures begun { OnOk result (DoesAll (J.deeds journal.old) (J.deeds journal.new) (begun_by opening.now (D.returned door.now) (W.held out.now))) }
    ensures failed { OnErr result (DoesFirst (J.deeds journal.old) (J.deeds journal.new) (begun_by opening.now (D.returned door.now) (W.held out.now))) }
    ensures sound { OnOk result (J.is_sound journal.new) }
    ensures cause { HasCause (J.faults journal.old) (J.faults journal.new) result }
{
    match opening {
        Opening::Head { head, .. } => {
            journal.cut(0)?;
            journal.keep(door, out, head)
        }
        Opening::Cut { len, .. } => journal.cut(*len),
        Opening::Anew { head, .. } => replace(journal, head),
    }
}

/// Listens, prints the line that says so, and then serves links beside a journal that is begun.
fn keep_port<F: Files, J: Journals, I: Journal, D: WideDoor, K: Keys, W: Sink, L: Ledger>(
    server: &mut Server,
    room: &mut Room<D::Link>,
    place: Place,
    journal: &mut I,
    lent: &mut Lent<F, J, D, K, W, Steps<L>>,
) -> Status
    requires journal { I.is_sound journal.old }
    requires bytes { room.old.group.bytes ≡ [] }
    requires queue { room.old.queue.links.items ≡ [] }
    ensures serves { (ruled : Ruled) (m : model.World) → IsRuled server.old.world.service server.old.formats ruled → StandsFor server.old.world m
        → IsFitWorld ruled m → Keeps ruled m place.port place.most room.old.group.sum
        (record (seen_of F.Files J.Journals D.Door K.Keys W.Channel lent.old) { deeds = I.deeds journal.old })
        (record (seen_of F.Files J.Journals D.Door K.Keys W.Channel lent.new) { deeds = I.deeds journal.new }) result }
    ensures others { (result ≢ Status.Usage) × (result ≢ Status.ReadFault) }
    ensures write_fault { Shows (result ≡ Status.WriteFault) (W.write_faults lent.old.out.now) (W.write_faults lent.new.out.now) }
    ensures door_fault { Shows (result ≡ Status.DoorFault) (D.faults lent.old.door.now) (D.faults lent.new.door.now) }
    ensures journal_fault { ShowsJournal result (I.faults journal.old) (I.faults journal.new) }
    ensures kept { (lent.new.files.now ≡ lent.old.files.now) × (lent.new.journals.now ≡ lent.old.journals.now) }
    ensures same { AreSame lent.old lent.new }
    ensures queue { room.new.queue.links.items ≡ [] }
{
    match lent.door.listen(place.port) {
        Err(Failed) => Status::DoorFault,
        Ok(()) => match print_serving(lent.out, place.port) {
            Err(WriteFault) => Status::WriteFault,
            Ok(()) => keep_links(server, room, place.most, journal, lent),
        },
    }
}

/// The same where the port is listened on and that was printed.
fn keep_links<F: Files, J: Journals, I: Journal, D: WideDoor, K: Keys, W: Sink, L: Ledger>(
    server: &mut Server,
    room: &mut Room<D::Link>,
    most: u32,
    journal: &mut I,
    lent: &mut Lent<F, J, D, K, W, Steps<L>>,
) -> Status
    requires journal { I.is_sound journal.old }
    requires bytes { room.old.group.bytes ≡ [] }
    requires queue { room.old.queue.links.items ≡ [] }
    ensures serves { (end : Ended_) × EndsWith (W.held lent.old.out.now) (W.held lent.new.out.now) end result
        × Serves server.old.formats server.old.world.service most
        (view server.old.world (K.coming lent.old.keys.now) (D.coming lent.old.door.now) (D.returned lent.old.door.now) (I.deeds journal.old)
        room.old.group.sum lent.old.steps.now)
        (view server.new.world (K.coming lent.new.keys.now) (D.coming lent.new.door.now) (D.returned lent.new.door.now) (I.deeds journal.new)
        room.new.group.sum lent.new.steps.now) end }
    ensures others { (result ≢ Status.Usage) × (result ≢ Status.ReadFault) }
    ensures asked { D.asked lent.new.door.now ≡ D.asked lent.old.door.now }
    ensures write_fault { Shows (result ≡ Status.WriteFault) (W.write_faults lent.old.out.now) (W.write_faults lent.new.out.now) }
    ensures door_fault { Shows (result ≡ Status.DoorFault) (D.faults lent.old.door.now) (D.faults lent.new.door.now) }
    ensures journal_fault { ShowsJournal result (I.faults journal.old) (I.faults journal.new) }
    ensures kept { (lent.new.files.now ≡ lent.old.files.now) × (lent.new.journals.now ≡ lent.old.journals.now) }
    ensures same { AreSame lent.old lent.new }
    ensures queue { room.new.queue.links.items ≡ [] }
{
    let ended = serve_kept(
        server.alloc,
        &mut server.world,
        &server.formats,
        room,
        lent.door,
        journal,
        lent.keys,
        most,
        lent.steps,
    );
    match ended {
        Ended::Done => Status::Done,
        Ended::DoorFault => Status::DoorFault,
        Ended::JournalFault => tell_fault(lent.out),
    }
}

/// Prints that the journal failed.
pub fn tell_fault<W: Sink>(out: &mut W) -> Status
    ensures prints { Prints (record { status = Status.JournalFault; text = fault_line }) (W.held out.old) (W.held out.new) result }
    ensures status { (result ≡ Status.JournalFault) ⊎ (result ≡ Status.WriteFault) }
    ensures write_fault { Shows (result ≡ Status.WriteFault) (W.write_faults out.old) (W.write_faults out.new) }
{
    print_line(out, Status::JournalFault, b"journal fault")
}
