//! Links that are served and requests that are answered beside a journal, over the world that it brings about.
ghost use Rattle.std.specs.Prelude.{◌≡◌, ◌≢◌, ◌≤◌, ℕ, List, [], length, IfSome};
ghost use Rattle.bw_lang.specs.declared.limits.TheConstants.{MAX_FILE_BYTES};
ghost use Rattle.bw_out.specs.Causes.{Shows};
ghost use Rattle.bw_questions.specs.Asked.{Ruled, Task as Task_};
ghost use Rattle.bw_questions.specs.Behind.{content_of};
ghost use Rattle.bw_questions.specs.Checks.{IsRuled};
ghost use Rattle.bigwig.specs.Finding.{IsFoundIn, IsFresh, IsRead, IsTask, rotate_in};
ghost use Rattle.bigwig.specs.Keeping.{IsKept};
ghost use Rattle.bigwig.specs.Lent.{AreSame, HasCauses, ShowsJournal, faults_of, seen_of};

use crate::beginning::{serve_beside, tell_fault};
use crate::bringing::{Brought, bring_back};
use crate::lent::Lent;
use crate::readying::{Opening, Ready, ready_for};
use crate::resuming::resume_beside;
use crate::server::Server;
use bw_lang::Memory;
use bw_out::{Failed, Files, Keys, Sink, Steps};
use bw_questions::{Kept, Status, report};
use bw_stable::{Journal, Journals, WideDoor};
use std::alloc::Global;
use std::sync::ledger::Ledger;

/// Where links are served, and how many.
#[derive(Clone, Copy)]
pub struct Place {
    /// The port.
    pub port: u16,
    /// The greatest number of links that are served.
    pub most: u32,
    /// The journal is begun anew if it has more bytes than these. Where there is no number, it never is.
    pub rotate: Option<u32>,
}

/// The requests of a file that was fetched. It has no `Drop`, so it has to be closed.
pub struct Stream<S> {
    pub file: S,
    /// The greatest number of requests that are answered.
    pub most: u32,
}

/// What is done beside a journal.
pub enum Task<S> {
    /// Links are served.
    Links(Place),
    /// Requests of a file are answered.
    Stream(Stream<S>),
}

/// `serve` and `replay` beside a journal, of a service that is accepted: the world that the journal brings about is brought back, and
/// then the task is done. What changes that world is kept before it is answered. The journal is opened, and closed again.
pub fn keep_service<F: Files, J: Journals, D: WideDoor, K: Keys, W: Sink, L: Ledger>(
    alloc: Global,
    kept: Kept,
    name: &str,
    task: Task<F::File>,
    lent: &mut Lent<F, J, D, K, W, Steps<L>>,
) -> Status
    requires text { length kept.text.items ≤ MAX_FILE_BYTES }
    requires fresh { IsFresh F.File.read_faults task }
    ensures keeps { IfSome (F.told lent.old.files.now) (λ disk. (ruled : Ruled) (x : Task_)
        → IsRuled kept.served.checked.typed.service kept.served.formats ruled → IsTask F.File.left task x
        → IsKept ruled kept.text.items (content_of (disk name.now)) x
        (seen_of F.Files J.Journals D.Door K.Keys W.Channel lent.old) (seen_of F.Files J.Journals D.Door K.Keys W.Channel lent.new) result) }
    ensures not_usage { result ≢ Status.Usage }
    ensures causes { HasCauses result (faults_of F.Files J.Journals D.Door W.Channel lent.old) (faults_of F.Files J.Journals D.Door W.Channel lent.new) }
    ensures same { AreSame lent.old lent.new }
{
    match lent.journals.open_journal(name) {
        Err(Failed) => {
            drop(kept);
            close_task(task, lent.files);
            tell_fault(lent.out)
        }
        Ok(mut journal) => {
            let status = keep_beside(alloc, kept, name, task, &mut journal, lent);
            lent.journals.close_journal(journal);
            status
        }
    }
}

/// The same beside a journal that is open. What the journal holds is read first.
fn keep_beside<F: Files, J: Journals, I: Journal, D: WideDoor, K: Keys, W: Sink, L: Ledger>(
    alloc: Global,
    kept: Kept,
    name: &str,
    task: Task<F::File>,
    journal: &mut I,
    lent: &mut Lent<F, J, D, K, W, Steps<L>>,
) -> Status
    requires text { length kept.text.items ≤ MAX_FILE_BYTES }
    requires fresh { IsFresh F.File.read_faults task }
    requires journal { I.is_sound journal.old }
    requires none { IfSome (I.deeds journal.old) (λ deeds. deeds ≡ []) }
    ensures keeps { IfSome (F.told lent.old.files.now) (λ disk. (ruled : Ruled) (x : Task_)
        → IsRuled kept.served.checked.typed.service kept.served.formats ruled → IsTask F.File.left task x
        → IsKept ruled kept.text.items (content_of (disk name.now)) x
        (record (seen_of F.Files J.Journals D.Door K.Keys W.Channel lent.old) { deeds = I.deeds journal.old })
        (record (seen_of F.Files J.Journals D.Door K.Keys W.Channel lent.new) { deeds = I.deeds journal.new }) result) }
    ensures not_usage { result ≢ Status.Usage }
    ensures read_fault { Shows (result ≡ Status.ReadFault) (F.faults lent.old.files.now) (F.faults lent.new.files.now) }
    ensures write_fault { Shows (result ≡ Status.WriteFault) (W.write_faults lent.old.out.now) (W.write_faults lent.new.out.now) }
    ensures door_fault { Shows (result ≡ Status.DoorFault) (D.faults lent.old.door.now) (D.faults lent.new.door.now) }
    ensures journal_fault { ShowsJournal result (I.faults journal.old) (I.faults journal.new) }
    ensures journals { lent.new.journals.now ≡ lent.old.journals.now }
    ensures same { AreSame lent.old lent.new }
{
    let Kept { served, text } = kept;
    match bring_back(alloc, served, &text, name, lent.files, lent.steps) {
        Err(stop) => {
            close_task(task, lent.files);
            drop(text);
            report(lent.out, stop)
        }
        Ok(brought) => {
            let status = keep_brought(brought, &text, task, journal, lent);
            drop(text);
            status
        }
    }
}

/// The same where its world was brought back. The memory for the task is taken before anything is done to the journal.
fn keep_brought<F: Files, J: Journals, I: Journal, D: WideDoor, K: Keys, W: Sink, L: Ledger>(
    brought: Brought,
    text: &[u8],
    task: Task<F::File>,
    journal: &mut I,
    lent: &mut Lent<F, J, D, K, W, Steps<L>>,
) -> Status
    requires text { length text.now ≤ MAX_FILE_BYTES }
    requires fresh { IsFresh F.File.read_faults task }
    requires journal { I.is_sound journal.old }
    requires none { IfSome (I.deeds journal.old) (λ deeds. deeds ≡ []) }
    ensures keeps { (ruled : Ruled) (content : List ℕ) (x : Task_) → IsRuled brought.server.world.service brought.server.formats ruled
        → IsTask F.File.left task x → IsFoundIn ruled text.now content brought.server.world brought.found → IsKept ruled text.now content x
        (record (seen_of F.Files J.Journals D.Door K.Keys W.Channel lent.old) { deeds = I.deeds journal.old })
        (record (seen_of F.Files J.Journals D.Door K.Keys W.Channel lent.new) { deeds = I.deeds journal.new }) result }
    ensures not_usage { result ≢ Status.Usage }
    ensures read_fault { Shows (result ≡ Status.ReadFault) (F.faults lent.old.files.now) (F.faults lent.new.files.now) }
    ensures write_fault { Shows (result ≡ Status.WriteFault) (W.write_faults lent.old.out.now) (W.write_faults lent.new.out.now) }
    ensures door_fault { Shows (result ≡ Status.DoorFault) (D.faults lent.old.door.now) (D.faults lent.new.door.now) }
    ensures journal_fault { ShowsJournal result (I.faults journal.old) (I.faults journal.new) }
    ensures journals { lent.new.journals.now ≡ lent.old.journals.now }
    ensures same { AreSame lent.old lent.new }
{
    match ready_for(brought, text, rotate_of(&task)) {
        Err(Memory) => {
            close_task(task, lent.files);
            Status::Memory
        }
        Ok(ready) => {
            let Ready {
                mut server,
                opening,
            } = ready;
            let status = do_task(&mut server, opening, task, journal, lent);
            drop(server);
            status
        }
    }
}

/// Does the task beside a journal of which all was read.
fn do_task<F: Files, J: Journals, I: Journal, D: WideDoor, K: Keys, W: Sink, L: Ledger>(
    server: &mut Server,
    opening: Opening,
    task: Task<F::File>,
    journal: &mut I,
    lent: &mut Lent<F, J, D, K, W, Steps<L>>,
) -> Status
    requires fresh { IsFresh F.File.read_faults task }
    requires journal { I.is_sound journal.old }
    requires none { IfSome (I.deeds journal.old) (λ deeds. deeds ≡ []) }
    ensures keeps { (ruled : Ruled) (text content : List ℕ) (x : Task_) → IsRuled server.old.world.service server.old.formats ruled
        → IsTask F.File.left task x → IsRead ruled text content (rotate_in task) server.old.world opening → IsKept ruled text content x
        (record (seen_of F.Files J.Journals D.Door K.Keys W.Channel lent.old) { deeds = I.deeds journal.old })
        (record (seen_of F.Files J.Journals D.Door K.Keys W.Channel lent.new) { deeds = I.deeds journal.new }) result }
    ensures not_usage { result ≢ Status.Usage }
    ensures read_fault { Shows (result ≡ Status.ReadFault) (F.faults lent.old.files.now) (F.faults lent.new.files.now) }
    ensures write_fault { Shows (result ≡ Status.WriteFault) (W.write_faults lent.old.out.now) (W.write_faults lent.new.out.now) }
    ensures door_fault { Shows (result ≡ Status.DoorFault) (D.faults lent.old.door.now) (D.faults lent.new.door.now) }
    ensures journal_fault { ShowsJournal result (I.faults journal.old) (I.faults journal.new) }
    ensures journals { lent.new.journals.now ≡ lent.old.journals.now }
    ensures same { AreSame lent.old lent.new }
{
    match task {
        Task::Links(place) => serve_beside(server, opening, place, journal, lent),
        Task::Stream(stream) => resume_beside(server, opening, stream, journal, lent),
    }
}

/// From how many bytes on a journal is begun anew for a task, if it ever is.
fn rotate_of<S>(task: &Task<S>) -> Option<u32>
    ensures { result ≡ rotate_in task.now }
{
    match task {
        Task::Links(place) => place.rotate,
        Task::Stream(_) => None,
    }
}

/// Closes the file of a task that isn't done.
fn close_task<F: Files>(task: Task<F::File>, files: &mut F)
    requires { IsFresh F.File.read_faults task }
    ensures told { F.told files.new ≡ F.told files.old }
    ensures quiet { F.faults files.new ≡ F.faults files.old }
{
    match task {
        Task::Links(_) => {}
        Task::Stream(stream) => close_stream(stream, files),
    }
}

/// Closes a file of which no request was read.
pub fn close_stream<F: Files>(stream: Stream<F::File>, files: &mut F)
    requires { F.File.read_faults stream.file ≡ 0 }
    ensures told { F.told files.new ≡ F.told files.old }
    ensures quiet { F.faults files.new ≡ F.faults files.old }
{
    let Stream { file, most: _ } = stream;
    files.close(file);
}
