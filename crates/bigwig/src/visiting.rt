//! `visit`: a scripted user visits the service of a file.
ghost use Rattle.std.specs.Prelude.{◌≡◌, ◌≢◌, ℕ, List, Option, IfOk, IfSome};
ghost use Rattle.bw_model.specs.Sessions.{empty};
ghost use Rattle.bw_out.specs.Causes.{Shows};
ghost use Rattle.bw_sound.specs.Worlds.{BeginsSound};
ghost use Rattle.bw_visit.specs.Ends.{end_of};
ghost use Rattle.bw_visit.specs.Scripts.{AreLines};
ghost use Rattle.bw_world.specs.Stands.{StandsFor};
ghost use Rattle.bw_http.specs.Paths.{IsForm};
ghost use Rattle.bw_http.specs.declared.request.Path.TheVariants.{Start};
ghost use Rattle.bw_questions.specs.Asked.{Ruled};
ghost use Rattle.bigwig.specs.Asked.{followed, visited};
ghost use Rattle.bw_questions.specs.Asked.Work.{visits};
ghost use Rattle.bw_questions.specs.Checks.{IsRuled};
ghost use Rattle.bigwig.specs.Lent.{AreSame, HasCauses, faults_of};
ghost use Rattle.bigwig.specs.Outcomes.{Replies};
ghost use Rattle.bw_questions.specs.Questions.{found};
ghost use Rattle.bw_questions.specs.Reports.{SaysLine};
ghost use Rattle.bigwig.specs.Scripts as scripts;
ghost use Rattle.bigwig.specs.Visiting.{TellsEnd, script_of};
ghost use Rattle.bw_command.specs.declared.status.Refusal.TheVariants as refusals;

use crate::lent::Lent;
use crate::server::Server;
use bw_lang::{Memory, Text};
use bw_out::{Door, Files, Keys, Sink, Steps};
use bw_questions::{Kept, Refusal, Served, Status, Stop, fetch_bytes, push_shown, refused, report};
use bw_stable::Journals;
use bw_visit::limits::MAX_SCRIPT_BYTES;
use bw_visit::{Host, Script, VisitEnd, read_script, visit};
use std::alloc::Global;
use std::sync::ledger::Ledger;

/// One byte more than a script may have.
const SCRIPT_FRONT: usize = MAX_SCRIPT_BYTES + 1;

/// `visit`: visits a service that is accepted by the script of a file, which is closed again: of its first 1,048,577 bytes, which
/// tell what all of them are.
pub fn visit_service<F: Files, J: Journals, D: Door, K: Keys, W: Sink, L: Ledger>(
    alloc: Global,
    kept: Kept,
    name: &str,
    lent: &mut Lent<F, J, D, K, W, Steps<L>>,
) -> Status
    ensures comes { IfSome (F.told lent.old.files.now) (λ disk. (ruled : Ruled) → IsRuled kept.served.checked.typed.service kept.served.formats ruled →
        Replies (visited disk name.now ruled)
        (W.held lent.old.out.now) (W.held lent.new.out.now) (K.coming lent.old.keys.now) (K.coming lent.new.keys.now) (F.unread lent.new.files.now)
        lent.old.steps.now lent.new.steps.now result) }
    ensures not_usage { result ≢ Status.Usage }
    ensures causes { HasCauses result (faults_of F.Files J.Journals D.Door W.Channel lent.old) (faults_of F.Files J.Journals D.Door W.Channel lent.new) }
    ensures others { (lent.new.door.now ≡ lent.old.door.now) × (lent.new.journals.now ≡ lent.old.journals.now) }
    ensures same { AreSame lent.old lent.new }
{
    let Kept { served, text } = kept;
    drop(text);
    match fetch_bytes(alloc, lent.files, name, SCRIPT_FRONT) {
        Ok(bytes) => {
            let status = visit_by(alloc, served, &bytes, lent.keys, lent.out, lent.steps);
            drop(bytes);
            status
        }
        Err(stop) => {
            drop(served);
            report(lent.out, stop)
        }
    }
}

/// Visits the service by the script that these bytes are.
fn visit_by<K: Keys, W: Sink, L: Ledger>(
    alloc: Global,
    served: Served,
    bytes: &[u8],
    keys: &mut K,
    out: &mut W,
    steps: &mut Steps<L>,
) -> Status
    ensures comes { (ruled : Ruled) (unread : Option (List ℕ)) → IsRuled served.checked.typed.service served.formats ruled →
        Replies (followed ruled bytes.now) (W.held out.old) (W.held out.new) (K.coming keys.old) (K.coming keys.new) unread steps.old steps.new result }
    ensures others { (result ≢ Status.Usage) × (result ≢ Status.DoorFault) }
    ensures no_journal { result ≢ Status.JournalFault }
    ensures no_read { result ≢ Status.ReadFault }
    ensures write_fault { Shows (result ≡ Status.WriteFault) (W.write_faults out.old) (W.write_faults out.new) }
{
    match read_script(bytes) {
        Some(script) => visit_from(alloc, served, &script, keys, out, steps),
        None => {
            drop(served);
            report(out, no_script(alloc))
        }
    }
}

/// Visits the service by a script, from the world in which nothing was requested yet.
fn visit_from<K: Keys, W: Sink, L: Ledger>(
    alloc: Global,
    served: Served,
    script: &Script<'_>,
    keys: &mut K,
    out: &mut W,
    steps: &mut Steps<L>,
) -> Status
    requires name { IsForm (Start script.now.name.now) }
    requires lines { AreLines script.now.lines.now }
    ensures comes { (ruled : Ruled) (unread : Option (List ℕ)) → IsRuled served.checked.typed.service served.formats ruled →
        Replies (found (visits ruled (script_of script.now))) (W.held out.old) (W.held out.new) (K.coming keys.old) (K.coming keys.new) unread
        steps.old steps.new result }
    ensures others { (result ≢ Status.Usage) × (result ≢ Status.DoorFault) }
    ensures no_journal { result ≢ Status.JournalFault }
    ensures no_read { result ≢ Status.ReadFault }
    ensures write_fault { Shows (result ≡ Status.WriteFault) (W.write_faults out.old) (W.write_faults out.new) }
{
    match Server::new(alloc, served) {
        Ok(mut server) => {
            let status = visit_at(&mut server, script, keys, out, steps);
            drop(server);
            status
        }
        Err(Memory) => Status::Memory,
    }
}

/// The same by a server that has answered nothing yet.
fn visit_at<K: Keys, W: Sink, L: Ledger>(
    server: &mut Server,
    script: &Script<'_>,
    keys: &mut K,
    out: &mut W,
    steps: &mut Steps<L>,
) -> Status
    requires name { IsForm (Start script.now.name.now) }
    requires lines { AreLines script.now.lines.now }
    requires stands { StandsFor server.old.world (empty server.old.world.service) }
    requires sound { BeginsSound server.old.world.service }
    ensures comes { (ruled : Ruled) (unread : Option (List ℕ)) → IsRuled server.old.world.service server.old.formats ruled →
        Replies (found (visits ruled (script_of script.now))) (W.held out.old) (W.held out.new) (K.coming keys.old) (K.coming keys.new) unread
        steps.old steps.new result }
    ensures others { (result ≢ Status.Usage) × (result ≢ Status.DoorFault) }
    ensures no_journal { result ≢ Status.JournalFault }
    ensures no_read { result ≢ Status.ReadFault }
    ensures write_fault { Shows (result ≡ Status.WriteFault) (W.write_faults out.old) (W.write_faults out.new) }
{
    let alloc = server.alloc;
    let keys = &mut *keys;
    let steps = &mut *steps;
    let mut host = Host {
        alloc,
        world: &mut server.world,
        formats: &server.formats,
        keys,
        steps,
    };
    let end = visit(&mut host, script, out);
    tell_end(alloc, out, end)
}

/// Says behind the replies which answer had no control, where the visit ended so, and gives the status.
fn tell_end<W: Sink>(alloc: Global, out: &mut W, end: VisitEnd) -> Status
    ensures tells { TellsEnd (end_of end) (W.held out.old) (W.held out.new) result }
    ensures others { (result ≢ Status.Usage) × (result ≢ Status.DoorFault) }
    ensures no_journal { result ≢ Status.JournalFault }
    ensures no_read { result ≢ Status.ReadFault }
    ensures write_fault { end ≢ VisitEnd.WriteFault → Shows (result ≡ Status.WriteFault) (W.write_faults out.old) (W.write_faults out.new) }
    ensures broken { end ≡ VisitEnd.WriteFault → W.write_faults out.new ≡ W.write_faults out.old }
{
    match end {
        VisitEnd::Done => Status::Done,
        VisitEnd::Unknown(name) => report(out, unknown_answer(alloc, &name)),
        VisitEnd::WriteFault => Status::WriteFault,
        VisitEnd::Memory => Status::Memory,
    }
}

/// That the bytes are no script.
fn no_script(alloc: Global) -> Stop
    ensures says { SaysLine refusals.Script scripts.no_script_line result }
    ensures no_read { result ≢ Stop.ReadFault }
{
    refused(Refusal::Script, no_script_line(alloc))
}

/// That no control has the name of an answer.
fn unknown_answer(alloc: Global, name: &Text) -> Stop
    ensures says { SaysLine refusals.Script (scripts.unknown_line name.now) result }
    ensures no_read { result ≢ Stop.ReadFault }
{
    refused(Refusal::Script, unknown_line(alloc, name.as_bytes()))
}

/// The line of bytes that are no script.
fn no_script_line(alloc: Global) -> Result<Vec<u8>, Memory>
    ensures { IfOk result (λ line. line.items ≡ scripts.no_script_line) }
{
    Ok(b"script malformed".to_vec(alloc)?)
}

/// The line of an answer whose name no control has.
fn unknown_line(alloc: Global, name: &[u8]) -> Result<Vec<u8>, Memory>
    ensures { IfOk result (λ line. line.items ≡ scripts.unknown_line name.now) }
{
    let mut line = b"unknown answer ".to_vec(alloc)?;
    push_shown(&mut line, name)?;
    Ok(line)
}
