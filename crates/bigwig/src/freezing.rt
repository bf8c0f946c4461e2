//! `freeze`: requests of a file are answered, and what then waits is saved.
ghost use Rattle.std.specs.Prelude.{◌≡◌, ◌≢◌, ◌≤◌, length, List, ℕ, [], IfSome, Some};
ghost use Rattle.bw_save.specs.Frozen.{loaded_of};
ghost use Rattle.bw_lang.specs.declared.limits.TheConstants.{MAX_FILE_BYTES};
ghost use Rattle.bw_out.specs.Causes.{Shows};
ghost use Rattle.bw_questions.specs.Asked.{Ruled};
ghost use Rattle.bigwig.specs.Asked.{frozen, frozen_from};
ghost use Rattle.bw_questions.specs.Checks.{IsRuled};
ghost use Rattle.bigwig.specs.Fits.{IsFitStart};
ghost use Rattle.bigwig.specs.Freezing.{FreezesAt, IsFrozen};
ghost use Rattle.bigwig.specs.Lent.{AreSame, HasCauses, faults_of};
ghost use Rattle.bigwig.specs.Outcomes.{Replies};

use crate::lent::Lent;
use crate::replaying::answer_source;
use crate::saved_lines::save_line;
use crate::server::Server;
use crate::thawing::begin_server;
use bw_lang::Text;
use bw_out::{Door, Failed, Files, Keys, NullSink, Sink, Steps};
use bw_questions::{Kept, Refusal, Status, no_file, print_text, refused, report};
use bw_save::{FreezeFault, freeze};
use bw_stable::Journals;
use bw_world::{StreamEnd, World};
use std::alloc::Global;
use std::sync::ledger::Ledger;

/// `freeze`: answers the requests of a file by a service that is accepted, from the saved sessions on that are named, if they are,
/// and saves what then waits. The saved sessions are looked for before the requests.
pub fn freeze_service<F: Files, J: Journals, D: Door, K: Keys, W: Sink, L: Ledger>(
    alloc: Global,
    kept: Kept,
    load: &Option<Text>,
    name: &str,
    most: u32,
    lent: &mut Lent<F, J, D, K, W, Steps<L>>,
) -> Status
    requires { length kept.text.items ≤ MAX_FILE_BYTES }
    ensures comes { IfSome (F.told lent.old.files.now) (λ disk. (ruled : Ruled) (service : List ℕ)
        → IsRuled kept.served.checked.typed.service kept.served.formats ruled → disk service ≡ Some kept.text.items
        → Replies (frozen_from disk service load.now name.now most ruled)
        (W.held lent.old.out.now) (W.held lent.new.out.now) (K.coming lent.old.keys.now) (K.coming lent.new.keys.now) (F.unread lent.new.files.now)
        lent.old.steps.now lent.new.steps.now result) }
    ensures not_usage { result ≢ Status.Usage }
    ensures causes { HasCauses result (faults_of F.Files J.Journals D.Door W.Channel lent.old) (faults_of F.Files J.Journals D.Door W.Channel lent.new) }
    ensures others { (lent.new.door.now ≡ lent.old.door.now) × (lent.new.journals.now ≡ lent.old.journals.now) }
    ensures same { AreSame lent.old lent.new }
{
    let Kept { served, text } = kept;
    match begin_server(alloc, lent.files, served, &text, load) {
        Ok(server) => {
            let status = freeze_from(server, &text, name, most, lent);
            drop(text);
            status
        }
        Err(stop) => {
            drop(text);
            report(lent.out, stop)
        }
    }
}

/// The same by a server that has answered nothing yet. The file is closed again.
fn freeze_from<F: Files, J: Journals, D: Door, K: Keys, W: Sink, L: Ledger>(
    server: Server,
    text: &[u8],
    name: &str,
    most: u32,
    lent: &mut Lent<F, J, D, K, W, Steps<L>>,
) -> Status
    requires text { length text.now ≤ MAX_FILE_BYTES }
    requires fit { IsFitStart server.formats server.world }
    requires none { server.intake ≡ [] }
    ensures comes { IfSome (F.told lent.old.files.now) (λ disk. (ruled : Ruled) (service : List ℕ)
        → IsRuled server.world.service server.formats ruled → disk service ≡ Some text.now
        → Replies (frozen disk service name.now most ruled (loaded_of server.world))
        (W.held lent.old.out.now) (W.held lent.new.out.now) (K.coming lent.old.keys.now) (K.coming lent.new.keys.now) (F.unread lent.new.files.now)
        lent.old.steps.now lent.new.steps.now result) }
    ensures not_usage { result ≢ Status.Usage }
    ensures causes { HasCauses result (faults_of F.Files J.Journals D.Door W.Channel lent.old) (faults_of F.Files J.Journals D.Door W.Channel lent.new) }
    ensures others { (lent.new.door.now ≡ lent.old.door.now) × (lent.new.journals.now ≡ lent.old.journals.now) }
    ensures same { AreSame lent.old lent.new }
{
    let mut server = server;
    match lent.files.fetch(name) {
        Err(Failed) => {
            drop(server);
            Status::ReadFault
        }
        Ok(None) => {
            let stop = no_file(server.alloc, name);
            drop(server);
            report(lent.out, stop)
        }
        Ok(Some(mut file)) => {
            let mut replies = NullSink;
            let end = answer_source(
                &mut server,
                &mut file,
                lent.keys,
                &mut replies,
                most,
                lent.steps,
            );
            lent.files.close(file);
            freeze_end(server, text, end, lent.out)
        }
    }
}

/// Saves what waits behind a stream that ended so: nothing after a read fault, or where a request wanted memory.
fn freeze_end<W: Sink>(server: Server, text: &[u8], end: StreamEnd, out: &mut W) -> Status
    requires text { length text.now ≤ MAX_FILE_BYTES }
    requires written { end ≢ StreamEnd.WriteFault }
    ensures freezes { FreezesAt text.now server.world end (W.held out.old) (W.held out.new) result }
    ensures others { (result ≢ Status.Usage) × (result ≢ Status.DoorFault) }
    ensures no_journal { result ≢ Status.JournalFault }
    ensures read { result ≡ Status.ReadFault → end ≡ StreamEnd.ReadFault }
    ensures reads { end ≡ StreamEnd.ReadFault → result ≡ Status.ReadFault }
    ensures write_fault { Shows (result ≡ Status.WriteFault) (W.write_faults out.old) (W.write_faults out.new) }
{
    let Server {
        alloc,
        world,
        formats,
        intake,
    } = server;
    drop(formats);
    drop(intake);
    match end {
        StreamEnd::Ended(0) => print_world(alloc, text, world, out),
        StreamEnd::Ended(_) => {
            drop(world);
            Status::Memory
        }
        StreamEnd::ReadFault => {
            drop(world);
            Status::ReadFault
        }
        StreamEnd::WriteFault => unreachable!(),
    }
}

/// Prints the file of what waits in a world. Where a document has a plug that filled nothing, this ends as for want of memory: no
/// turn of an accepted service makes one, and no other status is due.
pub fn print_world<W: Sink>(alloc: Global, text: &[u8], world: World, out: &mut W) -> Status
    requires { length text.now ≤ MAX_FILE_BYTES }
    ensures frozen { IsFrozen text.now world (W.held out.old) (W.held out.new) result }
    ensures others { (result ≢ Status.Usage) × (result ≢ Status.DoorFault) }
    ensures no_journal { result ≢ Status.JournalFault }
    ensures no_read { result ≢ Status.ReadFault }
    ensures write_fault { Shows (result ≡ Status.WriteFault) (W.write_faults out.old) (W.write_faults out.new) }
{
    match freeze(alloc, text, world) {
        Ok(bytes) => print_text(out, Status::Done, &bytes),
        Err(FreezeFault::TooLong(weight)) => {
            report(out, refused(Refusal::Save, save_line(alloc, weight)))
        }
        Err(FreezeFault::Unfilled) => Status::Memory,
        Err(FreezeFault::Memory) => Status::Memory,
    }
}
