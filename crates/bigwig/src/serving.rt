//! Links that are served, one after another, over one world.
ghost use Rattle.std.specs.Prelude.{◌≡◌, ◌≢◌, ◌⊎◌, ℕ, List, Option, None, Some, IfSome};
ghost use Rattle.bw_save.specs.Frozen.{loaded_of};
ghost use Rattle.bw_model.specs.Sessions as model;
ghost use Rattle.bw_out.specs.Causes.{HasCause, Shows};
ghost use Rattle.bw_out.specs.Writes.{Writes};
ghost use Rattle.bw_world.specs.Stands.{StandsFor};
ghost use Rattle.bw_questions.specs.Asked.{Ruled};
ghost use Rattle.bigwig.specs.Asked.{at_port, served_from};
ghost use Rattle.bw_questions.specs.Checks.{IsRuled};
ghost use Rattle.bigwig.specs.Fits.{IsFitStart, IsFitWorld};
ghost use Rattle.bigwig.specs.Lent.{AreSame, HasCauses, faults_of, seen_of};
ghost use Rattle.bigwig.specs.Outcomes.{Comes};
ghost use Rattle.bigwig.specs.Works.{ServesLinks, outside, serving_line};

use crate::lent::Lent;
use crate::server::Server;
use crate::thawing::begin_server;
use bw_lang::Text;
use bw_out::{Door, Failed, Files, Keys, Sink, Steps, WriteFault, write_parts};
use bw_questions::{Kept, Status, report};
use bw_stable::Journals;
use bw_world::answer;
use itoa::Buffer;
use std::alloc::Global;
use std::sync::ledger::Ledger;

/// `serve`: serves the links of a port by a service that is accepted, from the saved sessions on that are named, if they are. These
/// are looked for before the port.
pub fn serve_service<F: Files, J: Journals, D: Door, K: Keys, W: Sink, L: Ledger>(
    alloc: Global,
    kept: Kept,
    load: &Option<Text>,
    port: u16,
    most: u32,
    lent: &mut Lent<F, J, D, K, W, Steps<L>>,
) -> Status
    ensures comes { IfSome (F.told lent.old.files.now) (λ disk. (ruled : Ruled) (service : List ℕ) (u v : Option (List ℕ))
        → IsRuled kept.served.checked.typed.service kept.served.formats ruled → disk service ≡ Some kept.text.items
        → Comes (served_from disk service load.now port most ruled)
        (record (seen_of F.Files J.Journals D.Door K.Keys W.Channel lent.old) { unread = u })
        (record (seen_of F.Files J.Journals D.Door K.Keys W.Channel lent.new) { unread = v }) result) }
    ensures not_usage { result ≢ Status.Usage }
    ensures causes { HasCauses result (faults_of F.Files J.Journals D.Door W.Channel lent.old) (faults_of F.Files J.Journals D.Door W.Channel lent.new) }
    ensures journals { lent.new.journals.now ≡ lent.old.journals.now }
    ensures same { AreSame lent.old lent.new }
{
    let Kept { served, text } = kept;
    let begun = begin_server(alloc, lent.files, served, &text, load);
    drop(text);
    match begun {
        Ok(mut server) => {
            let status = serve_port(&mut server, port, most, lent);
            drop(server);
            status
        }
        Err(stop) => report(lent.out, stop),
    }
}

/// The same by a server that has answered nothing yet: listens, prints the line that says so, and then serves links.
fn serve_port<F: Files, J: Journals, D: Door, K: Keys, W: Sink, L: Ledger>(
    server: &mut Server,
    port: u16,
    most: u32,
    lent: &mut Lent<F, J, D, K, W, Steps<L>>,
) -> Status
    requires { IsFitStart server.old.formats server.old.world }
    ensures comes { (ruled : Ruled) (u v : Option (List ℕ)) → IsRuled server.old.world.service server.old.formats ruled
        → Comes (at_port port most ruled (loaded_of server.old.world))
        (record (seen_of F.Files J.Journals D.Door K.Keys W.Channel lent.old) { unread = u })
        (record (seen_of F.Files J.Journals D.Door K.Keys W.Channel lent.new) { unread = v }) result }
    ensures not_usage { result ≢ Status.Usage }
    ensures causes { HasCauses result (faults_of F.Files J.Journals D.Door W.Channel lent.old) (faults_of F.Files J.Journals D.Door W.Channel lent.new) }
    ensures others { (lent.new.files.now ≡ lent.old.files.now) × (lent.new.journals.now ≡ lent.old.journals.now) }
    ensures same { AreSame lent.old lent.new }
{
    match lent.door.listen(port) {
        Err(Failed) => Status::DoorFault,
        Ok(()) => match print_serving(lent.out, port) {
            Err(WriteFault) => Status::WriteFault,
            Ok(()) => serve_links(server, lent.door, lent.keys, most, lent.steps),
        },
    }
}

/// Prints the line that the port is served.
pub fn print_serving<W: Sink>(out: &mut W, port: u16) -> Result<(), WriteFault>
    ensures writes { Writes (W.held out.old) (W.held out.new) (serving_line port) result }
    ensures cause { HasCause (W.write_faults out.old) (W.write_faults out.new) result }
{
    write_parts(
        out,
        &[b"serving ", Buffer::new().format(port).as_bytes(), b"\n"],
    )
}

/// Serves up to `most` links of a door over one world: answers one message of each. Each link is given back before the
/// next is asked for, after a fault on it too, which ends that link alone.
fn serve_links<D: Door, K: Keys, L: Ledger>(
    server: &mut Server,
    door: &mut D,
    keys: &mut K,
    most: u32,
    steps: &mut Steps<L>,
) -> Status
    ensures serves { (ruled : Ruled) (m : model.World) → IsRuled server.old.world.service server.old.formats ruled → StandsFor server.old.world m
        → IsFitWorld ruled m
        → ServesLinks ruled m most (outside None (K.coming keys.old) (D.asked door.old) (D.coming door.old) (D.returned door.old) None steps.old None)
        (outside None (K.coming keys.new) (D.asked door.new) (D.coming door.new) (D.returned door.new) None steps.new None) result }
    ensures ends { (result ≡ Status.Done) ⊎ (result ≡ Status.DoorFault) }
    ensures asked { D.asked door.new ≡ D.asked door.old }
    ensures door_fault { Shows (result ≡ Status.DoorFault) (D.faults door.old) (D.faults door.new) }
{
    'links: for turn in 0..most {
        match door.next() {
            Err(Failed) => return Status::DoorFault,
            Ok(None) => return Status::Done,
            Ok(Some(mut link)) => {
                server.intake.clear();
                let _end = answer(
                    server.alloc,
                    &mut server.world,
                    &server.formats,
                    &mut server.intake,
                    &mut link,
                    keys,
                    1,
                    steps,
                );
                door.give_back(link);
            }
        }
    }
    Status::Done
}
