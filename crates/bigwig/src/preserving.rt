//! `freeze` of what a journal brings about.
ghost use Rattle.std.specs.Prelude.{◌≢◌, ◌≤◌, length, IfSome};
ghost use Rattle.bw_lang.specs.declared.limits.TheConstants.{MAX_FILE_BYTES};
ghost use Rattle.bw_questions.specs.Asked.{Ruled};
ghost use Rattle.bw_questions.specs.Asked.Task.{to_save};
ghost use Rattle.bw_questions.specs.Behind.{content_of};
ghost use Rattle.bw_questions.specs.Checks.{IsRuled};
ghost use Rattle.bigwig.specs.Keeping.{IsKept};
ghost use Rattle.bigwig.specs.Lent.{AreSame, HasCauses, faults_of, seen_of};

use crate::bringing::{Brought, bring_back};
use crate::freezing::print_world;
use crate::lent::Lent;
use crate::server::Server;
use bw_out::{Door, Files, Keys, Sink, Steps};
use bw_questions::{Kept, Status, report};
use bw_stable::Journals;
use std::alloc::Global;
use std::sync::ledger::Ledger;

/// `freeze` of what a journal brings about, of a service that is accepted: its world is brought back, and what waits in it is saved.
/// Nothing is done to the journal.
pub fn preserve_service<F: Files, J: Journals, D: Door, K: Keys, W: Sink, L: Ledger>(
    alloc: Global,
    kept: Kept,
    name: &str,
    lent: &mut Lent<F, J, D, K, W, Steps<L>>,
) -> Status
    requires { length kept.text.items ≤ MAX_FILE_BYTES }
    ensures keeps { IfSome (F.told lent.old.files.now) (λ disk. (ruled : Ruled) → IsRuled kept.served.checked.typed.service kept.served.formats ruled
        → IsKept ruled kept.text.items (content_of (disk name.now)) to_save
        (seen_of F.Files J.Journals D.Door K.Keys W.Channel lent.old) (seen_of F.Files J.Journals D.Door K.Keys W.Channel lent.new) result) }
    ensures not_usage { result ≢ Status.Usage }
    ensures causes { HasCauses result (faults_of F.Files J.Journals D.Door W.Channel lent.old) (faults_of F.Files J.Journals D.Door W.Channel lent.new) }
    ensures same { AreSame lent.old lent.new }
{
    let Kept { served, text } = kept;
    match bring_back(alloc, served, &text, name, lent.files, lent.steps) {
        Err(stop) => {
            drop(text);
            report(lent.out, stop)
        }
        Ok(brought) => {
            let Brought { server, found: _ } = brought;
            let Server {
                alloc,
                world,
                formats,
                intake,
            } = server;
            drop(formats);
            drop(intake);
            let status = print_world(alloc, &text, world, lent.out);
            drop(text);
            status
        }
    }
}
