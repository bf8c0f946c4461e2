//! Visits of a scripted user.
ghost use Rattle.bw_http.specs.Paths.{spelling};
ghost use Rattle.bw_http.specs.declared.request.Path.TheVariants.{Start};
ghost use Rattle.bw_user.specs.Messages.{get};
ghost use Rattle.bw_visit.specs.Ends.{Visited};
ghost use Rattle.bw_visit.specs.Exchanges.{standing};
ghost use Rattle.bw_visit.specs.Scripts.{AreLines};

use bw_out::{Keys, Sink, Steps};
use bw_visit::{Host, Script, VisitEnd, visit};
use std::sync::ledger::Ledger;

/// `visit`: fewer lines, and a key that is passed over.
pub fn visited<K: Keys, W: Sink, L: Ledger>(
    host: &mut Host<'_, '_, '_, K, Steps<L>>,
    script: &Script<'_>,
    out: &mut W,
) -> VisitEnd
    requires { AreLines script.now.lines.now }
    ensures visited { Visited (get (spelling (Start script.now.name.now))) script.now.lines.now (standing K.Keys host.old) (standing K.Keys host.new)
        (W.held out.old) (W.held out.new) result }
{
    visit(host, script, out)
}
