//! What a command asks for is done.
ghost use Rattle.std.specs.Prelude.{◌≡◌, ◌≢◌, ◌≤◌, ℕ, List, length, IfSome, Some};
ghost use Rattle.bigwig.specs.Asked.{Names, RunsAlone, RunsBeside, of_service, work};
ghost use Rattle.bw_command.specs.Commands.{AreWorkers, IsInRange};
ghost use Rattle.bw_lang.specs.declared.limits.TheConstants.{MAX_FILE_BYTES};
ghost use Rattle.bw_questions.specs.Asked.{Ruled};
ghost use Rattle.bw_questions.specs.Checks.{IsRuled};
ghost use Rattle.bigwig.specs.Lent.{AreSame, HasCauses, faults_of, seen_of};
ghost use Rattle.bigwig.specs.Outcomes.{Comes};

use crate::freezing::freeze_service;
use crate::keeping::{Place, Task, keep_service};
use crate::lent::Lent;
use crate::making::make_command;
use crate::preserving::preserve_service;
use crate::replaying::replay_service;
use crate::resuming::{Resumed, resume_service};
use crate::saying::{check_command, light_command, valid_command};
use crate::serving::serve_service;
use crate::visiting::visit_service;
use bw_command::{Command, Named};
use bw_out::{Door, Files, Keys, Pulse, Sink, Steps};
use bw_questions::{Kept, Status, Tools, load_kept, report};
use bw_stable::{Journals, WideDoor};
use std::alloc::Global;
use std::sync::ledger::Ledger;
use std::thread::Threads;

/// Does what a command asks for.
pub fn obey<
    R: Threads + Sync,
    F: Files,
    J: Journals,
    D: WideDoor,
    K: Keys,
    W: Sink,
    P: Pulse,
    L: Ledger,
>(tools: &Tools<R, P>, command: &Command, lent: &mut Lent<F, J, D, K, W, Steps<L>>) -> Status
    requires { IsInRange command.now }
    ensures comes { IfSome (F.told lent.old.files.now) (λ disk. Comes (work disk command.now)
        (seen_of F.Files J.Journals D.Door K.Keys W.Channel lent.old) (seen_of F.Files J.Journals D.Door K.Keys W.Channel lent.new) result) }
    ensures not_usage { result ≢ Status.Usage }
    ensures causes { HasCauses result (faults_of F.Files J.Journals D.Door W.Channel lent.old) (faults_of F.Files J.Journals D.Door W.Channel lent.new) }
    ensures same { AreSame lent.old lent.new }
{
    match command {
        Command::Check {
            service,
            judging,
            explain,
        } => check_command(tools, service, judging, *explain, lent.files, lent.out),
        Command::Valid { page, schema } => {
            valid_command(tools.alloc, page, schema, lent.files, lent.out)
        }
        Command::Make { count, workers } => make_command(tools, *count, *workers, lent.out),
        Command::Light { formats, texts } => {
            light_command(tools.alloc, formats, texts, lent.files, lent.out)
        }
        Command::Replay { .. }
        | Command::Serve { .. }
        | Command::Freeze { .. }
        | Command::Visit { .. } => obey_alone(tools, command, lent),
        Command::Resume { .. } | Command::Keep { .. } | Command::Preserve { .. } => {
            obey_beside(tools, command, lent)
        }
    }
}

/// Checks a service, and runs it without a journal.
fn obey_alone<
    R: Threads + Sync,
    F: Files,
    J: Journals,
    D: Door,
    K: Keys,
    W: Sink,
    P: Pulse,
    L: Ledger,
>(tools: &Tools<R, P>, command: &Command, lent: &mut Lent<F, J, D, K, W, Steps<L>>) -> Status
    requires range { IsInRange command.now }
    requires alone { RunsAlone command.now }
    ensures comes { IfSome (F.told lent.old.files.now) (λ disk. Comes (work disk command.now)
        (seen_of F.Files J.Journals D.Door K.Keys W.Channel lent.old) (seen_of F.Files J.Journals D.Door K.Keys W.Channel lent.new) result) }
    ensures not_usage { result ≢ Status.Usage }
    ensures causes { HasCauses result (faults_of F.Files J.Journals D.Door W.Channel lent.old) (faults_of F.Files J.Journals D.Door W.Channel lent.new) }
    ensures same { AreSame lent.old lent.new }
{
    match load_kept(tools, lent.files, named_alone(command)) {
        Ok(kept) => run_alone(tools.alloc, kept, command, lent),
        Err(stop) => report(lent.out, stop),
    }
}

/// Checks a service, and runs it beside a journal.
fn obey_beside<
    R: Threads + Sync,
    F: Files,
    J: Journals,
    D: WideDoor,
    K: Keys,
    W: Sink,
    P: Pulse,
    L: Ledger,
>(tools: &Tools<R, P>, command: &Command, lent: &mut Lent<F, J, D, K, W, Steps<L>>) -> Status
    requires range { IsInRange command.now }
    requires beside { RunsBeside command.now }
    ensures comes { IfSome (F.told lent.old.files.now) (λ disk. Comes (work disk command.now)
        (seen_of F.Files J.Journals D.Door K.Keys W.Channel lent.old) (seen_of F.Files J.Journals D.Door K.Keys W.Channel lent.new) result) }
    ensures not_usage { result ≢ Status.Usage }
    ensures causes { HasCauses result (faults_of F.Files J.Journals D.Door W.Channel lent.old) (faults_of F.Files J.Journals D.Door W.Channel lent.new) }
    ensures same { AreSame lent.old lent.new }
{
    match load_kept(tools, lent.files, named_beside(command)) {
        Ok(kept) => run_beside(tools.alloc, kept, command, lent),
        Err(stop) => report(lent.out, stop),
    }
}

/// The service that a command runs without a journal.
fn named_alone(command: &Command) -> Named<'_, '_, '_>
    requires alone { RunsAlone command.now }
    requires range { IsInRange command.now }
    ensures names { Names command.now result.service.now result.judging.now result.formats.now }
    ensures workers { AreWorkers result.judging.now.workers }
{
    match command {
        Command::Replay {
            service,
            judging,
            formats,
            ..
        }
        | Command::Serve {
            service,
            judging,
            formats,
            ..
        }
        | Command::Freeze {
            service,
            judging,
            formats,
            ..
        }
        | Command::Visit {
            service,
            judging,
            formats,
            ..
        } => Named {
            service,
            judging,
            formats,
        },
        _ => unreachable!(),
    }
}

/// The service that a command runs beside a journal.
fn named_beside(command: &Command) -> Named<'_, '_, '_>
    requires beside { RunsBeside command.now }
    requires range { IsInRange command.now }
    ensures names { Names command.now result.service.now result.judging.now result.formats.now }
    ensures workers { AreWorkers result.judging.now.workers }
{
    match command {
        Command::Resume {
            service,
            judging,
            formats,
            ..
        }
        | Command::Keep {
            service,
            judging,
            formats,
            ..
        }
        | Command::Preserve {
            service,
            judging,
            formats,
            ..
        } => Named {
            service,
            judging,
            formats,
        },
        _ => unreachable!(),
    }
}

/// Runs a service that is accepted, without a journal.
fn run_alone<F: Files, J: Journals, D: Door, K: Keys, W: Sink, L: Ledger>(
    alloc: Global,
    kept: Kept,
    command: &Command,
    lent: &mut Lent<F, J, D, K, W, Steps<L>>,
) -> Status
    requires text { length kept.text.items ≤ MAX_FILE_BYTES }
    requires alone { RunsAlone command.now }
    ensures comes { IfSome (F.told lent.old.files.now) (λ disk. (ruled : Ruled) (name : List ℕ)
        → IsRuled kept.served.checked.typed.service kept.served.formats ruled → disk name ≡ Some kept.text.items
        → Comes (of_service disk name command.now ruled)
        (seen_of F.Files J.Journals D.Door K.Keys W.Channel lent.old) (seen_of F.Files J.Journals D.Door K.Keys W.Channel lent.new) result) }
    ensures not_usage { result ≢ Status.Usage }
    ensures causes { HasCauses result (faults_of F.Files J.Journals D.Door W.Channel lent.old) (faults_of F.Files J.Journals D.Door W.Channel lent.new) }
    ensures same { AreSame lent.old lent.new }
{
    match command {
        Command::Replay {
            requests,
            load,
            most,
            ..
        } => replay_service(alloc, kept, load, requests.as_str(), *most, lent),
        Command::Serve {
            load,
            port,
            most,
            ..
        } => serve_service(alloc, kept, load, *port, *most, lent),
        Command::Freeze {
            requests,
            load,
            most,
            ..
        } => freeze_service(alloc, kept, load, requests.as_str(), *most, lent),
        Command::Visit { script, .. } => visit_service(alloc, kept, script.as_str(), lent),
        _ => unreachable!(),
    }
}

/// Runs a service that is accepted, beside a journal.
fn run_beside<F: Files, J: Journals, D: WideDoor, K: Keys, W: Sink, L: Ledger>(
    alloc: Global,
    kept: Kept,
    command: &Command,
    lent: &mut Lent<F, J, D, K, W, Steps<L>>,
) -> Status
    requires text { length kept.text.items ≤ MAX_FILE_BYTES }
    requires beside { RunsBeside command.now }
    ensures comes { IfSome (F.told lent.old.files.now) (λ disk. (ruled : Ruled) (name : List ℕ)
        → IsRuled kept.served.checked.typed.service kept.served.formats ruled → disk name ≡ Some kept.text.items
        → Comes (of_service disk name command.now ruled)
        (seen_of F.Files J.Journals D.Door K.Keys W.Channel lent.old) (seen_of F.Files J.Journals D.Door K.Keys W.Channel lent.new) result) }
    ensures not_usage { result ≢ Status.Usage }
    ensures causes { HasCauses result (faults_of F.Files J.Journals D.Door W.Channel lent.old) (faults_of F.Files J.Journals D.Door W.Channel lent.new) }
    ensures same { AreSame lent.old lent.new }
{
    match command {
        Command::Resume {
            requests,
            journal,
            most,
            ..
        } => {
            let resumed = Resumed {
                requests,
                journal,
                most: *most,
            };
            resume_service(alloc, kept, resumed, lent)
        }
        Command::Keep {
            journal,
            rotate,
            port,
            most,
            ..
        } => {
            let place = Place {
                port: *port,
                most: *most,
                rotate: *rotate,
            };
            keep_service(alloc, kept, journal.as_str(), Task::Links(place), lent)
        }
        Command::Preserve { journal, .. } => {
            preserve_service(alloc, kept, journal.as_str(), lent)
        }
        _ => unreachable!(),
    }
}
