//! Commands that say what files hold: whether a service is accepted, whether a page is valid, and which lights texts have.
ghost use Rattle.std.specs.Prelude.{◌≡◌, ◌≢◌, IfSome, IsErrOf, codes};
ghost use Rattle.bw_out.specs.Causes.{Shows};
ghost use Rattle.bigwig.specs.Asked.{work};
ghost use Rattle.bw_command.specs.Commands.{AreWorkers};
ghost use Rattle.bigwig.specs.Outcomes.{Speaks};
ghost use Rattle.bw_command.specs.declared.command.Command.TheVariants as commands;
ghost use Rattle.bw_questions.specs.Asked.Work.{prints};
ghost use Rattle.bw_questions.specs.Questions.{IsAnswer, line};

use bw_command::Judging;
use bw_lang::Text;
use bw_out::{Files, Pulse, Sink};
use bw_questions::{
    Status, Stop, Tools, load_accepted, load_explained, load_lights, load_valid, print_line,
    print_text, report,
};
use std::alloc::Global;
use std::thread::Threads;

/// That a service is accepted, or why it isn't; where it is asked for, with what explains that.
fn load_verdict<R: Threads + Sync, F: Files, P: Pulse>(
    tools: &Tools<R, P>,
    service: &Text,
    judging: &Judging,
    explain: bool,
    files: &mut F,
) -> Result<(), Stop>
    requires { AreWorkers judging.now.workers }
    ensures answers { IfSome (F.told files.old) (λ disk.
        IsAnswer (λ done. prints (line (codes "accepted"))) (work disk (commands.Check service.now judging.now explain)) result) }
    ensures told { F.told files.new ≡ F.told files.old }
    ensures read_fault { Shows (IsErrOf result Stop.ReadFault) (F.faults files.old) (F.faults files.new) }
{
    if explain {
        load_explained(tools, files, service, judging)
    } else {
        load_accepted(tools, files, service, judging)
    }
}

/// `check`: says whether a service is accepted.
pub fn check_command<R: Threads + Sync, F: Files, W: Sink, P: Pulse>(
    tools: &Tools<R, P>,
    service: &Text,
    judging: &Judging,
    explain: bool,
    files: &mut F,
    out: &mut W,
) -> Status
    requires { AreWorkers judging.now.workers }
    ensures comes { IfSome (F.told files.old) (λ disk. Speaks (work disk (commands.Check service.now judging.now explain))
        (W.held out.old) (W.held out.new) result) }
    ensures others { (result ≢ Status.Usage) × (result ≢ Status.DoorFault) }
    ensures no_journal { result ≢ Status.JournalFault }
    ensures read_fault { Shows (result ≡ Status.ReadFault) (F.faults files.old) (F.faults files.new) }
    ensures write_fault { Shows (result ≡ Status.WriteFault) (W.write_faults out.old) (W.write_faults out.new) }
{
    match load_verdict(tools, service, judging, explain, files) {
        Ok(()) => print_line(out, Status::Done, b"accepted"),
        Err(stop) => report(out, stop),
    }
}

/// `valid`: says whether a page is valid.
pub fn valid_command<F: Files, W: Sink>(
    alloc: Global,
    page: &Text,
    schema: &Option<Text>,
    files: &mut F,
    out: &mut W,
) -> Status
    ensures comes { IfSome (F.told files.old) (λ disk. Speaks (work disk (commands.Valid page.now schema.now)) (W.held out.old) (W.held out.new) result) }
    ensures others { (result ≢ Status.Usage) × (result ≢ Status.DoorFault) }
    ensures no_journal { result ≢ Status.JournalFault }
    ensures read_fault { Shows (result ≡ Status.ReadFault) (F.faults files.old) (F.faults files.new) }
    ensures write_fault { Shows (result ≡ Status.WriteFault) (W.write_faults out.old) (W.write_faults out.new) }
{
    match load_valid(alloc, files, page.as_str(), schema) {
        Ok(()) => print_line(out, Status::Done, b"valid"),
        Err(stop) => report(out, stop),
    }
}

/// `light`: prints the lights of texts.
pub fn light_command<F: Files, W: Sink>(
    alloc: Global,
    formats: &Text,
    texts: &Text,
    files: &mut F,
    out: &mut W,
) -> Status
    ensures comes { IfSome (F.told files.old) (λ disk. Speaks (work disk (commands.Light formats.now texts.now)) (W.held out.old) (W.held out.new) result) }
    ensures others { (result ≢ Status.Usage) × (result ≢ Status.DoorFault) }
    ensures no_journal { result ≢ Status.JournalFault }
    ensures read_fault { Shows (result ≡ Status.ReadFault) (F.faults files.old) (F.faults files.new) }
    ensures write_fault { Shows (result ≡ Status.WriteFault) (W.write_faults out.old) (W.write_faults out.new) }
{
    match load_lights(alloc, files, formats.as_str(), texts.as_str()) {
        Ok(printed) => print_text(out, Status::Done, printed.as_bytes()),
        Err(stop) => report(out, stop),
    }
}
