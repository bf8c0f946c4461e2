//! What is printed before there is work, and behind it.
ghost use Rattle.std.specs.Prelude.{◌≡◌, ◌≢◌, ◌⊎◌};
ghost use Rattle.bw_out.specs.Causes.{Shows};
ghost use Rattle.bw_questions.specs.Reports.{Prints};
ghost use Rattle.bw_questions.specs.Questions.{line};
ghost use Rattle.bw_questions.specs.Reports.{IsReported};

use crate::stop::Stop;
use bw_command::Status;
use bw_out::{Sink, WriteFault, write_all, write_parts};

/// Prints a line, to which its end is added, and gives the status.
pub fn print_line<W: Sink>(out: &mut W, status: Status, text: &[u8]) -> Status
    ensures prints { Prints (record { status = status; text = line text.now }) (W.held out.old) (W.held out.new) result }
    ensures status { (result ≡ status) ⊎ (result ≡ Status.WriteFault) }
    ensures write_fault { status ≢ Status.WriteFault → Shows (result ≡ Status.WriteFault) (W.write_faults out.old) (W.write_faults out.new) }
{
    match write_parts(out, &[text, b"\n"]) {
        Ok(()) => status,
        Err(WriteFault) => Status::WriteFault,
    }
}

/// Prints lines that have their ends, and gives the status.
pub fn print_text<W: Sink>(out: &mut W, status: Status, text: &[u8]) -> Status
    ensures prints { Prints (record { status = status; text = text.now }) (W.held out.old) (W.held out.new) result }
    ensures status { (result ≡ status) ⊎ (result ≡ Status.WriteFault) }
    ensures write_fault { status ≢ Status.WriteFault → Shows (result ≡ Status.WriteFault) (W.write_faults out.old) (W.write_faults out.new) }
{
    match write_all(out, text) {
        Ok(()) => status,
        Err(WriteFault) => Status::WriteFault,
    }
}

/// Prints why the program stops, and gives its status.
pub fn report<W: Sink>(out: &mut W, stop: Stop) -> Status
    ensures reported { IsReported stop (W.held out.old) (W.held out.new) result }
    ensures read { result ≡ Status.ReadFault → stop ≡ Stop.ReadFault }
    ensures reads { stop ≡ Stop.ReadFault → result ≡ Status.ReadFault }
    ensures write_fault { Shows (result ≡ Status.WriteFault) (W.write_faults out.old) (W.write_faults out.new) }
    ensures others { (result ≢ Status.Usage) × (result ≢ Status.DoorFault) }
    ensures no_journal { result ≢ Status.JournalFault }
{
    match stop {
        Stop::Says(refusal, text) => print_text(out, refusal.status(), &text),
        Stop::ReadFault => Status::ReadFault,
        Stop::Memory => Status::Memory,
    }
}
