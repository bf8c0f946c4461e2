//! What is said on standard error where standard output doesn't tell why the program ended.
use crate::help::HELP;
use crate::shown::ShownDoor;
use bw_command::Status;
use bw_door::{PortDoor, Settles};
use bw_out::{DiskFiles, Writing};
use bw_stable::DiskJournals;
use std::fmt::{Display, Formatter};
use std::io::{Eprint, ErrorKind};
use std::net::Net;
use std::sync::Wait;
use std::time::Clock;
use std::{fmt, io};

/// Why calls of the system failed that failed.
#[derive(Clone, Copy)]
struct Troubles<'a> {
    /// The file that was asked for last; empty where there was no memory to note it.
    file: &'a str,
    of_file: Option<ErrorKind>,
    of_output: Option<ErrorKind>,

    /// The port that was asked for.
    port: u16,
    of_port: Option<ErrorKind>,

    /// The journal that was asked for; empty where there was no memory to note it.
    journal: &'a str,
    of_journal: Option<ErrorKind>,
}

/// Why a call of the system failed, in words.
#[derive(Clone, Copy)]
struct Reason(Option<ErrorKind>);

impl Display for Reason {
    fn fmt<W: fmt::Write>(&self, f: &mut Formatter<W>) -> fmt::Result {
        match self.0 {
            Some(ErrorKind::StorageFull) => f.write_str("no space left"),
            Some(ErrorKind::Interrupted) => f.write_str("interrupted again and again"),
            Some(ErrorKind::WriteZero) => f.write_str("takes nothing more"),
            Some(ErrorKind::WouldBlock) => f.write_str("in use by another process"),
            Some(ErrorKind::Other | ErrorKind::Uncategorized) | None => f.write_str(
                "refused by the system",
            ),
            Some(kind) => kind.fmt(f),
        }
    }
}

/// Says why the program ends with this status, where that is for somebody else than the service's author to mend, by what
/// these noted of calls of the system.
pub fn say_end<R: Eprint, F, O, N: Net + Clock + Wait + Copy, W: Settles, J>(
    rt: &R,
    status: Status,
    files: &DiskFiles<F>,
    out: &Writing<O>,
    door: &ShownDoor<'_, PortDoor<N, W>, R>,
    journals: &DiskJournals<J>,
) {
    let troubles = Troubles {
        file: files.last_name(),
        of_file: files.trouble(),
        of_output: out.trouble(),
        port: door.port,
        of_port: door.inner.last_error(),
        journal: journals.last_name(),
        of_journal: journals.trouble(),
    };
    say_status(rt, status, &troubles);
}

/// The same of calls that failed for these reasons.
fn say_status<R: Eprint>(rt: &R, status: Status, troubles: &Troubles<'_>) {
    let _ = match status {
        Status::Usage => rt.eprint(HELP),
        Status::ReadFault => {
            let file = if troubles.file.is_empty() {
                "a file"
            } else {
                troubles.file
            };
            eprintln!(rt; "bigwig: {}: {}", file, Reason(troubles.of_file))
        }
        Status::WriteFault => {
            eprintln!(rt; "bigwig: standard output: {}", Reason(troubles.of_output))
        }
        Status::DoorFault => {
            eprintln!(rt;
                "bigwig: port {}: {}",
                troubles.port,
                Reason(troubles.of_port)
            )
        }
        Status::JournalFault => {
            let journal = if troubles.journal.is_empty() {
                "the journal"
            } else {
                troubles.journal
            };
            eprintln!(rt; "bigwig: {}: {}", journal, Reason(troubles.of_journal))
        }
        Status::Memory => say_memory(rt),
        Status::Done
        | Status::ServiceRefused
        | Status::SchemaRefused
        | Status::PageRefused
        | Status::FormatsRefused
        | Status::LoadRefused
        | Status::SaveRefused
        | Status::ScriptRefused
        | Status::NoFile
        | Status::JournalRefused => Ok(()),
    };
}

/// Says that there was no memory.
pub fn say_memory<R: Eprint>(rt: &R) -> io::Result<()> {
    eprintln!(rt; "bigwig: out of memory")
}
