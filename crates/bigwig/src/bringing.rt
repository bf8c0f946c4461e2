//! A world is brought back from its journal.
ghost use Rattle.std.specs.Prelude.{◌≡◌, ◌≤◌, ◌<◌, ◌^◌, ℕ, List, IfOk, IfErr, IfSome, IsErrOf, Some, length};
ghost use Rattle.bw_journal.specs.declared.limits.TheConstants.{MAX_ENTRY_BYTES};
ghost use Rattle.bw_model.specs.Sessions.{empty};
ghost use Rattle.bw_out.specs.Causes.{Shows};
ghost use Rattle.bw_out.specs.Sends.{Takes};
ghost use Rattle.bw_questions.specs.Asked.{Ruled};
ghost use Rattle.bw_questions.specs.Behind.{content_of};
ghost use Rattle.bw_questions.specs.Checks.{IsRuled};
ghost use Rattle.bw_sound.specs.Worlds.{BeginsSound};
ghost use Rattle.bw_world.specs.Stands.{StandsFor};
ghost use Rattle.bigwig.specs.Finding.{IsBegunIn, IsFoundIn, IsRefusedBy, IsToldBy, recalled_of};
ghost use Rattle.bigwig.specs.Fits.{IsFitStart};

use crate::journal_lines::journal_line;
use crate::origins::{BegunServer, begin_reading};
use crate::server::Server;
use bw_lang::Memory;
use bw_out::{Failed, Files, Source, Steps};
use bw_questions::{Refusal, Served, Stop, refused};
use bw_recall::{Mark, Reader, Recalled, recall_behind};
use std::alloc::Global;
use std::sync::ledger::Ledger;

/// What is found in a journal that is one.
#[derive(Clone, Copy)]
pub enum Found {
    /// Nothing was kept yet, and there is no whole head.
    Nothing,
    /// Its entries end behind so many bytes, and this is the check there.
    Entries { len: u64, sum: u64 },
}

/// A server in the world that a journal brings about, and what was found in the journal.
#[derive(Drop)]
pub struct Brought {
    pub server: Server,
    pub found: Found,
}

/// Brings back the world of a journal, for a service that is accepted and whose file has this text. Where there is no file, nothing
/// was kept yet. The file is closed again.
pub fn bring_back<F: Files, L: Ledger>(
    alloc: Global,
    served: Served,
    text: &[u8],
    name: &str,
    files: &mut F,
    steps: &mut Steps<L>,
) -> Result<Brought, Stop>
    requires text { length text.now < 2 ^ 32 }
    ensures found { IfOk result (λ b. IfSome (F.told files.old) (λ disk. (ruled : Ruled) → IsRuled served.checked.typed.service served.formats ruled
        → IsFoundIn ruled text.now (content_of (disk name.now)) b.server.world b.found)) }
    ensures stops { IfErr result (λ stop. IfSome (F.told files.old) (λ disk. (ruled : Ruled)
        → IsRuled served.checked.typed.service served.formats ruled → IsRefusedBy ruled text.now (content_of (disk name.now)) stop)) }
    ensures service { IfOk result (λ b. b.server.world.service ≡ served.checked.typed.service) }
    ensures formats { IfOk result (λ b. b.server.formats ≡ served.formats) }
    ensures told { F.told files.new ≡ F.told files.old }
    ensures read_fault { Shows (IsErrOf result Stop.ReadFault) (F.faults files.old) (F.faults files.new) }
{
    match files.fetch(name) {
        Err(Failed) => {
            drop(served);
            Err(Stop::ReadFault)
        }
        Ok(None) => bring_nothing(alloc, served),
        Ok(Some(mut file)) => {
            let brought = bring_file(alloc, served, text, &mut file, steps);
            files.close(file);
            brought
        }
    }
}

/// A service that is accepted, in the world in which nothing was requested yet.
fn bring_nothing(alloc: Global, served: Served) -> Result<Brought, Stop>
    ensures stands { IfOk result (λ b. StandsFor b.server.world (empty b.server.world.service)) }
    ensures sound { IfOk result (λ b. BeginsSound b.server.world.service) }
    ensures found { IfOk result (λ b. b.found ≡ Found.Nothing) }
    ensures service { IfOk result (λ b. b.server.world.service ≡ served.checked.typed.service) }
    ensures formats { IfOk result (λ b. b.server.formats ≡ served.formats) }
    ensures memory { IfErr result (λ stop. stop ≡ Stop.Memory) }
{
    match Server::new(alloc, served) {
        Ok(server) => Ok(Brought {
            server,
            found: Found::Nothing,
        }),
        Err(Memory) => Err(Stop::Memory),
    }
}

/// The same of a journal's file, of which nothing was read yet.
fn bring_file<S: Source, L: Ledger>(
    alloc: Global,
    served: Served,
    text: &[u8],
    source: &mut S,
    steps: &mut Steps<L>,
) -> Result<Brought, Stop>
    requires text { length text.now < 2 ^ 32 }
    ensures found { IfOk result (λ b. IfSome (S.left source.old) (λ bytes. (ruled : Ruled) → IsRuled served.checked.typed.service served.formats ruled
        → IsFoundIn ruled text.now bytes b.server.world b.found)) }
    ensures stops { IfErr result (λ stop. IfSome (S.left source.old) (λ bytes. (ruled : Ruled)
        → IsRuled served.checked.typed.service served.formats ruled → IsRefusedBy ruled text.now bytes stop)) }
    ensures service { IfOk result (λ b. b.server.world.service ≡ served.checked.typed.service) }
    ensures formats { IfOk result (λ b. b.server.formats ≡ served.formats) }
    ensures takes { Takes S.Channel source.old source.new (IsErrOf result Stop.ReadFault) }
{
    let Ok(mut reader) = Reader::new(alloc, text) else {
        drop(served);
        return Err(Stop::Memory);
    };
    match begin_reading(alloc, served, text, &mut reader, source) {
        Err(stop) => Err(stop),
        Ok(begun) => {
            let BegunServer { server, mark } = begun;
            match mark {
                None => Ok(Brought {
                    server,
                    found: Found::Nothing,
                }),
                Some(mark) => bring_entries(server, &mut reader, source, mark, steps),
            }
        }
    }
}

/// Handles the requests of the entries of a journal behind the mark.
fn bring_entries<S: Source, L: Ledger>(
    server: Server,
    reader: &mut Reader,
    source: &mut S,
    start: Mark,
    steps: &mut Steps<L>,
) -> Result<Brought, Stop>
    requires room { MAX_ENTRY_BYTES ≤ reader.old.window.size }
    requires near { start.len < 2 ^ 34 }
    requires fit { IsFitStart server.formats server.world }
    ensures found { IfOk result (λ b. (ruled : Ruled) (text bytes : List ℕ) → IsRuled server.world.service server.formats ruled
        → IsBegunIn ruled text bytes server.world (Some start) reader.old.window (S.left source.old)
        → IsFoundIn ruled text bytes b.server.world b.found) }
    ensures stops { IfErr result (λ stop. (ruled : Ruled) (text bytes : List ℕ) → IsRuled server.world.service server.formats ruled
        → IsBegunIn ruled text bytes server.world (Some start) reader.old.window (S.left source.old) → IsRefusedBy ruled text bytes stop) }
    ensures service { IfOk result (λ b. b.server.world.service ≡ server.world.service) }
    ensures formats { IfOk result (λ b. b.server.formats ≡ server.formats) }
    ensures takes { Takes S.Channel source.old source.new (IsErrOf result Stop.ReadFault) }
{
    let mut server = server;
    let recalled = recall_behind(
        server.alloc,
        &mut server.world,
        &server.formats,
        reader,
        source,
        start,
        steps,
    );
    match found_of(server.alloc, recalled) {
        Ok(found) => Ok(Brought { server, found }),
        Err(stop) => {
            drop(server);
            Err(stop)
        }
    }
}

/// What was found in a journal, or why the program stops.
fn found_of(alloc: Global, recalled: Recalled) -> Result<Found, Stop>
    ensures found { IfOk result (λ found. recalled ≡ recalled_of found) }
    ensures stops { IfErr result (IsToldBy recalled) }
    ensures reads { recalled ≡ Recalled.ReadFault → IsErrOf result Stop.ReadFault }
{
    match recalled {
        Recalled::New => Ok(Found::Nothing),
        Recalled::Done { len, sum } => Ok(Found::Entries { len, sum }),
        other => Err(stop_of(alloc, other)),
    }
}

/// Why the program stops where a journal was read so.
pub fn stop_of(alloc: Global, recalled: Recalled) -> Stop
    ensures told { IsToldBy recalled result }
    ensures reads { recalled ≡ Recalled.ReadFault → result ≡ Stop.ReadFault }
{
    match recalled {
        Recalled::ReadFault => Stop::ReadFault,
        Recalled::Damaged(_) | Recalled::Version(_) | Recalled::Other => {
            refused(Refusal::Journal, journal_line(alloc, recalled))
        }
        _ => Stop::Memory,
    }
}
