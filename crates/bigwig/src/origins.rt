//! Where a journal begins is read, and the world there is made.
ghost use Rattle.std.specs.Prelude.{◌≡◌, ◌≤◌, ◌<◌, ◌+◌, ◌^◌, ℕ, List, length, IfOk, IfErr, IfSome, IsErrOf};
ghost use Rattle.std.specs.declared.option.Option.{Option};
ghost use Rattle.bw_journal.specs.Heads.{head_of, saved_front};
ghost use Rattle.bw_journal.specs.declared.limits.TheConstants.{MAX_ENTRY_BYTES};
ghost use Rattle.bw_recall.specs.Starting.{IsMarked, IsStarted};
ghost use Rattle.bw_recall.specs.Windows.{Hand, fresh};
ghost use Rattle.bw_recall.specs.declared.recalling.Recalled.TheVariants as damaged;
ghost use Rattle.bw_recall.specs.declared.window.TheConstants.{MAX_TEXT_BYTES};
ghost use Rattle.bw_model.specs.Sessions.{empty};
ghost use Rattle.bw_out.specs.Sends.{Takes};
ghost use Rattle.bw_questions.specs.Asked.{Ruled};
ghost use Rattle.bw_questions.specs.Checks.{IsRuled};
ghost use Rattle.bw_sound.specs.Worlds.{BeginsSound};
ghost use Rattle.bw_world.specs.Stands.{StandsFor};
ghost use Rattle.bigwig.specs.Finding.{IsBegunIn, IsRefusedBy, IsToldBy};
ghost use Rattle.bigwig.specs.Fits.{IsFitStart};

use crate::bringing::stop_of;
use crate::server::Server;
use crate::thawing::thawed_server;
use bw_journal::head_bytes;
use bw_lang::Memory;
use bw_out::Source;
use bw_questions::{Served, Stop};
use bw_recall::{Mark, Reader, Recalled, Started, read_start};
use std::alloc::Global;

/// A server in the world at which a journal begins, and where its entries stand. There is no such place where nothing was kept yet.
#[derive(Drop)]
pub struct BegunServer {
    pub server: Server,
    pub mark: Option<Mark>,
}

/// Reads where a journal begins.
pub fn begin_reading<S: Source>(
    alloc: Global,
    served: Served,
    text: &[u8],
    reader: &mut Reader,
    source: &mut S,
) -> Result<BegunServer, Stop>
    requires text { length text.now < 2 ^ 32 }
    requires window { reader.old.window ≡ fresh (length (head_of text.now) + MAX_TEXT_BYTES) }
    ensures begun { IfOk result (λ b. IfSome (S.left source.old) (λ bytes. (ruled : Ruled) → IsRuled served.checked.typed.service served.formats ruled
        → IsBegunIn ruled text.now bytes b.server.world b.mark reader.new.window (S.left source.new))) }
    ensures stops { IfErr result (λ stop. IfSome (S.left source.old) (λ bytes. (ruled : Ruled)
        → IsRuled served.checked.typed.service served.formats ruled → IsRefusedBy ruled text.now bytes stop)) }
    ensures service { IfOk result (λ b. b.server.world.service ≡ served.checked.typed.service) }
    ensures formats { IfOk result (λ b. b.server.formats ≡ served.formats) }
    ensures fit { IfOk result (λ b. IsFitStart b.server.formats b.server.world) }
    ensures near { IfOk result (λ b. IfSome b.mark (λ mark. mark.len < 2 ^ 34)) }
    ensures room { MAX_ENTRY_BYTES ≤ reader.new.window.size }
    ensures takes { Takes S.Channel source.old source.new (IsErrOf result Stop.ReadFault) }
{
    let started = read_start(alloc, reader, source, text);
    begin_at(alloc, served, text, started)
}

/// A server in the world at which a journal begins that was read so.
fn begin_at(
    alloc: Global,
    served: Served,
    text: &[u8],
    started: Started,
) -> Result<BegunServer, Stop>
    requires text { length text.now < 2 ^ 32 }
    requires marked { IsMarked started }
    ensures begun { IfOk result (λ b. (ruled : Ruled) (bytes : List ℕ) (hand : Hand) (later : Option (List ℕ))
        → IsRuled served.checked.typed.service served.formats ruled → IsStarted text.now bytes hand later started
        → IsBegunIn ruled text.now bytes b.server.world b.mark hand later) }
    ensures stops { IfErr result (λ stop. (ruled : Ruled) (bytes : List ℕ) (hand : Hand) (later : Option (List ℕ))
        → IsRuled served.checked.typed.service served.formats ruled → IsStarted text.now bytes hand later started
        → IsRefusedBy ruled text.now bytes stop) }
    ensures service { IfOk result (λ b. b.server.world.service ≡ served.checked.typed.service) }
    ensures formats { IfOk result (λ b. b.server.formats ≡ served.formats) }
    ensures fit { IfOk result (λ b. IsFitStart b.server.formats b.server.world) }
    ensures near { IfOk result (λ b. IfSome b.mark (λ mark. mark.len < 2 ^ 34)) }
    ensures reads { IsErrOf result Stop.ReadFault → started ≡ Started.ReadFault }
    ensures read { started ≡ Started.ReadFault → IsErrOf result Stop.ReadFault }
{
    match started {
        Started::New => begin_empty(alloc, served, None),
        Started::Empty(mark) => begin_empty(alloc, served, Some(mark)),
        Started::Saved(saved, mark) => match thawed_server(alloc, served, text, &saved) {
            Ok(server) => Ok(BegunServer {
                server,
                mark: Some(mark),
            }),
            Err(stop) => Err(unloaded(alloc, text, stop)),
        },
        Started::Damaged(at) => Err(stopped(alloc, served, Recalled::Damaged(at))),
        Started::Version(version) => Err(stopped(alloc, served, Recalled::Version(version))),
        Started::Other => Err(stopped(alloc, served, Recalled::Other)),
        Started::ReadFault => Err(stopped(alloc, served, Recalled::ReadFault)),
        Started::Memory => Err(stopped(alloc, served, Recalled::Memory)),
    }
}

/// A server in the world in which nothing was requested yet.
fn begin_empty(alloc: Global, served: Served, mark: Option<Mark>) -> Result<BegunServer, Stop>
    ensures stands { IfOk result (λ b. StandsFor b.server.world (empty b.server.world.service)) }
    ensures sound { IfOk result (λ b. BeginsSound b.server.world.service) }
    ensures mark { IfOk result (λ b. b.mark ≡ mark) }
    ensures service { IfOk result (λ b. b.server.world.service ≡ served.checked.typed.service) }
    ensures formats { IfOk result (λ b. b.server.formats ≡ served.formats) }
    ensures memory { IfErr result (λ stop. stop ≡ Stop.Memory) }
{
    match Server::new(alloc, served) {
        Ok(server) => Ok(BegunServer { server, mark }),
        Err(Memory) => Err(Stop::Memory),
    }
}

/// Why the program stops where the saved world that a journal begins at isn't loaded: it is damaged behind what stands in front of
/// that world.
fn unloaded(alloc: Global, text: &[u8], stop: Stop) -> Stop
    requires text { length text.now < 2 ^ 32 }
    ensures told { IsToldBy (damaged.Damaged (length (saved_front text.now))) result }
    ensures memory { stop ≡ Stop.Memory → result ≡ Stop.Memory }
{
    match stop {
        Stop::Memory => Stop::Memory,
        other => {
            drop(other);
            stop_of(alloc, Recalled::Damaged(head_bytes(text) as u64))
        }
    }
}

/// The program stops since a journal was read so.
fn stopped(alloc: Global, served: Served, recalled: Recalled) -> Stop
    ensures told { IsToldBy recalled result }
    ensures reads { recalled ≡ Recalled.ReadFault → result ≡ Stop.ReadFault }
{
    drop(served);
    stop_of(alloc, recalled)
}
