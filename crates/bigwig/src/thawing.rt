//! The world from which a service goes on: of saved sessions, or the one in which nothing was requested yet.
ghost use Rattle.std.specs.Prelude.{◌≡◌, List, ℕ, [], IfOk, IfErr, IfSome, IsErrOf, Some};
ghost use Rattle.bw_save.specs.Frozen.{loaded_of};
ghost use Rattle.bw_out.specs.Causes.{Shows};
ghost use Rattle.bw_questions.specs.Asked.{Ruled};
ghost use Rattle.bigwig.specs.Asked.{loaded_file, start};
ghost use Rattle.bigwig.specs.Loading.{loads};
ghost use Rattle.bw_questions.specs.Checks.{IsRuled};
ghost use Rattle.bigwig.specs.Fits.{IsFitStart};
ghost use Rattle.bw_questions.specs.Questions.{IsAnswer};

use crate::saved_lines::load_line;
use crate::server::Server;
use bw_lang::{Memory, Text};
use bw_out::Files;
use bw_questions::{Refusal, Served, Stop, fetch_bytes, refused};
use bw_save::thaw;
use bw_saved::limits::MAX_SAVED_BYTES;
use std::alloc::Global;

/// One byte more than a file of saved sessions may have.
const SAVED_FRONT: usize = MAX_SAVED_BYTES + 1;

/// A service that is accepted, whose file has this text, in the world of the saved sessions that are named, or, where none
/// are, in the one in which nothing was requested yet.
pub fn begin_server<F: Files>(
    alloc: Global,
    files: &mut F,
    served: Served,
    text: &[u8],
    load: &Option<Text>,
) -> Result<Server, Stop>
    ensures answers { IfSome (F.told files.old) (λ disk. (ruled : Ruled) (name : List ℕ)
        → IsRuled served.checked.typed.service served.formats ruled → disk name ≡ Some text.now
        → IsAnswer (λ s. loaded_of s.world) (start disk name load.now ruled.service) result) }
    ensures service { IfOk result (λ s. s.world.service ≡ served.checked.typed.service) }
    ensures formats { IfOk result (λ s. s.formats ≡ served.formats) }
    ensures fit { IfOk result (λ s. IsFitStart s.formats s.world) }
    ensures none { IfOk result (λ s. s.intake ≡ []) }
    ensures told { F.told files.new ≡ F.told files.old }
    ensures read_fault { Shows (IsErrOf result Stop.ReadFault) (F.faults files.old) (F.faults files.new) }
{
    match load {
        Some(name) => load_server(alloc, files, served, text, name.as_str()),
        None => match Server::new(alloc, served) {
            Ok(server) => Ok(server),
            Err(Memory) => Err(Stop::Memory),
        },
    }
}

/// The same in the world of a file of saved sessions. It is closed again: its first 69,206,017 bytes tell what all of them are.
fn load_server<F: Files>(
    alloc: Global,
    files: &mut F,
    served: Served,
    text: &[u8],
    name: &str,
) -> Result<Server, Stop>
    ensures answers { IfSome (F.told files.old) (λ disk. (ruled : Ruled) (service : List ℕ)
        → IsRuled served.checked.typed.service served.formats ruled → disk service ≡ Some text.now
        → IsAnswer (λ s. loaded_of s.world) (loaded_file disk service name.now ruled.service) result) }
    ensures service { IfOk result (λ s. s.world.service ≡ served.checked.typed.service) }
    ensures formats { IfOk result (λ s. s.formats ≡ served.formats) }
    ensures fit { IfOk result (λ s. IsFitStart s.formats s.world) }
    ensures none { IfOk result (λ s. s.intake ≡ []) }
    ensures told { F.told files.new ≡ F.told files.old }
    ensures read_fault { Shows (IsErrOf result Stop.ReadFault) (F.faults files.old) (F.faults files.new) }
{
    match fetch_bytes(alloc, files, name, SAVED_FRONT) {
        Ok(bytes) => thawed_server(alloc, served, text, &bytes),
        Err(stop) => {
            drop(served);
            Err(stop)
        }
    }
}

/// The same in the world that these bytes give.
pub fn thawed_server(
    alloc: Global,
    served: Served,
    text: &[u8],
    bytes: &[u8],
) -> Result<Server, Stop>
    ensures answers { (ruled : Ruled) → IsRuled served.checked.typed.service served.formats ruled
        → IsAnswer (λ s. loaded_of s.world) (loads ruled.service text.now bytes.now) result }
    ensures service { IfOk result (λ s. s.world.service ≡ served.checked.typed.service) }
    ensures formats { IfOk result (λ s. s.formats ≡ served.formats) }
    ensures fit { IfOk result (λ s. IsFitStart s.formats s.world) }
    ensures none { IfOk result (λ s. s.intake ≡ []) }
    ensures no_read { IsErrOf result Stop.ReadFault → ⊥ }
{
    let Served { checked, formats } = served;
    match thaw(alloc, bytes, text, checked) {
        Ok(world) => match Server::of(alloc, world, formats) {
            Ok(server) => Ok(server),
            Err(Memory) => Err(Stop::Memory),
        },
        Err(fault) => {
            drop(formats);
            Err(refused(Refusal::Load, load_line(alloc, &fault)))
        }
    }
}
