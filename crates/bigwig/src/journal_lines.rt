//! The line of a journal that is refused.
ghost use Rattle.std.specs.Prelude.{◌≡◌, IfOk};
ghost use Rattle.bigwig.specs.JournalLines as spec;

use bw_lang::Memory;
use bw_questions::placed;
use bw_recall::Recalled;
use std::alloc::Global;

/// Why a journal is refused.
pub fn journal_line(alloc: Global, recalled: Recalled) -> Result<Vec<u8>, Memory>
    ensures { IfOk result (λ line. line.items ≡ spec.journal_line recalled) }
{
    match recalled {
        Recalled::Damaged(at) => placed(alloc, b"journal damaged at ", at as usize),
        Recalled::Version(version) => placed(alloc, b"journal version ", usize::from(version)),
        Recalled::Other => Ok(b"journal of another service".to_vec(alloc)?),
        Recalled::New | Recalled::Done { .. } | Recalled::ReadFault | Recalled::Memory => {
            Ok(Vec::new(alloc))
        }
    }
}
