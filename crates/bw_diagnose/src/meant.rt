//! Which name may be meant by one that is unknown: the nearest of those that may stand there.
ghost use Rattle.std.specs.Prelude.{◌≡◌, IfOk};
ghost use Rattle.bw_near.specs.Near.{nearest};
ghost use Rattle.bw_diagnose.specs.Aims.{meant_among};

use bw_lang::{Bytes, Memory};
use bw_near::nearer;
use bw_types::TypeFault;
use std::alloc::Global;

/// The nearest of some names to a word.
fn nearest_of(alloc: Global, word: &[u8], names: &[Bytes]) -> Result<Option<Bytes>, Memory>
    ensures { IfOk result (λ o. o ≡ nearest word.now names.now) }
{
    let mut nearest = None;
    for name in names {
        nearest = nearer(alloc, word, nearest, name.as_slice())?;
    }
    Ok(nearest)
}

/// The name that may be meant by an unknown one, where these may stand.
pub fn meant(alloc: Global, names: &[Bytes], fault: &TypeFault) -> Result<Option<Bytes>, Memory>
    ensures { IfOk result (λ o. o ≡ meant_among names.now fault.now) }
{
    match fault {
        TypeFault::Unknown(name) => nearest_of(alloc, name.as_bytes(), names),
        _ => Ok(None),
    }
}
