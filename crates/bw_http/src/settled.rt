//! When the bytes of a stream are enough.
ghost use Rattle.std.specs.Prelude.{IfSome, IfNone};
ghost use Rattle.bw_http.specs.Messages.{IsSettled, Lacks};

use crate::reading::{Lack, Verdict, examine};

/// What the bytes of a stream still lack until `read_request` has enough of them: nothing where they begin with a whole
/// message, or with what is refused whatever follows. Then it reads them without taking any from its source.
pub fn lack(bytes: &[u8]) -> Option<Lack>
    ensures settled { IfNone result (IsSettled bytes.now) }
    ensures lacks { IfSome result (Lacks bytes.now) }
{
    match examine(bytes) {
        Verdict::Short(lack) => Some(lack),
        Verdict::Bad | Verdict::TooLong | Verdict::Denied(_) | Verdict::Whole(_) => None,
    }
}
