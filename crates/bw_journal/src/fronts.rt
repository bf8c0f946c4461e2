//! The front of an entry: the length of its message, and its key.
ghost use Rattle.std.specs.Prelude.{◌≡◌, ◌<◌, length, IfNone, IfSome};
ghost use Rattle.std.specs.Int.{w32, from_be_bytes};
ghost use Rattle.bw_journal.specs.Reading.{IsFront};

use crate::words::{eight_from, four_from};

/// The front of an entry, what it says, and what follows it.
#[derive(Clone, Copy)]
pub(crate) struct Front<'a> {
    pub bytes: &'a [u8],
    pub len: u32,
    pub key: u64,
    pub rest: &'a [u8],
}

/// The bytes of a front.
const FRONT_BYTES: usize = 12;

/// The front of an entry, unless the bytes are too few.
pub(crate) fn read_front(bytes: &[u8]) -> Option<Front<'_>>
    ensures none { IfNone result (length bytes.now < FRONT_BYTES) }
    ensures some { IfSome result (λ front. IsFront front bytes.now) }
    ensures len { IfSome result (λ front. front.len ≡ from_be_bytes w32 bytes.now) }
{
    if bytes.len() < FRONT_BYTES {
        return None;
    }
    let (front, rest) = bytes.split_at(FRONT_BYTES);
    let (_, key) = front.split_at(4);
    Some(Front {
        bytes: front,
        len: four_from(bytes),
        key: eight_from(key),
        rest,
    })
}
