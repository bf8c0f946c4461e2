//! Why a template isn't read.
ghost use Rattle.std.specs.Prelude.{◌≡◌};

use bw_lang::Memory;
use thiserror::Error;

/// Why the inside of a template, or a page, isn't read. Of the first four, the first that holds is answered, in
/// this order.
#[derive(Clone, Copy, Debug, Error)]
pub enum TmplFault {
    /// The bytes are no list of texts, content gaps, start tags, whole tags and end tags, a text or a value isn't
    /// UTF-8, or there is a gap where none is allowed.
    #[error("the template is malformed")]
    Malformed,
    /// A tag names an attribute twice.
    #[error("a tag names an attribute twice")]
    RepeatedAttribute,
    /// The start tags and the end tags don't pair, with equal names and properly nested.
    #[error("the start tags and the end tags don't pair")]
    Mismatched,
    /// More elements stand inside one another than are allowed.
    #[error("too many elements stand inside one another")]
    Nesting,
    /// There was no memory.
    #[error("out of memory")]
    Memory,
}

impl From<Memory> for TmplFault {
    ghost use Rattle.bw_tmpl.specs.declared.fault.TmplFault.TheVariants as faults;

    ghost from_gives = { λ _ e. e ≡ faults.Memory };

    fn from(_error: Memory) -> TmplFault {
        TmplFault::Memory
    }
}
