//! Why a text is no schema.
ghost use Rattle.std.specs.Prelude.{◌≡◌};

use bw_lang::{Memory, Name};
use std::alloc::AllocFailed;
use thiserror::Error;

/// Why a text is no schema. The first that holds is answered, in the order `TooLong`, `Malformed` for the bytes and the
/// first line, `Version`, `Malformed` for the other lines, `Repeated`, `Unknown`.
#[derive(Debug, Drop, Error)]
pub enum SchemaFault {
    /// The bytes aren't UTF-8, or a line isn't written as it has to be, or doesn't stand where it may.
    #[error("the schema is malformed")]
    Malformed,
    /// The first line gives this version, which is neither 1 nor 2.
    #[error("the schema has version {0}")]
    Version(u64),
    /// This element, attribute, value list or child is declared twice, or it is `text` that is.
    #[error("the schema declares a name twice")]
    Repeated(Name),
    /// This root, child, attribute of a value list or a formula, or child of a formula isn't declared.
    #[error("the schema uses a name that it doesn't declare")]
    Unknown(Name),
    /// There are more than 1,048,576 bytes.
    #[error("the schema is too long")]
    TooLong,
    /// There was no memory.
    #[error("out of memory")]
    Memory,
}

impl From<Memory> for SchemaFault {
    ghost use Rattle.bw_schema.specs.declared.fault.SchemaFault.TheVariants as faults;

    ghost from_gives = { λ _ e. e ≡ faults.Memory };

    fn from(_error: Memory) -> SchemaFault {
        SchemaFault::Memory
    }
}

impl<T: Drop> From<AllocFailed<T>> for SchemaFault {
    ghost use Rattle.bw_schema.specs.declared.fault.SchemaFault.TheVariants as faults;

    ghost from_gives = { λ _ e. e ≡ faults.Memory };

    fn from(_error: AllocFailed<T>) -> SchemaFault {
        SchemaFault::Memory
    }
}
