//! Why lexemes aren't parsed.
ghost use Rattle.std.specs.Prelude.{◌≡◌};
ghost use Rattle.bw_parse.specs.declared.fault.ParseFault.TheVariants.{Memory as NoMemory};

use bw_lang::Memory;
use std::alloc::{AllocError, AllocFailed};

/// Why lexemes aren't parsed.
#[derive(Clone, Copy, PartialEq, Eq)]
pub enum ParseFault {
    /// There was no memory.
    Memory,
    /// The lexemes are those of no service. So many of them were left where the parser gave up: the number is a hint
    /// for people, and no contract speaks of it.
    Syntax(usize),
}

impl From<Memory> for ParseFault {
    ghost from_gives = { λ _ e. e ≡ NoMemory };

    fn from(_error: Memory) -> ParseFault {
        ParseFault::Memory
    }
}

impl From<AllocError> for ParseFault {
    ghost from_gives = { λ _ e. e ≡ NoMemory };

    fn from(_error: AllocError) -> ParseFault {
        ParseFault::Memory
    }
}

impl<T: Drop> From<AllocFailed<T>> for ParseFault {
    ghost from_gives = { λ _ e. e ≡ NoMemory };

    fn from(_error: AllocFailed<T>) -> ParseFault {
        ParseFault::Memory
    }
}
