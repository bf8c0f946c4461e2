//! Why bytes weren't read.
ghost use Rattle.std.specs.Prelude.{◌≡◌};
ghost use Rattle.bw_saved.specs.declared.fault.ReadError.TheVariants as errors;

use std::alloc::{AllocError, AllocFailed};

/// Why bytes weren't read.
#[derive(Drop)]
pub enum ReadError {
    /// They don't begin with what is due, or it isn't allowed.
    Malformed,
    /// There was no memory.
    Memory,
}

impl From<AllocError> for ReadError {
    ghost from_gives = { λ _ e. e ≡ errors.Memory };

    fn from(_error: AllocError) -> ReadError {
        ReadError::Memory
    }
}

impl<T: Drop> From<AllocFailed<T>> for ReadError {
    ghost from_gives = { λ _ e. e ≡ errors.Memory };

    fn from(_error: AllocFailed<T>) -> ReadError {
        ReadError::Memory
    }
}

impl From<bw_lang::Memory> for ReadError {
    ghost from_gives = { λ _ e. e ≡ errors.Memory };

    fn from(_error: bw_lang::Memory) -> ReadError {
        ReadError::Memory
    }
}
