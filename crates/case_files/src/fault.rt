//! Why cases can't be tried.

use bw_lang::Memory;
use std::alloc::{AllocError, AllocFailed};
use std::num::ParseIntError;
use std::{fmt, io};

/// Why cases can't be tried.
#[derive(Drop)]
pub enum Fault {
    /// A line isn't written as the format says.
    Malformed,
    /// There was no memory.
    Memory,
    /// A file can't be read, or a line can't be printed.
    Outside(io::Error),
}

impl fmt::Display for Fault {
    fn fmt<W: fmt::Write>(&self, f: &mut fmt::Formatter<W>) -> fmt::Result {
        match self {
            Fault::Malformed => write!(f, "a line isn't written as the format says"),
            Fault::Memory => write!(f, "out of memory"),
            Fault::Outside(error) => write!(f, "{error}"),
        }
    }
}

impl From<ParseIntError> for Fault {
    fn from(_error: ParseIntError) -> Fault {
        Fault::Malformed
    }
}

impl From<Memory> for Fault {
    fn from(_error: Memory) -> Fault {
        Fault::Memory
    }
}

impl From<AllocError> for Fault {
    fn from(_error: AllocError) -> Fault {
        Fault::Memory
    }
}

impl<T: Drop> From<AllocFailed<T>> for Fault {
    fn from(_error: AllocFailed<T>) -> Fault {
        Fault::Memory
    }
}

impl From<io::Error> for Fault {
    fn from(error: io::Error) -> Fault {
        Fault::Outside(error)
    }
}
