//! What went wrong.
use bw_lang::Memory;
use std::alloc::{AllocError, AllocFailed};
use std::fmt;

/// What went wrong.
#[derive(Clone, Copy, PartialEq, Eq)]
pub enum Wrong {
    /// This run, by the number of the call that fails, ended with another status than is due.
    Status(u64),
    /// Its output isn't the one that is due.
    Output(u64),
    /// A link behind the failure wasn't answered as if nothing had been.
    Later(u64),
    /// The journal holds something else than is due.
    Journal(u64),
    /// Where a request for memory was refused, something else came than is due.
    Refused,
    /// There was no memory for what is wanted.
    Memory,
}

impl fmt::Display for Wrong {
    fn fmt<W: fmt::Write>(&self, f: &mut fmt::Formatter<W>) -> fmt::Result {
        match self {
            Wrong::Status(call) => write!(f, "call {call}: another status"),
            Wrong::Output(call) => write!(f, "call {call}: another output"),
            Wrong::Later(call) => write!(f, "call {call}: another answer on a later link"),
            Wrong::Journal(call) => write!(f, "call {call}: another journal"),
            Wrong::Refused => write!(f, "a refused request for memory: another output"),
            Wrong::Memory => write!(f, "out of memory"),
        }
    }
}

impl From<AllocError> for Wrong {
    fn from(_error: AllocError) -> Wrong {
        Wrong::Memory
    }
}

impl From<Memory> for Wrong {
    fn from(_error: Memory) -> Wrong {
        Wrong::Memory
    }
}

impl<T: Drop> From<AllocFailed<T>> for Wrong {
    fn from(_error: AllocFailed<T>) -> Wrong {
        Wrong::Memory
    }
}
