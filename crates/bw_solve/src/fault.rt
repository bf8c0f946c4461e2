//! Why a system has no solution here.
ghost use Rattle.std.specs.Prelude.{◌≡◌};

use std::alloc::{AllocError, AllocFailed};

/// Why there is no solution.
#[derive(Clone, Copy, PartialEq, Eq)]
pub enum SolveFault {
    /// The least solution has more members than the limit allows. The number is greater than the limit, and no
    /// greater than 18,446,744,073,709,551,615: how many members there were when the solver stopped.
    TooLarge(u64),
    /// There is no memory for it.
    Memory,
}

impl From<AllocError> for SolveFault {
    ghost use Rattle.bw_solve.specs.declared.fault.SolveFault.TheVariants.{Memory};

    ghost from_gives = { λ _ e. e ≡ Memory };

    fn from(_error: AllocError) -> SolveFault {
        SolveFault::Memory
    }
}

impl<T: Drop> From<AllocFailed<T>> for SolveFault {
    ghost use Rattle.bw_solve.specs.declared.fault.SolveFault.TheVariants.{Memory};

    ghost from_gives = { λ _ e. e ≡ Memory };

    fn from(_error: AllocFailed<T>) -> SolveFault {
        SolveFault::Memory
    }
}
