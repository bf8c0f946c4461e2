//! Why a service has no facts.
ghost use Rattle.std.specs.Prelude.{◌≡◌};

use bw_solve::SolveFault;
use std::alloc::AllocError;

/// Why there are no facts.
#[derive(Clone, Copy, PartialEq, Eq)]
pub enum AnalyseFault {
    /// The least solution has more than 2,000,000 members. The number is greater than that: how many there were when the
    /// solver stopped.
    TooLarge(u64),
    /// There is no memory for it.
    Memory,
}

impl From<bw_lang::Memory> for AnalyseFault {
    ghost use Rattle.bw_analyse.specs.declared.fault.AnalyseFault.TheVariants.{Memory};

    ghost from_gives = { λ _ e. e ≡ Memory };

    fn from(_error: bw_lang::Memory) -> AnalyseFault {
        AnalyseFault::Memory
    }
}

impl From<AllocError> for AnalyseFault {
    ghost use Rattle.bw_analyse.specs.declared.fault.AnalyseFault.TheVariants.{Memory};

    ghost from_gives = { λ _ e. e ≡ Memory };

    fn from(_error: AllocError) -> AnalyseFault {
        AnalyseFault::Memory
    }
}
