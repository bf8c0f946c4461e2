//! Why a service isn't accepted.
ghost use Rattle.std.specs.Prelude.{◌≡◌};

use bw_faults::Faults;

/// Why a service isn't accepted. The first that holds, in the order TooMany, TooLarge, Refused; `Memory` may come at any
/// place.
#[derive(Drop)]
pub enum CheckFault {
    /// All faults of the service, in their order and without doubles; there is at least one.
    Refused(Faults),
    /// The least solution has more than 2,000,000 members. The number is greater than that: how many there were when the
    /// analysis stopped.
    TooLarge(u64),
    /// There are more than 4,096 points; the number says how many.
    TooMany(u64),
    /// There is no memory for the check.
    Memory,
}

impl From<bw_lang::Memory> for CheckFault {
    ghost use Rattle.bw_check.specs.declared.fault.CheckFault.TheVariants.{Memory};

    ghost from_gives = { λ _ e. e ≡ Memory };

    fn from(_error: bw_lang::Memory) -> CheckFault {
        CheckFault::Memory
    }
}
