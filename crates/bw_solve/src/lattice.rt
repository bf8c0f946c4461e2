//! Values with an order and least upper bounds.
ghost use Rattle.std.specs.Prelude.{◌≡◌, ℕ, Bool, IfOk, min};
ghost use Rattle.bw_solve.specs.Lattice.{IsLattice};

use std::alloc::{AllocError, Global};

/// Values with an order in which each two values that are alike have a least upper bound.
pub trait Lattice: Drop {
    /// The two values are well formed and may be compared and joined.
    ghost alike: { Self → Self → Type 0 };

    /// The first value is below the second, or as high.
    ghost below: { Self → Self → Bool };

    /// The least value above both.
    ghost join: { Self → Self → Self };

    /// How many members a value has, which doesn't fall as it grows.
    ghost size: { Self → ℕ };

    /// A number that rises wherever a value really grows.
    ghost rank: { Self → ℕ };

    /// The least value above both.
    fn join(&self, alloc: Global, other: &Self) -> Result<Self, AllocError>
        requires { alike self.now other.now }
        ensures { IfOk result (λ r. r ≡ join self.now other.now) };

    /// Whether this value is below the other, or as high.
    fn below(&self, other: &Self) -> bool
        requires { alike self.now other.now }
        ensures { result ≡ below self.now other.now };

    /// How many members this value has, or 18,446,744,073,709,551,615 where it has more.
    fn size(&self) -> u64
        ensures { result ≡ min (size self.now) u64.MAX };

    ghost laws: { IsLattice alike below join size rank };
}
