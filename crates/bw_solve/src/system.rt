//! Systems of cells.
ghost use Rattle.std.specs.Prelude.{◌≡◌, ℕ, ◌<◌, Bool, List, length, IfOk, All};
ghost use Rattle.bw_solve.specs.System.{family, EachFits, IsSystem};

use crate::lattice::Lattice;
use std::alloc::{AllocError, Global};

/// Cells, counted from 0, each of which holds a value that its transfer computes from the values of other cells.
pub trait System {
    type Value: Lattice;

    ghost cells: { Self → ℕ };

    /// The value may stand in the cell. Such values are alike with one another.
    ghost fits: { Self → ℕ → Self.Value → Type 0 };

    /// No value that fits the cell has a higher rank.
    ghost bound: { Self → ℕ → ℕ };

    /// The least value of each cell.
    ghost empty: { Self → ℕ → Self.Value };

    /// The cells whose transfers look at a cell.
    ghost readers: { Self → ℕ → List ℕ };

    /// The new value of a cell, from the values of all cells.
    ghost transfer: { Self → ℕ → (ℕ → Self.Value) → Self.Value };

    /// The number of cells.
    fn cells(&self) -> usize
        ensures { result ≡ cells self.now };

    /// The least value of a cell.
    fn empty(&self, alloc: Global, cell: usize) -> Result<Self::Value, AllocError>
        requires { cell < cells self.now }
        ensures { IfOk result (λ v. v ≡ empty self.now cell) };

    /// The cells whose transfers look at this cell.
    fn readers(&self, cell: usize) -> &[usize]
        requires { cell < cells self.now }
        ensures value { result.now ≡ readers self.now cell }
        ensures each { All (λ reader. reader < cells self.now) result.now };

    /// The new value of a cell, from the values of all cells.
    fn transfer(
        &self,
        alloc: Global,
        cell: usize,
        values: &[Self::Value],
    ) -> Result<Self::Value, AllocError>
        requires cell { cell < cells self.now }
        requires values { length values.now ≡ cells self.now }
        requires fits { EachFits (cells self.now) (fits self.now) (family (empty self.now) values.now) }
        ensures { IfOk result (λ v. v ≡ transfer self.now cell (family (empty self.now) values.now)) };

    ghost laws: { (s : Self) → IsSystem Self.Value.alike Self.Value.below Self.Value.rank
        (cells s) (fits s) (bound s) (empty s) (readers s) (transfer s) };
}
