//! The least solution of a system, round by round: each round computes all cells at once from those before.
ghost use Rattle.std.specs.Prelude.{◌≡◌, ℕ, ◌<◌, true, length, vec_len, IfOk};
ghost use Rattle.bw_solve.specs.System.{family, EachFits, EachBelow, IsLeast};

use bw_solve::{Lattice, System};
use case_files::Fault;
use std::alloc::{AllocError, Global};

/// The least value of each cell.
fn least_values<S: System>(alloc: Global, system: &S) -> Result<Vec<S::Value>, AllocError>
    ensures len { IfOk result (λ v. vec_len v ≡ S.cells system.now) }
    ensures each { IfOk result (λ v. (cell : ℕ) → cell < S.cells system.now →
        family (S.empty system.now) v.items cell ≡ S.empty system.now cell) }
{
    let mut values = Vec::new(alloc);
    for cell in 0..system.cells() {
        values.push(system.empty(alloc, cell)?)?;
    }
    Ok(values)
}

/// The values that one more round gives.
fn next_round<S: System>(
    alloc: Global,
    system: &S,
    values: &[S::Value],
) -> Result<Vec<S::Value>, AllocError>
    requires values { length values.now ≡ S.cells system.now }
    requires fits { EachFits (S.cells system.now) (S.fits system.now) (family (S.empty system.now) values.now) }
    ensures len { IfOk result (λ v. vec_len v ≡ S.cells system.now) }
    ensures each { IfOk result (λ v. (cell : ℕ) → cell < S.cells system.now →
        family (S.empty system.now) v.items cell ≡ S.transfer system.now cell (family (S.empty system.now) values.now)) }
{
    let mut next = Vec::new(alloc);
    for cell in 0..system.cells() {
        next.push(system.transfer(alloc, cell, values)?)?;
    }
    Ok(next)
}

/// Whether each of some values is below the one at its place among others, or as high.
fn are_below<S: System>(system: &S, a: &[S::Value], b: &[S::Value]) -> bool
    requires a { length a.now ≡ S.cells system.now }
    requires b { length b.now ≡ S.cells system.now }
    requires a_fits { EachFits (S.cells system.now) (S.fits system.now) (family (S.empty system.now) a.now) }
    requires b_fits { EachFits (S.cells system.now) (S.fits system.now) (family (S.empty system.now) b.now) }
    ensures { result ≡ true → EachBelow S.Value.below (S.cells system.now) (family (S.empty system.now) a.now)
        (family (S.empty system.now) b.now) }
{
    for cell in 0..system.cells() {
        if !a[cell].below(&b[cell]) {
            return false;
        }
    }
    true
}

/// The least solution: the values of the first round after which nothing grows.
pub fn least_by_rounds<S: System>(alloc: Global, system: &S) -> Result<Vec<S::Value>, Fault>
    ensures { IfOk result (λ v. IsLeast S.Value.below (S.cells system.now) (S.empty system.now)
        (S.transfer system.now) (family (S.empty system.now) v.items)) }
{
    let mut values = least_values(alloc, system)?;
    'rounds: for _ in 0..u64::MAX {
        let next = next_round(alloc, system, &values)?;
        if are_below(system, &next, &values) {
            return Ok(values);
        }
        values = next;
    }
    Err(Fault::Malformed)
}
