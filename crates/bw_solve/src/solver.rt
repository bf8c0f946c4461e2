//! The least solution of a system.
ghost use Rattle.std.specs.Prelude.{◌≡◌, ℕ, ◌+◌, ◌<◌, ◌≤◌, ◌≢◌, true, false, List, length, vec_len};
ghost use Rattle.std.specs.Prelude.{IfOk, IfErr, MatchOption, slice_get, slice_index, slice_index_or};
ghost use Rattle.std.specs.List.{All};
ghost use Rattle.bw_solve.specs.System.{family, EachFits, IsLeast, members, IsOver};
ghost use Rattle.bw_solve.specs.Fault.{IsCause, IsPassed};

use crate::fault::SolveFault;
use crate::lattice::Lattice;
use crate::system::System;
use std::alloc::{AllocError, Global};
use std::marker::Model;

/// The least solution of a system: one value for each cell. Contracts see the list of the values.
#[derive(Drop)]
pub struct Solution<V> {
    values: Vec<V>,
}

impl<V> Model for Solution<V> {
    ghost Value = { List V };

    ghost view = { λ s. s.values.items };
}

impl<V> Solution<V> {
    /// The number of cells.
    pub fn len(&self) -> usize
        ensures { result ≡ length self.now }
    {
        self.values.len()
    }

    /// The values of all cells.
    pub fn as_slice(&self) -> &[V]
        ensures { result.now ≡ self.now }
    {
        self.values.as_slice()
    }

    /// The value of a cell.
    pub fn value(&self, cell: usize) -> &V
        requires { cell < length self.now }
        ensures { slice_get self.now cell ≡ Some result.now }
    {
        &self.values[cell]
    }
}

// The least value of each cell.
fn least_values<S: System>(alloc: Global, system: &S) -> Result<Vec<S::Value>, AllocError>
    ensures len { IfOk result (λ v. vec_len v ≡ S.cells system.now) }
    ensures each { IfOk result (λ v. (cell : ℕ) → cell < S.cells system.now →
        family (S.empty system.now) v.items cell ≡ S.empty system.now cell) }
{
    let mut values = Vec::new(alloc);
    for cell in 0..system.cells() {
        values.push(system.empty(alloc, cell)?)?;
    }
    Ok(values)
}

// Makes the readers of a cell that changed wait.
fn wake(readers: &[usize], waiting: &mut Vec<bool>)
    requires { All (λ reader. reader < vec_len waiting.old) readers.now }
    ensures len { vec_len waiting.new ≡ vec_len waiting.old }
    ensures before { (cell : ℕ) → slice_index_or waiting.new.items cell false ≡ false →
        slice_index_or waiting.old.items cell false ≡ false }
    ensures apart { (cell k : ℕ) → cell < vec_len waiting.old → slice_index_or waiting.new.items cell false ≡ false →
        k < length readers.now → slice_index readers.now k ≢ cell }
{
    for reader in readers {
        waiting[*reader] = true;
    }
}

// The first cell from a place on that waits.
fn first_waiting(waiting: &[bool], from: usize) -> Option<usize>
    ensures { MatchOption result ((d : ℕ) → from ≤ d → slice_index_or waiting.now d false ≡ false)
        (λ cell. (cell < length waiting.now) × (slice_index_or waiting.now cell false ≡ true)) }
{
    let mut cell = from;
    while cell < waiting.len() {
        if waiting[cell] {
            return Some(cell);
        }
        cell += 1;
    }
    None
}

// The next cell that waits, from a place on and then from the start, or none where no cell waits.
fn next_waiting(waiting: &[bool], from: usize) -> Option<usize>
    ensures { MatchOption result ((d : ℕ) → slice_index_or waiting.now d false ≡ false)
        (λ cell. (cell < length waiting.now) × (slice_index_or waiting.now cell false ≡ true)) }
{
    match first_waiting(waiting, from) {
        Some(cell) => Some(cell),
        None => first_waiting(waiting, 0),
    }
}

// A total that grew, unless it passes the limit.
fn grown(total: u64, by: u64, limit: u64) -> Result<u64, SolveFault>
    requires limit { limit < u64.MAX }
    ensures sum { IfOk result (λ n. (n ≡ total + by) × (n ≤ limit)) }
    ensures passed { IfErr result (IsPassed limit (total + by)) }
{
    let sum = total.saturating_add(by);
    if sum > limit {
        return Err(SolveFault::TooLarge(sum));
    }
    Ok(sum)
}

// The members of all values, unless they pass the limit.
fn count<S: System>(system: &S, values: &[S::Value], limit: u64) -> Result<u64, SolveFault>
    requires limit { limit < u64.MAX }
    requires values { length values.now ≡ S.cells system.now }
    ensures sum { let all = members S.Value.size (family (S.empty system.now) values.now) (S.cells system.now) in
        IfOk result (λ n. (n ≡ all) × (n ≤ limit)) }
    ensures passed { let all = members S.Value.size (family (S.empty system.now) values.now) (S.cells system.now) in
        IfErr result (IsPassed limit all) }
{
    let mut total = 0;
    for value in values {
        total = grown(total, value.size(), limit)?;
    }
    Ok(total)
}

/// The least solution, unless it has more than `limit` members. The solver stops as soon as the values so far have
/// more.
/// Cells are computed in sweeps in their order, and in a sweep only those whose transfers look at a cell that grew.
pub fn solve<S: System>(
    alloc: Global,
    system: &S,
    limit: u64,
) -> Result<Solution<S::Value>, SolveFault>
    requires { limit < u64.MAX }
    ensures cells { IfOk result (λ s. length s ≡ S.cells system.now) }
    ensures least { IfOk result (λ s. IsLeast S.Value.below (S.cells system.now) (S.empty system.now)
        (S.transfer system.now) (family (S.empty system.now) s)) }
    ensures fits { IfOk result (λ s. EachFits (S.cells system.now) (S.fits system.now)
        (family (S.empty system.now) s)) }
    ensures within { IfOk result (λ s. ¬ (IsOver S.Value.size (S.cells system.now) (S.empty system.now)
        (S.transfer system.now) limit)) }
    ensures small { IfOk result (λ s.
        members S.Value.size (family (S.empty system.now) s) (S.cells system.now) ≤ limit) }
    ensures causes { IfErr result (IsCause S.Value.size (S.cells system.now) (S.empty system.now)
        (S.transfer system.now) limit) }
{
    let mut values = least_values(alloc, system)?;
    let mut total = count(system, &values, limit)?;
    let mut waiting = vec![in alloc; true; values.len()]?;
    let mut from = 0;
    while let Some(cell) = next_waiting(&waiting, from) {
        waiting[cell] = false;
        from = cell + 1;
        let value = system.transfer(alloc, cell, &values)?;
        if value.below(&values[cell]) {
            continue;
        }
        total = grown(total, value.size() - values[cell].size(), limit)?;
        values[cell] = value;
        wake(system.readers(cell), &mut waiting);
    }
    Ok(Solution { values })
}
