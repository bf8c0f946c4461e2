//! Systems of cells that hold sets of numbers and flow into one another.
ghost use Rattle.std.specs.Prelude.{◌≡◌, ◌<◌, ◌==◌, true, [], length, slice_index_or, IfOk, All};
ghost use Rattle.std.specs.List.{list_any};
ghost use Rattle.analysis_cases.specs.Cells.{AreInRange, own_at, readers_at, filled, gathered};

use crate::sets::cells::Cell;
use bw_solve::{Set, System};
use case_files::Fault;
use std::alloc::{AllocError, Global};

/// Cells that flow into one another.
#[derive(Drop)]
pub struct LinkedCells {
    cells: Vec<Cell>,
    ghost in_range: { AreInRange cells.items },
}

impl LinkedCells {
    /// These cells, whose readers have to be there.
    pub fn of(cells: Vec<Cell>) -> Result<LinkedCells, Fault> {
        if !are_in_range(&cells) {
            return Err(Fault::Malformed);
        }
        Ok(LinkedCells { cells })
    }
}

/// Whether all readers of all cells are there.
fn are_in_range(cells: &[Cell]) -> bool
    ensures { result ≡ true → AreInRange cells.now }
{
    for cell in cells {
        if !are_below(&cell.readers, cells.len()) {
            return false;
        }
    }
    true
}

/// Whether all places are below a length.
fn are_below(places: &[usize], len: usize) -> bool
    ensures { result ≡ true → All (λ place. place < len) places.now }
{
    places.iter().all(|place| *place < len)
}

/// The set with these members.
fn set_of(alloc: Global, numbers: &[u32]) -> Result<Set<u32>, AllocError>
    ensures { IfOk result (λ s. s ≡ filled [] numbers.now) }
{
    let mut set = Set::new(alloc);
    for number in numbers {
        set.add(*number)?;
    }
    Ok(set)
}

/// The set of a cell's own numbers.
fn own_numbers(alloc: Global, cells: &[Cell], cell: usize) -> Result<Set<u32>, AllocError>
    requires { cell < length cells.now }
    ensures { IfOk result (λ s. s ≡ filled [] (own_at cells.now cell)) }
{
    set_of(alloc, &cells[cell].own)
}

/// Whether a cell holds what a source holds as well.
fn is_fed(cells: &[Cell], cell: usize, source: usize) -> bool
    requires { source < length cells.now }
    ensures { result ≡ list_any (λ reader. reader == cell) (readers_at cells.now source) }
{
    cells[source].readers.contains(&cell)
}

/// What a cell holds, where the cells hold these values: its own numbers, and what those hold that flow into it.
fn gathered(
    alloc: Global,
    cells: &[Cell],
    cell: usize,
    values: &[Set<u32>],
) -> Result<Set<u32>, AllocError>
    requires cell { cell < length cells.now }
    requires values { length values.now ≡ length cells.now }
    ensures { IfOk result (λ v. v ≡ gathered cells.now cell (λ c. slice_index_or values.now c []) (length cells.now)) }
{
    let mut all = own_numbers(alloc, cells, cell)?;
    for source in 0..cells.len() {
        if !is_fed(cells, cell, source) {
            continue;
        }
        all = all.union(alloc, &values[source])?;
    }
    Ok(all)
}

impl System for LinkedCells {
    type Value = Set<u32>;

    ghost use Rattle.std.specs.Prelude.{[], length};
    ghost use Rattle.analysis_cases.specs.Cells.{Fits, all_numbers, readers_at, gathered};
    ghost use Rattle.analysis_cases.specs.Lawful.CellLaws.{cells_system};

    ghost cells = { λ s. length s.cells.items };

    ghost fits = { λ s cell v. Fits s.cells.items v };

    ghost bound = { λ s cell. length (all_numbers s.cells.items) };

    ghost empty = { λ s cell. [] };

    ghost readers = { λ s. readers_at s.cells.items };

    ghost transfer = { λ s cell f. gathered s.cells.items cell f (length s.cells.items) };

    ghost laws = { λ s. cells_system s.cells.items };

    fn cells(&self) -> usize {
        self.cells.len()
    }

    fn empty(&self, alloc: Global, _cell: usize) -> Result<Set<u32>, AllocError> {
        Ok(Set::new(alloc))
    }

    fn readers(&self, cell: usize) -> &[usize] {
        self.cells[cell].readers.as_slice()
    }

    fn transfer(
        &self,
        alloc: Global,
        cell: usize,
        values: &[Set<u32>],
    ) -> Result<Set<u32>, AllocError> {
        gathered(alloc, &self.cells, cell, values)
    }
}
