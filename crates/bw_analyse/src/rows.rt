//! Rows of what is known of variables.
ghost use Rattle.std.specs.Prelude.{◌≡◌, ◌++◌, ◌∷◌, [], IfOk, OnOk, MatchOption, None, Some, slice_get, slice_index_or};

use crate::abstracts::Abstract;
use bw_lang::Memory;
use bw_solve::Lattice;
use std::alloc::{AllocError, Global};
use std::marker::Model;

/// What is known of some variables, in their order. Contracts see the list.
pub struct Row {
    list: Vec<Abstract>,
}

impl Drop for Row {
    fn drop(self) {
        let Row { list: _ } = self;
    }
}

impl Model for Row {
    ghost use Rattle.std.specs.Prelude.{List};
    ghost use Rattle.bw_analyse.specs.declared.abstracts.Abstract.{Abstract};

    ghost Value = { List Abstract };

    ghost use Rattle.std.specs.Coded.{coded_list};
    ghost use Rattle.bw_analyse.specs.contracts.abstracts.Abstract as known;

    ghost coded = { coded_list known.the_row.coded };

    ghost view = { λ r. r.list.items };
}

impl Row {
    /// Of no variable.
    pub fn new(alloc: Global) -> Row
        ensures { result ≡ [] }
    {
        Row {
            list: Vec::new(alloc),
        }
    }

    /// One variable more.
    pub fn push(&mut self, value: Abstract) -> Result<(), Memory>
        ensures { OnOk result (self.new ≡ self.old ++ value ∷ []) }
    {
        self.list.push(value)?;
        Ok(())
    }

    pub fn as_slice(&self) -> &[Abstract]
        ensures { result.now ≡ self.now }
    {
        self.list.as_slice()
    }

    /// What is known of the variable at this place, if there is one.
    pub fn get(&self, place: usize) -> Option<&Abstract>
        ensures { MatchOption result (slice_get self.now place ≡ None) (λ a. slice_get self.now place ≡ Some a.now) }
    {
        self.list.get(place)
    }
}

impl Lattice for Row {
    ghost use Rattle.bw_analyse.specs.Abstracts.{AreAlike, is_below, both, size_of, rank_of};
    ghost use Rattle.bw_analyse.specs.Lawful.AbstractLaws.{abstracts_lattice};
    ghost use Rattle.bw_analyse.specs.Rows.{EachAlike, each_below, each_join, all_sizes};
    ghost use Rattle.bw_analyse.specs.Lawful.RowLaws.{rows_lattice};

    ghost alike = { EachAlike AreAlike };

    ghost below = { each_below is_below };

    ghost join = { each_join both };

    ghost size = { all_sizes size_of };

    ghost rank = { all_sizes rank_of };

    ghost laws = { rows_lattice abstracts_lattice };

    fn join(&self, alloc: Global, other: &Self) -> Result<Self, AllocError> {
        let a = self.as_slice();
        let b = other.as_slice();
        let mut list = Vec::new(alloc);
        let mut i = 0;
        while i < a.len() && i < b.len() {
            list.push(a[i].join(alloc, &b[i])?)?;
            i += 1;
        }
        Ok(Row { list })
    }

    fn below(&self, other: &Self) -> bool {
        let a = self.as_slice();
        let b = other.as_slice();
        let mut i = 0;
        while i < a.len() && i < b.len() {
            if !a[i].below(&b[i]) {
                return false;
            }
            i += 1;
        }
        a.len() == b.len()
    }

    fn size(&self) -> u64 {
        let mut total = 0u64;
        for value in &self.list {
            total = total.saturating_add(value.size());
        }
        total
    }
}

/// The row of a cell.
pub fn row_of(values: &[Row], cell: usize) -> &[Abstract]
    ensures { result.now ≡ slice_index_or values.now cell [] }
{
    match values.get(cell) {
        Some(row) => row.as_slice(),
        None => &[],
    }
}
