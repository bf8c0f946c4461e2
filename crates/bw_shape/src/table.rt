//! Tables of flags.
ghost use Rattle.std.specs.Prelude.{◌≡◌, ℕ, ◌<◌, ◌||◌, [], IfOk, length, replicate, set, slice_index_or};
ghost use Rattle.bw_shape.specs.Rows.Rows.{flag, at};

use crate::row::Row;
use bw_lang::Memory;
use std::alloc::Global;
use std::marker::Model;

/// Numbered rows of flags, which contracts see as a list of lists.
pub struct Table {
    rows: Vec<Row>,
}

impl Drop for Table {
    fn drop(self) {
        let Table { rows: _ } = self;
    }
}

impl Model for Table {
    ghost use Rattle.std.specs.Prelude.{Bool, List};

    ghost Value = { List (List Bool) };

    ghost view = { λ t. t.rows.items };
}

impl Table {
    /// The table of so many rows without columns.
    pub fn new(alloc: Global, rows: usize) -> Result<Table, Memory>
        ensures { IfOk result (λ t. t ≡ replicate rows []) }
    {
        let mut list = Vec::with_capacity(alloc, rows)?;
        for _ in 0..rows {
            list.push(Row::new(alloc))?;
        }
        Ok(Table { rows: list })
    }

    /// The number of rows.
    pub fn len(&self) -> usize
        ensures { result ≡ length self.now }
    {
        self.rows.len()
    }

    /// The row of that number.
    pub fn row(&self, n: usize) -> &Row
        requires { n < length self.now }
        ensures { result.now ≡ slice_index_or self.now n [] }
    {
        &self.rows[n]
    }

    /// Whether the flag of a column is set in the row of that number.
    pub fn has(&self, n: usize, column: usize) -> bool
        ensures { result ≡ at self.now n column }
    {
        n < self.rows.len() && self.rows[n].has(column)
    }

    /// Sets in a row each flag that the row of that number has set.
    pub fn join_row(&self, n: usize, row: &mut Row)
        ensures len { length row.new ≡ length row.old }
        ensures each { (c : ℕ) → c < length row.old → flag row.new c ≡ (flag row.old c || at self.now n c) }
    {
        if n < self.rows.len() {
            row.join(&self.rows[n]);
        }
    }

    /// Puts a row in place of the one of that number.
    pub fn replace(&mut self, n: usize, row: Row)
        requires { n < length self.old }
        ensures { self.new ≡ set self.old n row }
    {
        self.rows[n] = row;
    }
}
