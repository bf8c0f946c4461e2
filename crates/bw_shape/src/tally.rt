//! Small counts, column by column.
ghost use Rattle.std.specs.Prelude.{◌≡◌, ℕ, ◌+◌, ◌<◌, ◌≤◌, min, IfOk, length, replicate, slice_index_or, nat_lt};
ghost use Rattle.bw_lang.specs.Document.Documents.{one_if};
ghost use Rattle.bw_shape.specs.Rows.Rows.{flag};

use crate::row::Row;
use bw_lang::Memory;
use std::alloc::Global;
use std::marker::Model;

/// Counts up to 2, which contracts see as their list.
#[derive(Drop)]
pub struct Tally {
    counts: Vec<u8>,
}

impl Model for Tally {
    ghost use Rattle.std.specs.Prelude.{ℕ, List};

    ghost Value = { List ℕ };

    ghost view = { λ t. t.counts.items };
}

/// Counts one more where a flag is set. Over slices, the loop takes many counts at once.
fn count_flags(counts: &mut [u8], flags: &[bool])
    requires { length flags.now ≡ length counts.old }
    ensures len { length counts.new ≡ length counts.old }
    ensures each { (c : ℕ) → c < length counts.old → slice_index_or counts.new c 0 ≡ min (slice_index_or counts.old c 0 + one_if (flag flags.now c)) 2 }
{
    for column in 0..counts.len() {
        counts[column] = (counts[column].min(2) + u8::from(flags[column])).min(2);
    }
}

impl Tally {
    /// So many counts, all of them 0.
    pub fn of(alloc: Global, width: usize) -> Result<Tally, Memory>
        ensures { IfOk result (λ t. t ≡ replicate width 0) }
    {
        Ok(Tally {
            counts: vec![in alloc; 0u8; width]?,
        })
    }

    /// The number of columns.
    pub fn len(&self) -> usize
        ensures { result ≡ length self.now }
    {
        self.counts.len()
    }

    /// Counts one more in a column. Past the end nothing changes.
    pub fn add(&mut self, column: usize)
        ensures len { length self.new ≡ length self.old }
        ensures here { column < length self.old → slice_index_or self.new column 0 ≡ min (slice_index_or self.old column 0 + 1) 2 }
        ensures others { (c : ℕ) → (c ≡ column → ⊥) → slice_index_or self.new c 0 ≡ slice_index_or self.old c 0 }
    {
        if column < self.counts.len() {
            self.counts[column] = self.counts[column].min(1) + 1;
        }
    }

    /// Counts one more in each column that the row has set.
    pub fn add_row(&mut self, row: &Row)
        requires { length row.now ≡ length self.old }
        ensures len { length self.new ≡ length self.old }
        ensures each { (c : ℕ) → c < length self.old → slice_index_or self.new c 0 ≡ min (slice_index_or self.old c 0 + one_if (flag row.now c)) 2 }
    {
        count_flags(self.counts.as_mut_slice(), row.as_slice());
    }

    /// The row of the columns that count 2.
    pub fn twos(&self, alloc: Global) -> Result<Row, Memory>
        ensures len { IfOk result (λ r. length r ≡ length self.now) }
        ensures each { IfOk result (λ r. (c : ℕ) → c < length self.now → flag r c ≡ nat_lt 1 (slice_index_or self.now c 0)) }
    {
        let mut row = Row::of(alloc, self.counts.len(), false)?;
        for column in 0..self.counts.len() {
            let is_two = self.counts[column] > 1;
            row.put(column, is_two);
        }
        Ok(row)
    }
}
