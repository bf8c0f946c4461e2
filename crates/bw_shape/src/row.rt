//! Rows of flags.
ghost use Rattle.std.specs.Prelude.{◌≡◌, ℕ, ◌<◌, ◌||◌, ◌&&◌, true, false, [], IfOk, length, replicate, set, slice_index_or};
ghost use Rattle.bw_shape.specs.Rows.Rows.{flag};

use bw_lang::Memory;
use std::alloc::Global;
use std::marker::Model;

/// A row of flags, which contracts see as their list.
#[derive(Drop)]
pub struct Row {
    flags: Vec<bool>,
}

impl Model for Row {
    ghost use Rattle.std.specs.Prelude.{Bool, List};

    ghost Value = { List Bool };

    ghost view = { λ r. r.flags.items };
}

/// Sets each flag that the others have set. Over slices, the loop takes many flags at once.
fn join_flags(mine: &mut [bool], its: &[bool])
    ensures len { length mine.new ≡ length mine.old }
    ensures each { (c : ℕ) → c < length mine.old → flag mine.new c ≡ (flag mine.old c || flag its.now c) }
{
    let width = mine.len().min(its.len());
    for column in 0..width {
        mine[column] = mine[column] | its[column];
    }
}

/// Clears each flag that the others haven't set.
fn meet_flags(mine: &mut [bool], its: &[bool])
    requires { length its.now ≡ length mine.old }
    ensures len { length mine.new ≡ length mine.old }
    ensures each { (c : ℕ) → c < length mine.old → flag mine.new c ≡ (flag mine.old c && flag its.now c) }
{
    let width = mine.len().min(its.len());
    for column in 0..width {
        mine[column] = mine[column] & its[column];
    }
}

impl Row {
    /// The row without columns. It takes no memory.
    pub fn new(alloc: Global) -> Row
        ensures { result ≡ [] }
    {
        Row {
            flags: Vec::new(alloc),
        }
    }

    /// A row of that width in which each flag is the same.
    pub fn of(alloc: Global, width: usize, flag: bool) -> Result<Row, Memory>
        ensures { IfOk result (λ r. r ≡ replicate width flag) }
    {
        Ok(Row {
            flags: vec![in alloc; flag; width]?,
        })
    }

    /// The number of columns.
    pub fn len(&self) -> usize
        ensures { result ≡ length self.now }
    {
        self.flags.len()
    }

    /// The flags.
    pub fn as_slice(&self) -> &[bool]
        ensures { result.now ≡ self.now }
    {
        self.flags.as_slice()
    }

    /// The flag of a column.
    pub fn has(&self, column: usize) -> bool
        ensures { result ≡ flag self.now column }
    {
        column < self.flags.len() && self.flags[column]
    }

    /// Sets the flag of a column, or clears it. Past the end of the row nothing changes.
    pub fn put(&mut self, column: usize, to: bool)
        ensures is { column < length self.old → self.new ≡ set self.old column to }
        ensures len { length self.new ≡ length self.old }
        ensures here { column < length self.old → flag self.new column ≡ to }
        ensures others { (c : ℕ) → (c ≡ column → ⊥) → flag self.new c ≡ flag self.old c }
    {
        if column < self.flags.len() {
            self.flags[column] = to;
        }
    }

    /// Sets each flag that the other row has set.
    pub fn join(&mut self, other: &Row)
        ensures len { length self.new ≡ length self.old }
        ensures each { (c : ℕ) → c < length self.old → flag self.new c ≡ (flag self.old c || flag other.now c) }
    {
        join_flags(self.flags.as_mut_slice(), other.flags.as_slice());
    }

    /// Clears each flag that the other row hasn't set.
    pub fn meet(&mut self, other: &Row)
        requires { length other.now ≡ length self.old }
        ensures len { length self.new ≡ length self.old }
        ensures each { (c : ℕ) → c < length self.old → flag self.new c ≡ (flag self.old c && flag other.now c) }
    {
        meet_flags(self.flags.as_mut_slice(), other.flags.as_slice());
    }

    /// Whether the other row has each flag set that this one has.
    pub fn is_within(&self, other: &Row) -> bool
        ensures yes { result ≡ true → (c : ℕ) → flag self.now c ≡ true → flag other.now c ≡ true }
        ensures no { result ≡ false → (c : ℕ) × (flag self.now c ≡ true) × (flag other.now c ≡ false) }
    {
        for column in 0..self.flags.len() {
            if self.flags[column] && !other.has(column) {
                return false;
            }
        }
        true
    }
}
