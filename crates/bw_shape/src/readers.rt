//! Which rows read a row.
ghost use Rattle.std.specs.Prelude.{◌≡◌, ◌⊎◌, ℕ, ◌<◌, ◌++◌, ◌∷◌, [], false, replicate, length, IfOk, OnOk};
ghost use Rattle.std.specs.List.{Contains};
ghost use Rattle.bw_shape.specs.Rows.Rows.{flag};
ghost use Rattle.bw_shape.specs.Rows.Rounds.{AreReaders, Entered};

use crate::row::Row;
use crate::rule::Rule;
use bw_lang::{GapId, Memory, TemplateId};
use std::alloc::Global;
use std::marker::Model;

/// The rows that read a row. Contracts see the list of their numbers.
#[derive(Drop)]
pub(crate) struct Readers {
    list: Vec<usize>,
}

impl Model for Readers {
    ghost use Rattle.std.specs.Prelude.{ℕ, List};

    ghost Value = { List ℕ };

    ghost view = { λ r. r.list.items };
}

impl Readers {
    /// No row. It takes no memory.
    fn new(alloc: Global) -> Readers
        ensures { result ≡ [] }
    {
        Readers {
            list: Vec::new(alloc),
        }
    }

    /// One row more. Where it is the last one already, as after another link of the same row, it isn't listed again.
    fn add(&mut self, row: usize) -> Result<(), Memory>
        ensures keeps { OnOk result ((reader : ℕ) → Contains self.old reader → Contains self.new reader) }
        ensures has { OnOk result (Contains self.new row) }
        ensures only { OnOk result ((reader : ℕ) → Contains self.new reader → Contains self.old reader ⊎ (reader ≡ row)) }
    {
        if self.list.last() == Some(&row) {
            return Ok(());
        }
        self.list.push(row)?;
        Ok(())
    }
}

/// So many rows that no row reads.
fn no_readers(alloc: Global, rows: usize) -> Result<Vec<Readers>, Memory>
    ensures { IfOk result (λ v. v.items ≡ replicate rows []) }
{
    let mut list = Vec::with_capacity(alloc, rows)?;
    for _ in 0..rows {
        list.push(Readers::new(alloc))?;
    }
    Ok(list)
}

/// Takes the row n in as a reader of the row that a link leads to, if there is such a row.
fn enter(link: &(GapId, TemplateId), n: usize, readers: &mut Vec<Readers>) -> Result<(), Memory>
    ensures { OnOk result (Entered n (link.now ∷ []) 1 readers.old.items readers.new.items) }
{
    let row = link.1.number() as usize;
    if row >= readers.len() {
        return Ok(());
    }
    readers[row].add(n)?;
    Ok(())
}

/// Takes the row n in as a reader of each row that its links lead to.
fn enter_all(
    links: &[(GapId, TemplateId)],
    n: usize,
    readers: &mut Vec<Readers>,
) -> Result<(), Memory>
    ensures { OnOk result (Entered n links.now (length links.now) readers.old.items readers.new.items) }
{
    for link in links {
        enter(link, n, readers)?;
    }
    Ok(())
}

/// The readers of each row: the rows that have links to it.
pub(crate) fn readers_of<R: Rule>(
    alloc: Global,
    rule: &R,
    rows: usize,
) -> Result<Vec<Readers>, Memory>
    requires { rows ≡ R.rows rule.now }
    ensures { IfOk result (λ v. AreReaders rows (R.links rule.now) v.items) }
{
    let mut readers = no_readers(alloc, rows)?;
    for n in 0..rows {
        enter_all(rule.links(n), n, &mut readers)?;
    }
    Ok(readers)
}

/// Makes the readers of a row due.
pub(crate) fn wake(readers: &Readers, due: &mut Row)
    ensures len { length due.new ≡ length due.old }
    ensures before { (n : ℕ) → flag due.new n ≡ false → flag due.old n ≡ false }
    ensures apart { (n : ℕ) → n < length due.old → flag due.new n ≡ false → ¬ (Contains readers.now n) }
{
    for reader in readers.list.as_slice() {
        due.put(*reader, true);
    }
}
