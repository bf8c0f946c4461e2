//! The least table of facts that a rule gives.
ghost use Rattle.std.specs.Prelude.{◌≡◌, ℕ, ◌<◌, Bool, List, length, IfOk};
ghost use Rattle.std.specs.List.{All};
ghost use Rattle.bw_shape.specs.Rows.Rows.{flag, at};
ghost use Rattle.bw_shape.specs.Rows.Least.{IsLeast};
ghost use Rattle.bw_shape.specs.Rows.Rounds.{AreReaders, Step, Look, Round};

use crate::readers::{Readers, readers_of, wake};
use crate::row::Row;
use crate::table::Table;
use bw_lang::{GapId, Memory, TemplateId};
use std::alloc::Global;

/// A rule that says which facts of a row follow from those that are known.
pub trait Rule {
    ghost use Rattle.bw_shape.specs.Rows.Least.{Derivation};
    ghost use Rattle.bw_shape.specs.Rows.Rounds.{ReadsLinks};

    ghost width: { Self → ℕ };

    ghost rows: { Self → ℕ };

    ghost links: { Self → ℕ → List (ℕ × ℕ) };

    ghost follows: { Self → Derivation };

    /// The links of the row n, each a gap and a row.
    fn links(&self, n: usize) -> &[(GapId, TemplateId)]
        requires { n < rows self.now }
        ensures { result.now ≡ links self.now n };

    /// The facts of the row n that follow from a table.
    fn row(&self, alloc: Global, n: usize, known: &Table) -> Result<Row, Memory>
        requires row { n < rows self.now }
        requires known { length known.now ≡ rows self.now }
        ensures len { IfOk result (λ r. length r ≡ width self.now) }
        ensures each { IfOk result (λ r. (c : ℕ) → c < width self.now → flag r c ≡ follows self.now (at known.now) n c) };

    /// They follow from the rows that its links lead to, whatever the others have.
    ghost reads: { (s : Self) → ReadsLinks (links s) (follows s) };
}

/// Looks at one row: whether some fact is new.
fn step<R: Rule>(alloc: Global, rule: &R, n: usize, known: &mut Table) -> Result<bool, Memory>
    requires row { n < R.rows rule.now }
    requires known { length known.old ≡ R.rows rule.now }
    ensures { IfOk result (λ b. Step (R.width rule.now) (R.follows rule.now) n known.old known.new b) }
{
    let mut row = rule.row(alloc, n, known)?;
    if row.is_within(known.row(n)) {
        return Ok(false);
    }
    row.join(known.row(n));
    known.replace(n, row);
    Ok(true)
}

/// Looks at one row if it is due: whether some fact is new. The rows that read it are due then.
fn look<R: Rule>(
    alloc: Global,
    rule: &R,
    n: usize,
    readers: &[Readers],
    known: &mut Table,
    due: &mut Row,
) -> Result<bool, Memory>
    requires row { n < R.rows rule.now }
    requires known { length known.old ≡ R.rows rule.now }
    requires due { length due.old ≡ R.rows rule.now }
    requires readers { AreReaders (R.rows rule.now) (R.links rule.now) readers.now }
    ensures { IfOk result (λ b. Look (R.width rule.now) (R.rows rule.now) (R.follows rule.now) n known.old known.new due.old due.new b) }
{
    if !due.has(n) {
        return Ok(false);
    }
    due.put(n, false);
    if !step(alloc, rule, n, known)? {
        return Ok(false);
    }
    wake(&readers[n], due);
    Ok(true)
}

/// Looks at each row of the order that is due: whether some fact is new.
fn round<R: Rule>(
    alloc: Global,
    rule: &R,
    order: &[u32],
    readers: &[Readers],
    known: &mut Table,
    due: &mut Row,
) -> Result<bool, Memory>
    requires order { All (λ n. n < R.rows rule.now) order.now }
    requires known { length known.old ≡ R.rows rule.now }
    requires due { length due.old ≡ R.rows rule.now }
    requires readers { AreReaders (R.rows rule.now) (R.links rule.now) readers.now }
    ensures { IfOk result
        (λ b. Round (R.width rule.now) (R.rows rule.now) (R.follows rule.now) order.now (length order.now) known.old known.new due.old due.new b) }
{
    let mut changed = false;
    for n in order {
        changed |= look(alloc, rule, *n as usize, readers, known, due)?;
    }
    Ok(changed)
}

/// The least table of facts that the rule gives for the rows of an order. A row is looked at again only where a row
/// that it reads has a new fact; so where each row stands behind those that it reads, each is looked at once.
pub fn least<R: Rule>(alloc: Global, rule: &R, rows: usize, order: &[u32]) -> Result<Table, Memory>
    requires rows { rows ≡ R.rows rule.now }
    requires order { All (λ n. n < R.rows rule.now) order.now }
    ensures len { IfOk result (λ t. length t ≡ rows) }
    ensures least { IfOk result (λ t. IsLeast (R.width rule.now) (R.follows rule.now) order.now t) }
{
    let readers = readers_of(alloc, rule, rows)?;
    let mut known = Table::new(alloc, rows)?;
    let mut due = Row::of(alloc, rows, true)?;
    let mut changed = true;
    while changed {
        changed = round(alloc, rule, order, &readers, &mut known, &mut due)?;
    }
    Ok(known)
}
