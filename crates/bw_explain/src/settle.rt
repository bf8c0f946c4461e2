//! The least size of each template's documents in which something is looked for, settled from the least on.
ghost use Rattle.std.specs.Prelude.{◌≡◌, ℕ, ◌≤◌, ◌<◌, ◌^◌, ◌==◌, IfOk, if◌then◌else◌, nat_lt, length};
ghost use Rattle.bw_lang.specs.Document.Documents.{elements};
ghost use Rattle.bw_shape.specs.Nodes.Templates.{template_at};
ghost use Rattle.bw_explain.specs.declared.sizes.TheConstants.{MAX_SIZE, PAST, NONE};
ghost use Rattle.bw_explain.specs.Aims.{cost_of, walk_of, Has, IsGiven};
ghost use Rattle.bw_explain.specs.Sizes.{size};
ghost use Rattle.bw_explain.specs.Tables.{size_at, Documents, IsNext, Solved};
ghost use Rattle.bw_explain.specs.Walks as spec;

use crate::draft::draft_items;
use crate::next::Next;
use crate::sizes::{MAX_SIZE, NONE, PAST, if_so};
use crate::table::Table;
use crate::walk::{Walk, reach_items};
use bw_lang::{Items, Memory};
use std::alloc::Global;

/// What a walk goes by, where the documents from its first state to its last are settled by now.
fn beside<'x>(walk: &Walk<'x>, known: &'x Table) -> Walk<'x>
    ensures walk { walk_of result ≡ spec.seek (walk_of walk.now) walk.now.low walk.now.high (size_at known.now) }
    ensures page { result.page ≡ walk.now.page }
    ensures aim { result.aim ≡ walk.now.aim }
    ensures plain { result.plain.now ≡ walk.now.plain.now }
    ensures stay { result.known.stay.now ≡ (if walk.now.low == walk.now.high then known.now else walk.now.known.stay.now) }
    ensures first { result.known.first.now ≡ (if walk.now.low == walk.now.high then walk.now.known.first.now else if walk.now.high == 1 then known.now
        else walk.now.known.first.now) }
    ensures second { result.known.second.now ≡ (if walk.now.low == walk.now.high then walk.now.known.second.now else if walk.now.high == 1
        then walk.now.known.second.now else if walk.now.low == 1 then known.now else walk.now.known.second.now) }
    ensures whole { result.known.whole.now ≡ (if walk.now.low == walk.now.high then walk.now.known.whole.now else if walk.now.high == 1
        then walk.now.known.whole.now else if walk.now.low == 1 then walk.now.known.whole.now else known.now) }
    ensures states { (result.low ≡ walk.now.low) × (result.high ≡ walk.now.high) }
{
    Walk {
        page: walk.page,
        aim: walk.aim,
        plain: walk.plain,
        known: walk.known.with(walk.low, walk.high, known),
        low: walk.low,
        high: walk.high,
    }
}

/// The least size of a template's documents by what is known, or `NONE` where it is settled.
fn open_size<'x>(walk: &'x Walk<'x>, known: &'x Table, n: usize) -> u32
    requires n { n < length walk.now.page.templates.now }
    requires cost { cost_of walk.now.aim ≤ NONE }
    requires few { (m : ℕ) → elements (template_at walk.now.page.templates.now m) < 2 ^ 32 }
    ensures is { result ≡ (if nat_lt PAST (size_at known.now n) then spec.seek_value walk.now.page.templates.now (walk_of walk.now) walk.now.low walk.now.high
        (size_at known.now) n else NONE) }
    ensures most { result ≤ NONE }
{
    if known.size(n) <= PAST {
        return NONE;
    }
    let walk = beside(walk, known);
    reach_items(&walk, n, 0, walk.low, walk.page.items(n))
        .reach
        .at(walk.high)
}

/// The template with the least size among those that aren't settled.
fn next_of<'x>(walk: &'x Walk<'x>, known: &'x Table) -> Next
    requires cost { cost_of walk.now.aim ≤ NONE }
    requires few { (m : ℕ) → elements (template_at walk.now.page.templates.now m) < 2 ^ 32 }
    ensures { IsNext (length walk.now.page.templates.now) (size_at known.now) (spec.seek_value walk.now.page.templates.now (walk_of walk.now) walk.now.low
        walk.now.high (size_at known.now)) result.at result.size }
{
    let mut next = Next::none();
    for n in 0..walk.page.len() {
        next = next.or(n, open_size(walk, known, n));
    }
    next
}

/// A document of the size that was found, if it isn't too big.
fn next_document<'x>(
    alloc: Global,
    walk: &'x Walk<'x>,
    known: &'x Table,
    next: Next,
) -> Result<Items, Memory>
    requires n { next.at < length walk.now.page.templates.now }
    requires cost { cost_of walk.now.aim ≤ NONE }
    requires few { (m : ℕ) → elements (template_at walk.now.page.templates.now m) < 2 ^ 32 }
    requires given { IsGiven walk.now }
    requires docs { Documents (Has walk.now.page walk.now.aim walk.now.low walk.now.high) known.now }
    requires size { next.size ≡ spec.seek_value walk.now.page.templates.now (walk_of walk.now) walk.now.low walk.now.high (size_at known.now) next.at }
    ensures { IfOk result (λ d. next.size ≤ MAX_SIZE → Has walk.now.page walk.now.aim walk.now.low walk.now.high next.at d × (size d ≤ next.size)) }
{
    if next.size > MAX_SIZE {
        return Ok(Items::new(alloc));
    }
    let walk = beside(walk, known);
    let made = draft_items(alloc, &walk, next.at, 0, walk.low, walk.page.items(next.at))?;
    Ok(made.into_doc(walk.high))
}

/// The least size of each template's documents that go from the first state of a walk to its last, and a document of that
/// size.
pub fn settle(alloc: Global, walk: &Walk) -> Result<Table, Memory>
    requires cost { cost_of walk.now.aim ≤ NONE }
    requires few { (m : ℕ) → elements (template_at walk.now.page.templates.now m) < 2 ^ 32 }
    requires given { IsGiven walk.now }
    ensures { IfOk result (Solved (Has walk.now.page walk.now.aim walk.now.low walk.now.high)) }
{
    let past = if_so(walk.low == walk.high, 0);
    let mut known = Table::new(alloc, walk.page.len(), past)?;
    let mut next = next_of(&*walk, &known);
    while next.size < NONE {
        let Ok(doc) = next_document(alloc, &*walk, &known, next) else {
            drop(known);
            return Err(Memory);
        };
        known.put(next.at, next.size, doc);
        next = next_of(&*walk, &known);
    }
    Ok(known)
}
