//! What may stand at a gap.
ghost use Rattle.std.specs.Prelude.{◌≡◌, ℕ, ◌≤◌, ◌<◌, true, IfOk, OnOk, length};
ghost use Rattle.bw_lang.specs.Document.Forest.{none, gap as hole};
ghost use Rattle.bw_lang.specs.Document.View.{before};
ghost use Rattle.bw_shape.specs.Nodes.Templates.{template_at};
ghost use Rattle.bw_explain.specs.declared.sizes.TheConstants.{MAX_SIZE, NONE};
ghost use Rattle.bw_explain.specs.Aims.{aim_of, walk_of, table_of, Has};
ghost use Rattle.bw_explain.specs.Sizes.{is_loose, if_so};
ghost use Rattle.bw_explain.specs.Tables.{Documents};
ghost use Rattle.bw_explain.specs.Walks as spec;
ghost use Rattle.bw_explain.specs.Walks.{Runs, Adds};
ghost use Rattle.bw_explain.specs.Ways.{way_of, ways_at, graph};

use crate::aim::Aim;
use crate::fill::first_within;
use crate::ground::Stand;
use crate::sizes::if_so;
use crate::walk::Walk;
use crate::way::{Way, least_of};
use bw_lang::{GapId, Item, Items, Memory};
use std::alloc::Global;

/// Whether an item that may stay, or is what is looked for, takes one state to another.
fn takes(from: u32, to: u32, stays: bool, next: bool) -> bool
    requires { from ≤ 2 }
    ensures { result ≡ spec.takes from to stays next }
{
    if from == to {
        stays
    } else {
        from + 1 == to && next
    }
}

/// The size of a gap left open, or of a text that may fill it, if it may be.
fn loose_size(aim: &Aim, way: &Way, from: u32, to: u32) -> u32
    requires { from ≤ 2 }
    ensures is { result ≡ if_so (spec.takes from to (is_loose way.now) (spec.says_wordy (aim_of aim.now) way.now)) 1 }
    ensures most { result ≤ NONE }
{
    let next = way.is_wordy() && aim.is_wordy();
    if_so(takes(from, to, way.is_loose(), next), 1)
}

/// The least size of what may stand at a gap.
pub fn gap_size(walk: &Walk, way: &Way, from: u32, to: u32) -> u32
    requires { from ≤ 2 }
    ensures is { result ≡ spec.gap_cost (walk_of walk.now) way.now from to }
    ensures most { result ≤ NONE }
{
    let loose = loose_size(&walk.aim, way, from, to);
    loose.min(least_of(walk.known.table(from, to), way.led()))
}

/// A gap left open, or a text that may fill it; from one state to the next one a text that is looked for.
fn loose_item(alloc: Global, aim: &Aim, way: &Way, from: u32, to: u32) -> Result<Item, Memory>
    requires { spec.takes from to (is_loose way.now) (spec.says_wordy (aim_of aim.now) way.now) ≡ true }
    ensures { IfOk result (λ x. spec.IsLoose (aim_of aim.now) way.now from to (before x none)) }
{
    if from != to {
        return Ok(Item::Text(way.wordy_word(alloc)?));
    }
    if way.is_open() {
        return Ok(Item::Gap(way.gap()));
    }
    Ok(Item::Text(way.word(alloc)?))
}

/// Puts behind the others what may stand at a gap, of least size.
fn put_way(
    alloc: Global,
    walk: &Walk,
    way: &Way,
    from: u32,
    to: u32,
    out: &mut Items,
) -> Result<(), Memory>
    requires from { from ≤ 2 }
    requires small { spec.gap_cost (walk_of walk.now) way.now from to ≤ MAX_SIZE }
    ensures { OnOk result (spec.Picks (aim_of walk.now.aim) way.now (table_of walk.now.known from to) from to
        (spec.gap_cost (walk_of walk.now) way.now from to) out.old out.new) }
{
    let table = walk.known.table(from, to);
    let least = gap_size(walk, way, from, to);
    match first_within(table, way.led(), least) {
        Some(m) => table.copy_onto(m as usize, out)?,
        None => {
            let item = loose_item(alloc, &walk.aim, way, from, to)?;
            out.push(item)?;
        }
    }
    Ok(())
}

/// The same at a gap of a template; a gap without a way leaves `out` as it was.
pub fn put_gap(
    alloc: Global,
    stand: &Stand<'_>,
    from: u32,
    to: u32,
    gap: GapId,
    out: &mut Items,
) -> Result<(), Memory>
    requires n { stand.now.n < length stand.now.walk.now.page.templates.now }
    requires from { from ≤ 2 }
    requires docs { Documents (Has stand.now.walk.now.page stand.now.walk.now.aim from to) (table_of stand.now.walk.now.known from to) }
    requires small { spec.gap_cost (walk_of stand.now.walk.now) (way_of (ways_at stand.now.walk.now.page.nodes.now stand.now.n) gap) from to ≤ MAX_SIZE }
    ensures { OnOk result ((k : ℕ) → Adds (Runs (template_at stand.now.walk.now.page.templates.now) (graph stand.now.walk.now.page.nodes.now)
        (aim_of stand.now.walk.now.aim) stand.now.n k from
        (hole gap none) to) (spec.gap_cost (walk_of stand.now.walk.now) (way_of
        (ways_at stand.now.walk.now.page.nodes.now stand.now.n) gap) from to) out.old out.new) }
{
    match stand.walk.page.node(stand.n).way(gap) {
        Some(way) => put_way(alloc, stand.walk, way, from, to, out)?,
        None => {}
    }
    Ok(())
}
