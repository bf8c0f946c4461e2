//! Which tags may stand before which others at the top of a template.
ghost use Rattle.std.specs.Prelude.{◌≡◌, ℕ, ◌+◌, ◌<◌, ◌==◌, ◌||◌, ◌&&◌, false, IfOk, OnOk, length, slice_index_or};
ghost use Rattle.std.specs.List.{All};
ghost use Rattle.bw_shape.specs.Rows.Rows.{flag, at};
ghost use Rattle.bw_lang.specs.Document.Forest.{none};
ghost use Rattle.bw_lang.specs.Document.View.{before};
ghost use Rattle.bw_shape.specs.Tests as test;
ghost use Rattle.bw_shape.specs.Rows.Changes.{Sets};

use crate::gaps::links_at;
use crate::tags::Tags;
use crate::tops::item_gives;
use crate::{Node, Row, Rule, Table, TemplateItems};
use bw_lang::{GapId, Item, Items, Memory, TemplateId};
use std::alloc::Global;

/// Sets the pairs of which the first was seen and the second is given.
fn mark(pairs: &[(usize, usize)], seen: &Row, given: &Row, row: &mut Row)
    requires { length row.old ≡ length pairs.now }
    ensures { Sets row.old row.new (λ c. flag seen.now (slice_index_or pairs.now c (0, 0)).0 && flag given.now (slice_index_or pairs.now c (0, 0)).1) }
{
    for (column, pair) in pairs.iter().enumerate() {
        let is_crossed = seen.has(pair.0) && given.has(pair.1);
        if is_crossed {
            row.put(column, true);
        }
    }
}

/// Sets the pairs that a gap's links lead to.
fn item_opens(node: &Node, known: &Table, item: &Item, row: &mut Row)
    ensures { Sets row.old row.new (λ c. test.opens node.now (λ m. at known.now m c) (before item.now none)) }
{
    if let Item::Gap(gap) = item {
        node.join_led(*gap, known, row);
    }
}

/// Sets the pairs that an item adds to those that were seen before it.
fn item_crosses(
    alloc: Global,
    tags: &Tags,
    node: &Node,
    tops: &Table,
    known: &Table,
    pairs: &[(usize, usize)],
    item: &Item,
    seen: &mut Row,
    row: &mut Row,
) -> Result<(), Memory>
    requires pairs { All (λ p. p.1 < length seen.old) pairs.now }
    requires some { 0 < length seen.old }
    requires row { length row.old ≡ length pairs.now }
    ensures seen { OnOk result (Sets seen.old seen.new (λ c. test.gives tags.now node.now (λ m. at tops.now m c) c (before item.now none))) }
    ensures row { OnOk result
        (Sets row.old row.new
        (λ c. test.opens node.now (λ m. at known.now m c) (before item.now none)
        || (flag seen.old (slice_index_or pairs.now c (0, 0)).0 && test.gives tags.now node.now (λ m. at tops.now m (slice_index_or pairs.now c (0, 0)).1)
        (slice_index_or pairs.now c (0, 0)).1 (before item.now none)))) }
{
    let mut given = Row::of(alloc, seen.len(), false)?;
    item_gives(tags, node, tops, item, &mut given);
    item_opens(node, known, item, row);
    mark(pairs, seen, &given, row);
    seen.join(&given);
    Ok(())
}

/// Sets the pairs of columns of which the first may stand before the second at the top of the items.
pub fn items_cross(
    alloc: Global,
    tags: &Tags,
    node: &Node,
    tops: &Table,
    known: &Table,
    pairs: &[(usize, usize)],
    items: &Items,
    row: &mut Row,
) -> Result<(), Memory>
    requires pairs { All (λ p. (p.0 < length tags.now + 1) × (p.1 < length tags.now + 1)) pairs.now }
    requires row { length row.old ≡ length pairs.now }
    ensures { OnOk result
        (Sets row.old row.new (λ c. test.crosses tags.now node.now (at tops.now) (λ m. at known.now m c) (slice_index_or pairs.now c (0, 0)) items.now)) }
{
    let mut seen = Row::of(alloc, tags.len() + 1, false)?;
    for item in items.as_slice() {
        item_crosses(alloc, tags, node, tops, known, pairs, item, &mut seen, row)?;
    }
    Ok(())
}

/// Which pairs of columns may stand in this order at the top of a template, where the tops are known.
#[derive(Clone, Copy)]
pub struct Crosses<'a, 'b> {
    pub templates: &'a TemplateItems<'a>,
    pub nodes: &'a [Node],
    pub tags: &'b Tags,
    pub tops: &'b Table,
    pub pairs: &'a [(usize, usize)],
    ghost both: { length nodes.now ≡ length templates.now },
    ghost within: { All (λ p. (p.0 < length tags.now + 1) × (p.1 < length tags.now + 1)) pairs.now },
}

impl<'a, 'b> Rule for Crosses<'a, 'b> {
    ghost use Rattle.std.specs.Prelude.{length};
    ghost use Rattle.bw_shape.specs.Follows.{cross_follows};
    ghost use Rattle.bw_shape.specs.Reading.{links_of, cross_reads};

    ghost width = { λ r. length r.pairs.now };

    ghost rows = { λ r. length r.templates.now };

    ghost links = { λ r. links_of r.nodes.now };

    ghost follows = { λ r. cross_follows r.templates.now r.nodes.now r.tags.now (at r.tops.now) r.pairs.now };

    ghost reads = { λ r. cross_reads r.templates.now r.nodes.now r.tags.now (at r.tops.now) r.pairs.now };

    fn links(&self, n: usize) -> &[(GapId, TemplateId)] {
        links_at(self.nodes, n)
    }

    fn row(&self, alloc: Global, n: usize, known: &Table) -> Result<Row, Memory> {
        let mut row = Row::of(alloc, self.pairs.len(), false)?;
        items_cross(
            alloc,
            self.tags,
            &self.nodes[n],
            self.tops,
            known,
            self.pairs,
            self.templates.at(n),
            &mut row,
        )?;
        Ok(row)
    }
}
