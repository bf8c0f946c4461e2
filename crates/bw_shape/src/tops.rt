//! What may stand at the top of a template.
ghost use Rattle.std.specs.Prelude.{◌≡◌, ℕ, ◌+◌, ◌<◌, ◌==◌, ◌||◌, ◌&&◌, false, IfOk, OnOk, length, slice_index_or};
ghost use Rattle.std.specs.List.{All};
ghost use Rattle.bw_shape.specs.Rows.Rows.{flag, at};
ghost use Rattle.bw_lang.specs.Document.Forest.{none};
ghost use Rattle.bw_lang.specs.Document.View.{before};
ghost use Rattle.bw_shape.specs.Rows.Changes.{Sets, Clears};
ghost use Rattle.bw_shape.specs.Tests as test;

use crate::gaps::{gap_lacks, links_at};
use crate::tags::Tags;
use crate::{Node, Row, Rule, Table, TemplateItems};
use bw_lang::{GapId, Item, Items, Memory, TemplateId, is_blank_text};
use std::alloc::Global;

/// Sets what an item may give.
pub(crate) fn item_gives(tags: &Tags, node: &Node, known: &Table, item: &Item, row: &mut Row)
    ensures { Sets row.old row.new (λ c. test.gives tags.now node.now (λ m. at known.now m c) c (before item.now none)) }
{
    match item {
        Item::Text(text) => {
            if !is_blank_text(text.as_str()) {
                row.put(0, true);
            }
        }
        Item::Gap(gap) => {
            if node.is_wordy(*gap) {
                row.put(0, true);
            }
            node.join_led(*gap, known, row);
        }
        Item::Element(element) => row.put(tags.number(&element.tag) + 1, true),
    }
}

/// Sets what the items may give.
#[tactic(auto, using(crate::proofs::Walks::walk_steps))]
pub fn items_give(tags: &Tags, node: &Node, known: &Table, items: &Items, row: &mut Row)
    ensures { Sets row.old row.new (λ c. test.gives tags.now node.now (λ m. at known.now m c) c items.now) }
{
    for item in items.as_slice() {
        item_gives(tags, node, known, item, row);
    }
}

fn item_misses(
    alloc: Global,
    tags: &Tags,
    node: &Node,
    known: &Table,
    item: &Item,
    row: &mut Row,
) -> Result<(), Memory>
    ensures { OnOk result (Clears row.old row.new (λ c. test.misses tags.now node.now (λ m. at known.now m c) c (before item.now none))) }
{
    match item {
        Item::Text(_) => Ok(()),
        Item::Gap(gap) => gap_lacks(alloc, node, known, *gap, row),
        Item::Element(element) => {
            row.put(tags.number(&element.tag), false);
            Ok(())
        }
    }
}

/// Clears the tags that the items give in any case.
#[tactic(auto, using(crate::proofs::Walks::walk_steps))]
pub fn items_miss(
    alloc: Global,
    tags: &Tags,
    node: &Node,
    known: &Table,
    items: &Items,
    row: &mut Row,
) -> Result<(), Memory>
    ensures { OnOk result (Clears row.old row.new (λ c. test.misses tags.now node.now (λ m. at known.now m c) c items.now)) }
{
    for item in items.as_slice() {
        item_misses(alloc, tags, node, known, item, row)?;
    }
    Ok(())
}

/// What may stand at the top of a template: column 0 is a text that isn't blank, and behind it the tags.
#[derive(Clone, Copy)]
pub struct Tops<'a, 'b> {
    pub templates: &'a TemplateItems<'a>,
    pub nodes: &'a [Node],
    pub tags: &'b Tags,
    ghost both: { length nodes.now ≡ length templates.now },
}

impl<'a, 'b> Rule for Tops<'a, 'b> {
    ghost use Rattle.std.specs.Prelude.{◌+◌, length};
    ghost use Rattle.bw_shape.specs.Follows.{top_follows};
    ghost use Rattle.bw_shape.specs.Reading.{links_of, top_reads};

    ghost width = { λ r. length r.tags.now + 1 };

    ghost rows = { λ r. length r.templates.now };

    ghost links = { λ r. links_of r.nodes.now };

    ghost follows = { λ r. top_follows r.templates.now r.nodes.now r.tags.now };

    ghost reads = { λ r. top_reads r.templates.now r.nodes.now r.tags.now };

    fn links(&self, n: usize) -> &[(GapId, TemplateId)] {
        links_at(self.nodes, n)
    }

    fn row(&self, alloc: Global, n: usize, known: &Table) -> Result<Row, Memory> {
        let mut row = Row::of(alloc, self.tags.len() + 1, false)?;
        items_give(
            self.tags,
            &self.nodes[n],
            known,
            self.templates.at(n),
            &mut row,
        );
        Ok(row)
    }
}

/// Which of the first tags of a table a template may have none of at its top.
#[derive(Clone, Copy)]
pub struct MayMiss<'a, 'b> {
    pub templates: &'a TemplateItems<'a>,
    pub nodes: &'a [Node],
    pub tags: &'b Tags,
    pub first: usize,
    ghost both: { length nodes.now ≡ length templates.now },
}

impl<'a, 'b> Rule for MayMiss<'a, 'b> {
    ghost use Rattle.std.specs.Prelude.{length};
    ghost use Rattle.bw_shape.specs.Follows.{miss_follows};
    ghost use Rattle.bw_shape.specs.Reading.{links_of, miss_reads};

    ghost width = { λ r. r.first };

    ghost rows = { λ r. length r.templates.now };

    ghost links = { λ r. links_of r.nodes.now };

    ghost follows = { λ r. miss_follows r.templates.now r.nodes.now r.tags.now };

    ghost reads = { λ r. miss_reads r.templates.now r.nodes.now r.tags.now };

    fn links(&self, n: usize) -> &[(GapId, TemplateId)] {
        links_at(self.nodes, n)
    }

    fn row(&self, alloc: Global, n: usize, known: &Table) -> Result<Row, Memory> {
        let mut row = Row::of(alloc, self.first, true)?;
        items_miss(
            alloc,
            self.tags,
            &self.nodes[n],
            known,
            self.templates.at(n),
            &mut row,
        )?;
        Ok(row)
    }
}
