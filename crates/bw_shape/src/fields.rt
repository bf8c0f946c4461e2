//! Which fields a template may lack, have, and have twice.
ghost use Rattle.std.specs.Prelude.{◌≡◌, ℕ, ◌<◌, ◌==◌, ◌||◌, ◌&&◌, false, IfOk, OnOk, MatchOption, length};
ghost use Rattle.bw_shape.specs.Rows.Rows.{flag, at};
ghost use Rattle.bw_lang.specs.Document.Forest.{none};
ghost use Rattle.bw_lang.specs.Document.View.{before};
ghost use Rattle.bw_shape.specs.Nodes.Nodes as nodes;
ghost use Rattle.bw_shape.specs.Rows.Changes.{Sets, Clears, Rises};
ghost use Rattle.bw_shape.specs.Tests as test;
ghost use Rattle.bw_lang.specs.Document.Documents.{one_if};

use crate::gaps::{gap_lacks, links_at};
use crate::{Node, Row, Rule, Table, Tally, TemplateItems};
use bw_lang::{Element, FieldNames, GapId, Item, Items, Memory, TemplateId};
use std::alloc::Global;

/// The number of the field that the element is a control of.
fn field_of(names: &FieldNames, element: &Element) -> Option<u32>
    ensures { MatchOption result ((f : ℕ) → test.is_field names.now f element.now.tag element.now.attrs ≡ false)
        (λ n. (f : ℕ) → test.is_field names.now f element.now.tag element.now.attrs ≡ (n == f)) }
{
    element.field_kind()?;
    let name = element.control_name()?;
    Some(names.number(name.as_str()).number())
}

/// Clears the fields that the items have in any case.
#[tactic(auto, using(crate::proofs::Walks::walk_steps))]
#[cycle(lack)]
fn items_lack(
    alloc: Global,
    names: &FieldNames,
    node: &Node,
    known: &Table,
    items: &Items,
    row: &mut Row,
) -> Result<(), Memory>
    ensures { OnOk result (Clears row.old row.new (λ f. test.lacks names.now node.now (λ m. at known.now m f) f items.now)) }
{
    for item in items.as_slice() {
        item_lacks(alloc, names, node, known, item, row)?;
    }
    Ok(())
}

#[tactic(auto, using(crate::proofs::Walks::walk_steps))]
#[cycle(lack)]
fn item_lacks(
    alloc: Global,
    names: &FieldNames,
    node: &Node,
    known: &Table,
    item: &Item,
    row: &mut Row,
) -> Result<(), Memory>
    ensures { OnOk result (Clears row.old row.new (λ f. test.lacks names.now node.now (λ m. at known.now m f) f (before item.now none))) }
{
    match item {
        Item::Text(_) => Ok(()),
        Item::Gap(gap) => gap_lacks(alloc, node, known, *gap, row),
        Item::Element(element) => {
            if let Some(field) = field_of(names, element) {
                row.put(field as usize, false);
            }
            items_lack(alloc, names, node, known, &element.items, row)
        }
    }
}

/// Sets the fields of the controls that stand in the items.
#[tactic(auto, using(crate::proofs::Walks::walk_steps))]
#[cycle(stand)]
fn items_stand(names: &FieldNames, items: &Items, row: &mut Row)
    ensures { Sets row.old row.new (λ f. test.stands names.now f items.now) }
{
    for item in items.as_slice() {
        item_stands(names, item, row);
    }
}

#[tactic(auto, using(crate::proofs::Walks::walk_steps))]
#[cycle(stand)]
fn item_stands(names: &FieldNames, item: &Item, row: &mut Row)
    ensures { Sets row.old row.new (λ f. test.stands names.now f (before item.now none)) }
{
    match item {
        Item::Text(_) | Item::Gap(_) => {}
        Item::Element(element) => {
            if let Some(field) = field_of(names, element) {
                row.put(field as usize, true);
            }
            items_stand(names, &element.items, row);
        }
    }
}

/// Counts the fields that the gap may be filled with.
fn gap_counts(
    alloc: Global,
    node: &Node,
    have: &Table,
    gap: GapId,
    tally: &mut Tally,
) -> Result<(), Memory>
    ensures { OnOk result (Rises tally.old tally.new (λ f. one_if (nodes.led node.now (λ m. at have.now m f) gap))) }
{
    let led = node.led(alloc, gap, have, tally.len())?;
    tally.add_row(&led);
    Ok(())
}

/// Counts the fields of the controls that stand in the items, and those that its gaps may be filled with.
#[tactic(auto, using(crate::proofs::Walks::walk_steps))]
#[cycle(count)]
fn items_count(
    alloc: Global,
    names: &FieldNames,
    node: &Node,
    have: &Table,
    items: &Items,
    tally: &mut Tally,
) -> Result<(), Memory>
    ensures { OnOk result (Rises tally.old tally.new (λ f. test.places names.now node.now (λ m. at have.now m f) f items.now)) }
{
    for item in items.as_slice() {
        item_counts(alloc, names, node, have, item, tally)?;
    }
    Ok(())
}

#[tactic(auto, using(crate::proofs::Walks::walk_steps))]
#[cycle(count)]
fn item_counts(
    alloc: Global,
    names: &FieldNames,
    node: &Node,
    have: &Table,
    item: &Item,
    tally: &mut Tally,
) -> Result<(), Memory>
    ensures { OnOk result (Rises tally.old tally.new (λ f. test.places names.now node.now (λ m. at have.now m f) f (before item.now none))) }
{
    match item {
        Item::Text(_) => Ok(()),
        Item::Gap(gap) => gap_counts(alloc, node, have, *gap, tally),
        Item::Element(element) => {
            if let Some(field) = field_of(names, element) {
                tally.add(field as usize);
            }
            items_count(alloc, names, node, have, &element.items, tally)
        }
    }
}

/// That a control of a field stands in a template.
#[derive(Clone, Copy)]
pub struct Stands<'a> {
    pub templates: &'a TemplateItems<'a>,
    pub names: &'a FieldNames,
}

impl<'a> Rule for Stands<'a> {
    ghost use Rattle.std.specs.Prelude.{length, [], refl};
    ghost use Rattle.bw_shape.specs.Follows.{stands_in};

    ghost width = { λ r. length r.names.now };

    ghost rows = { λ r. length r.templates.now };

    ghost links = { λ r n. [] };

    ghost follows = { λ r known. stands_in r.templates.now r.names.now };

    ghost reads = { λ r n c f g same. refl };

    fn links(&self, _: usize) -> &[(GapId, TemplateId)] {
        &[]
    }

    fn row(&self, alloc: Global, n: usize, _: &Table) -> Result<Row, Memory> {
        let mut row = Row::of(alloc, self.names.len(), false)?;
        items_stand(self.names, self.templates.at(n), &mut row);
        Ok(row)
    }
}

/// That a template may have no control of a field.
#[derive(Clone, Copy)]
pub struct MayLack<'a> {
    pub templates: &'a TemplateItems<'a>,
    pub nodes: &'a [Node],
    pub names: &'a FieldNames,
    ghost both: { length nodes.now ≡ length templates.now },
}

impl<'a> Rule for MayLack<'a> {
    ghost use Rattle.std.specs.Prelude.{length};
    ghost use Rattle.bw_shape.specs.Follows.{lack_follows};
    ghost use Rattle.bw_shape.specs.Reading.{links_of, lack_reads};

    ghost width = { λ r. length r.names.now };

    ghost rows = { λ r. length r.templates.now };

    ghost links = { λ r. links_of r.nodes.now };

    ghost follows = { λ r. lack_follows r.templates.now r.nodes.now r.names.now };

    ghost reads = { λ r. lack_reads r.templates.now r.nodes.now r.names.now };

    fn links(&self, n: usize) -> &[(GapId, TemplateId)] {
        links_at(self.nodes, n)
    }

    fn row(&self, alloc: Global, n: usize, known: &Table) -> Result<Row, Memory> {
        let mut row = Row::of(alloc, self.names.len(), true)?;
        items_lack(
            alloc,
            self.names,
            &self.nodes[n],
            known,
            self.templates.at(n),
            &mut row,
        )?;
        Ok(row)
    }
}

/// That two controls of a field may stand in a template, where it is known which templates may have one.
#[derive(Clone, Copy)]
pub struct Doubled<'a, 'b> {
    pub templates: &'a TemplateItems<'a>,
    pub nodes: &'a [Node],
    pub names: &'a FieldNames,
    pub have: &'b Table,
    ghost both: { length nodes.now ≡ length templates.now },
}

impl<'a, 'b> Rule for Doubled<'a, 'b> {
    ghost use Rattle.std.specs.Prelude.{length, [], refl};
    ghost use Rattle.bw_shape.specs.Follows.{doubled_in};

    ghost width = { λ r. length r.names.now };

    ghost rows = { λ r. length r.templates.now };

    ghost links = { λ r n. [] };

    ghost follows = { λ r known. doubled_in r.templates.now r.nodes.now r.names.now (at r.have.now) };

    ghost reads = { λ r n c f g same. refl };

    fn links(&self, _: usize) -> &[(GapId, TemplateId)] {
        &[]
    }

    fn row(&self, alloc: Global, n: usize, _: &Table) -> Result<Row, Memory> {
        let mut tally = Tally::of(alloc, self.names.len())?;
        items_count(
            alloc,
            self.names,
            &self.nodes[n],
            self.have,
            self.templates.at(n),
            &mut tally,
        )?;
        tally.twos(alloc)
    }
}

/// What a template has itself, or may have in a template that a link leads to.
#[derive(Clone, Copy)]
pub struct Spread<'a, 'b> {
    pub nodes: &'a [Node],
    pub own: &'b Table,
    pub width: usize,
}

impl<'a, 'b> Rule for Spread<'a, 'b> {
    ghost use Rattle.std.specs.Prelude.{length};
    ghost use Rattle.bw_shape.specs.Follows.{spread_follows};
    ghost use Rattle.bw_shape.specs.Reading.{links_of, spread_reads};

    ghost width = { λ r. r.width };

    ghost rows = { λ r. length r.nodes.now };

    ghost links = { λ r. links_of r.nodes.now };

    ghost follows = { λ r. spread_follows r.nodes.now (at r.own.now) };

    ghost reads = { λ r. spread_reads r.nodes.now (at r.own.now) };

    fn links(&self, n: usize) -> &[(GapId, TemplateId)] {
        links_at(self.nodes, n)
    }

    fn row(&self, alloc: Global, n: usize, known: &Table) -> Result<Row, Memory> {
        let mut row = Row::of(alloc, self.width, false)?;
        self.own.join_row(n, &mut row);
        self.nodes[n].join_linked(known, &mut row);
        Ok(row)
    }
}
