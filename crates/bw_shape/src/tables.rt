//! The tables of the facts of a page graph.
ghost use Rattle.std.specs.Prelude.{◌≡◌, ℕ, ◌+◌, ◌<◌, length, IfOk, OnOk};
ghost use Rattle.std.specs.List.{All};
ghost use Rattle.bw_lang.specs.Document.Forest.{none};
ghost use Rattle.bw_lang.specs.Table.Names.{Extends};
ghost use Rattle.bw_lang.specs.Document.View.{before};
ghost use Rattle.bw_shape.specs.Nodes.Fits.{Fits};
ghost use Rattle.bw_shape.specs.Nodes.Nodes.{node_at};
ghost use Rattle.bw_shape.specs.Nodes.Templates.{template_at};
ghost use Rattle.bw_sum.specs.Graph.{Graph};
ghost use Rattle.bw_shape.specs.Columns.{AreKnown};
ghost use Rattle.bw_shape.specs.Exact.{HoldFacts, AreTables};
ghost use Rattle.bw_shape.specs.Reach.{Reaches};

use crate::arranging::arranged;
use crate::field_tables::{FieldTables, fields_of};
use crate::reach::reached;
use crate::tag_tables::{TagTables, tags_of};
use crate::tags::Tags;
use crate::{Node, Table, TemplateItems};
use bw_lang::{FieldNames, Item, Items, Memory};
use std::alloc::Global;

/// The facts of a page graph, as rows of flags by the numbers of templates. Templates that aren't reached have empty rows.
pub struct Tables {
    /// The templates that are reached, the root first.
    pub order: Vec<u32>,
    /// The tags that formulas name, and behind them all tags of the templates that are reached.
    pub tags: Tags,
    /// What a template may have at its top: column 0 is a text that isn't blank, and behind it are the tags.
    pub tops: Table,
    /// The fields that a template may have.
    pub have: Table,
    /// The fields that it may lack.
    pub lack: Table,
    /// The fields that it may have twice.
    pub twice: Table,
    /// The tags of which it may have none at its top, of those that formulas name.
    pub miss: Table,
    /// The pairs of tags of which it may have the first before the second at its top, of those that formulas order.
    pub cross: Table,
}

impl Drop for Tables {
    fn drop(self) {
        let Tables {
            order: _,
            tags: _,
            tops: _,
            have: _,
            lack: _,
            twice: _,
            miss: _,
            cross: _,
        } = self;
    }
}

/// Takes the tags in of an element and of those in it.
#[tactic(auto, using(crate::proofs::Walks::walk_steps))]
#[cycle(tags)]
fn take_tag(item: &Item, tags: &mut Tags) -> Result<(), Memory>
    ensures front { OnOk result (Extends tags.old tags.new) }
    ensures known { OnOk result (AreKnown tags.new (before item.now none)) }
{
    if let Item::Element(element) = item {
        tags.add(&element.tag)?;
        take_tags(&element.items, tags)?;
    }
    Ok(())
}

/// Takes the tags in of the elements among the items and in them.
#[tactic(auto, using(crate::proofs::Walks::walk_steps))]
#[cycle(tags)]
fn take_tags(items: &Items, tags: &mut Tags) -> Result<(), Memory>
    ensures front { OnOk result (Extends tags.old tags.new) }
    ensures known { OnOk result (AreKnown tags.new items.now) }
{
    for item in items.as_slice() {
        take_tag(item, tags)?;
    }
    Ok(())
}

/// Takes the tags in of the elements of some templates.
fn take_tops(templates: &TemplateItems, order: &[u32], tags: &mut Tags) -> Result<(), Memory>
    requires { All (λ n. n < length templates.now) order.now }
    ensures front { OnOk result (Extends tags.old tags.new) }
    ensures known { OnOk result (All (λ n. AreKnown tags.new (template_at templates.now n)) order.now) }
{
    for n in order {
        take_tags(templates.at(*n as usize), tags)?;
    }
    Ok(())
}

/// The templates that are reached from the root. Their tags are taken in.
fn order_of<'a>(
    alloc: Global,
    templates: &'a TemplateItems<'a>,
    nodes: &'a [Node],
    root: u32,
    tags: &mut Tags,
) -> Result<Vec<u32>, Memory>
    requires both { length nodes.now ≡ length templates.now }
    requires root { root < length nodes.now }
    requires links { (n : ℕ) → All (λ l. l.1 < length nodes.now) (node_at nodes.now n).links }
    ensures reached { IfOk result (λ v. Reaches nodes.now root v.items) }
    ensures front { OnOk result (Extends tags.old tags.new) }
    ensures known { IfOk result (λ v. All (λ n. AreKnown tags.new (template_at templates.now n)) v.items) }
{
    let order = reached(alloc, nodes, root)?;
    take_tops(templates, order.as_slice(), tags)?;
    Ok(order)
}

/// The tables of the facts of a page graph, which is given by the nodes of its templates. `tags` has the tags of formulas,
/// and `pairs` the columns of those that some formula orders.
pub(crate) fn tables_of<'a>(
    alloc: Global,
    templates: &'a TemplateItems<'a>,
    nodes: &'a [Node],
    names: &'a FieldNames,
    root: u32,
    tags: Tags,
    pairs: &'a [(usize, usize)],
) -> Result<Tables, Memory>
    requires both { length nodes.now ≡ length templates.now }
    requires root { root < length nodes.now }
    requires links { (n : ℕ) → All (λ l. l.1 < length nodes.now) (node_at nodes.now n).links }
    requires pairs { All (λ p. (p.0 < length tags + 1) × (p.1 < length tags + 1)) pairs.now }
    ensures shape { IfOk result (λ o. (G : Graph) → Fits nodes.now G → HoldFacts templates.now G root names.now (length tags) pairs.now o) }
    ensures tables { IfOk result (λ o. (G : Graph) → Fits nodes.now G
        → AreTables templates.now nodes.now G root (length tags) pairs.now o.tags o.tops o.miss o.cross) }
    ensures front { IfOk result (λ o. Extends tags o.tags) }
    ensures small { IfOk result (λ o. All (λ n. n < length templates.now) o.order.items) }
{
    let first = tags.len();
    let mut tags = tags;
    let Ok(order) = order_of(alloc, templates, nodes, root, &mut tags) else {
        drop(tags);
        return Err(Memory);
    };
    let Ok(sorted) = arranged(alloc, nodes, order.as_slice(), root) else {
        drop(tags);
        return Err(Memory);
    };
    let back = sorted.as_slice();
    let Ok(fields) = fields_of(alloc, templates, nodes, names, back) else {
        drop(tags);
        return Err(Memory);
    };
    let Ok(at_top) = tags_of(alloc, templates, nodes, &tags, first, pairs, back) else {
        drop(fields);
        drop(tags);
        return Err(Memory);
    };
    let FieldTables { have, lack, twice } = fields;
    let TagTables { tops, miss, cross } = at_top;
    Ok(Tables {
        order,
        tags,
        tops,
        have,
        lack,
        twice,
        miss,
        cross,
    })
}
