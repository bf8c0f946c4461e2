//! The faults 1 to 7 of a page graph.
ghost use Rattle.std.specs.Prelude.{◌≡◌, ℕ, ◌^◌, ◌<◌, [], IfOk, OnOk, length};
ghost use Rattle.std.specs.List.{All};
ghost use Rattle.bw_faults.specs.Lists.{Adds, Lists, OfSome};
ghost use Rattle.bw_lang.specs.Document.Documents.{elements, close};
ghost use Rattle.bw_lang.specs.Document.Forest.{Forest};
ghost use Rattle.bw_shape.specs.Nodes.Templates.{template_at};
ghost use Rattle.bw_shape.specs.Rows.Rows.{at};
ghost use Rattle.bw_schema.specs.Validity.{Valid};
ghost use Rattle.bw_shape.specs.Outlines.{IsPageGraph, IsShape, root_of};
ghost use Rattle.bw_shape.specs.Tests.{gives};
ghost use Rattle.bw_strings.specs.Literals.{literals_of};
ghost use Rattle.bw_sum.specs.Graph.{graph};
ghost use Rattle.bw_sum.specs.Templates.{template_items};
ghost use Rattle.bw_sum.specs.Unfolding.{Unfolds};
ghost use Rattle.bw_judge.specs.Faults.{IsFault};
ghost use Rattle.bw_judge.specs.Found as found;
ghost use Rattle.bw_judge.specs.Pages as page;

use crate::content::{Spot, add_if};
use crate::elements::judge_items;
use crate::scene::scene_of;
use bw_faults::Faults;
use bw_lang::{Element, Item, Items, Memory, Name};
use bw_schema::Schema;
use bw_shape::{Basis, Outline, Wrappers};
use bw_strings::Literals;
use bw_sum::Summary;
use bw_types::Typed;
use std::alloc::Global;

/// Adds the fault 6 of the root element, where its tag isn't the schema's.
fn judge_root(
    alloc: Global,
    wanted: &Name,
    root: u32,
    point: u32,
    items: &Items,
    faults: &mut Faults,
) -> Result<(), Memory>
    ensures { OnOk result (Adds (found.OfRoot point wanted.now root items.now) faults.old faults.new) }
{
    match items.as_slice().first() {
        Some(Item::Element(element)) => {
            let spot = Spot {
                point,
                template: root,
                place: 1,
            };
            let is_wrong = element.tag.as_str() != wanted.as_str();
            add_if(alloc, is_wrong, 6, spot, element.tag.as_str(), faults)
        }
        _ => Ok(()),
    }
}

/// Adds the faults of the elements of a template.
fn judge_template(
    alloc: Global,
    basis: &Basis<'_>,
    outline: &Outline,
    point: u32,
    n: u32,
    faults: &mut Faults,
) -> Result<(), Memory>
    requires n { n < length basis.now.templates.now }
    requires nodes { length outline.now.graphed.nodes.items ≡ length basis.now.templates.now }
    requires said { length outline.now.graphed.said.items ≡ length basis.now.templates.now }
    requires small { elements (template_at basis.now.templates.now n) < 2 ^ 32 }
    ensures { OnOk result (Adds
        (page.OfOutline basis.now.templates.now basis.now.literals.now outline.now basis.now.schema.now point n) faults.old faults.new) }
{
    let scene = scene_of(outline, basis.literals, n as usize);
    let spot = Spot {
        point,
        template: n,
        place: 0,
    };
    judge_items(
        alloc,
        &scene,
        basis.schema.elements(),
        spot,
        basis.templates.at(n as usize),
        faults,
    )?;
    Ok(())
}

/// Adds the faults of the elements of some templates.
fn judge_templates(
    alloc: Global,
    basis: &Basis<'_>,
    outline: &Outline,
    point: u32,
    order: &[u32],
    faults: &mut Faults,
) -> Result<(), Memory>
    requires order { All (λ n. n < length basis.now.templates.now) order.now }
    requires nodes { length outline.now.graphed.nodes.items ≡ length basis.now.templates.now }
    requires said { length outline.now.graphed.said.items ≡ length basis.now.templates.now }
    requires small { (n : ℕ) → elements (template_at basis.now.templates.now n) < 2 ^ 32 }
    ensures { OnOk result (Adds
        (OfSome (page.OfOutline basis.now.templates.now basis.now.literals.now outline.now basis.now.schema.now point) order.now) faults.old faults.new) }
{
    for n in order {
        judge_template(alloc, basis, outline, point, *n, faults)?;
    }
    Ok(())
}

/// The faults of the root and of the elements of all templates of the outline, in their order.
fn judge_all(
    alloc: Global,
    basis: &Basis<'_>,
    outline: &Outline,
    root: u32,
    point: u32,
) -> Result<Faults, Memory>
    requires root { root < length basis.now.templates.now }
    requires order { All (λ n. n < length basis.now.templates.now) outline.now.tables.order.items }
    requires nodes { length outline.now.graphed.nodes.items ≡ length basis.now.templates.now }
    requires said { length outline.now.graphed.said.items ≡ length basis.now.templates.now }
    requires small { (n : ℕ) → elements (template_at basis.now.templates.now n) < 2 ^ 32 }
    ensures { IfOk result (λ l. Lists (page.OfAll basis.now.templates.now basis.now.literals.now outline.now basis.now.schema.now root point) l) }
{
    let mut faults = Faults::new(alloc);
    let order = outline.tables.order.as_slice();
    let items = basis.templates.at(root as usize);
    let wanted = basis.schema.root();
    judge_root(alloc, wanted, root, point, items, &mut faults)?;
    judge_templates(alloc, basis, outline, point, order, &mut faults)?;
    // This call tells that the list is in order.
    let _sorted = faults.as_slice();
    Ok(faults)
}

/// The number of the template that the page begins as.
fn root_of(page: &Summary) -> u32
    requires { 0 < length page.now.roots }
    ensures { result ≡ root_of page.now }
{
    page.roots.as_slice()[0].number()
}

/// The faults 1 to 7 of a page graph by the schema, in their order, at the show or exit of this number. The outline is what
/// `shape` gives for the same page graph, service and schema.
///
/// Where there is no fault, every document that the page graph unfolds to is valid by the schema when its gaps are closed.
pub fn judge_by(
    alloc: Global,
    basis: &Basis<'_>,
    outline: &Outline,
    page: &Summary,
    point: u32,
) -> Result<Faults, Memory>
    requires page { IsPageGraph basis.now.typed.now.service page.now }
    requires shape { IsShape basis.now.typed.now.service page.now basis.now.schema.now outline.now }
    ensures exact { IfOk result (λ l. Lists (IsFault (template_items basis.now.typed.now.service)
        (graph (literals_of basis.now.typed.now.service) page.now) (root_of page.now) basis.now.schema.now point) l) }
    ensures sound { IfOk result (λ l. l ≡ [] → (d : Forest) → Unfolds (template_items basis.now.typed.now.service)
        (graph (literals_of basis.now.typed.now.service) page.now) (root_of page.now) d → Valid basis.now.schema.now (close d)) }
{
    judge_all(alloc, basis, outline, root_of(page), point)
}

/// The faults 1 to 7 of a page graph by a schema, as `judge_by` answers them, where the wrappers are made for this page
/// alone. `literals` are those of the service, and the outline is what `shape` gives for the same page graph, service and
/// schema.
pub fn judge(
    outline: &Outline,
    page: &Summary,
    typed: &Typed,
    literals: &Literals,
    schema: &Schema,
    point: u32,
) -> Result<Faults, Memory>
    requires page { IsPageGraph typed.now.service page.now }
    requires literals { literals.now ≡ literals_of typed.now.service }
    requires shape { IsShape typed.now.service page.now schema.now outline.now }
    ensures exact { IfOk result
        (λ l. Lists (IsFault (template_items typed.now.service) (graph (literals_of typed.now.service) page.now) (root_of page.now) schema.now point) l) }
    ensures sound { IfOk result (λ l. l ≡ [] → (d : Forest)
        → Unfolds (template_items typed.now.service) (graph (literals_of typed.now.service) page.now) (root_of page.now) d → Valid schema.now (close d)) }
{
    let alloc = *outline.pairs.allocator();
    let wrappers = Wrappers::of(alloc, typed)?;
    let templates = wrappers.behind(typed);
    let basis = Basis {
        typed,
        literals,
        templates: &templates,
        schema,
    };
    judge_by(alloc, &basis, outline, page, point)
}
