//! What explains a fault of a page graph, by a basis that is lent.
ghost use Rattle.std.specs.Prelude.{◌≡◌, ◌==◌, ℕ, ◌<◌, ◌^◌, true, false, IfOk, Some, length};
ghost use Rattle.bw_judge.specs.Faults.{IsFault};
ghost use Rattle.bw_lang.specs.Document.Documents.{elements};
ghost use Rattle.bw_shape.specs.Nodes.Templates.{template_at};
ghost use Rattle.bw_schema.specs.declared.rules.Rule.{Rule};
ghost use Rattle.bw_schema.specs.Rules.{rule_of};
ghost use Rattle.bw_shape.specs.Outlines.{IsPageGraph, root_of};
ghost use Rattle.bw_strings.specs.Literals.{literals_of};
ghost use Rattle.bw_sum.specs.Graph.{graph as summary_graph};
ghost use Rattle.bw_sum.specs.Templates.{template_items};
ghost use Rattle.bw_sum.specs.Unfolding.{Unfolds};
ghost use Rattle.bw_explain.specs.Atoms.{atoms_of};
ghost use Rattle.bw_explain.specs.Explained as spec;
ghost use Rattle.bw_explain.specs.Explained.{IsAnswer, IsExplained, IsPlaced, IsSplit, IsSpot, NotValid, IsAt, FindsOne, Place, Ties};
ghost use Rattle.bw_explain.specs.Shows.{Shows};
ghost use Rattle.bw_explain.specs.Ways.{graph};

use crate::building::ways_of;
use crate::explained::Explained;
use crate::explaining::{explain_element, explain_root};
use crate::finding::Spot;
use crate::page::Page;
use crate::places::{element_of, rule_at};
use crate::split::is_split;
use crate::way::Node;
use bw_faults::Fault;
use bw_lang::Memory;
use bw_schema::Schema;
use bw_shape::{Basis, TemplateItems, nodes_of};
use bw_strings::Literals;
use bw_sum::Summary;
use bw_types::Typed;
use std::alloc::Global;

/// What a fault of an element is explained by, where this is its element.
fn explain_spot(
    alloc: Global,
    page: &Page,
    schema: &Schema,
    fault: &Fault,
    spot: &Spot,
    root: usize,
) -> Result<Explained, Memory>
    requires few { (m : ℕ) → elements (template_at page.now.templates.now m) < 2 ^ 32 }
    requires spot { IsSpot page.now.templates.now fault.now spot.now }
    requires rule { (r : Rule) × (rule_of schema.now.elements spot.now.element.now.tag ≡ Some r) }
    ensures { IfOk result (λ e. (p : Place) (r : Rule) → IsAt (template_at page.now.templates.now) schema.now.elements fault.now p r
        → IsAnswer (FindsOne (template_at page.now.templates.now) (graph page.now.nodes.now) p r (atoms_of fault.now.number r) root) e) }
{
    let rule = rule_at(schema.elements(), spot);
    explain_element(alloc, page, rule, fault.number, spot, root)
}

/// What a fault of an element is explained by, by the ways of all templates.
fn explain_ways(
    alloc: Global,
    page: &Page,
    schema: &Schema,
    fault: &Fault,
    root: usize,
) -> Result<Explained, Memory>
    requires few { (m : ℕ) → elements (template_at page.now.templates.now m) < 2 ^ 32 }
    requires placed { IsPlaced page.now.templates.now schema.now.elements fault.now }
    ensures { IfOk result (λ e. (p : Place) (r : Rule) → IsAt (template_at page.now.templates.now) schema.now.elements fault.now p r
        → IsAnswer (FindsOne (template_at page.now.templates.now) (graph page.now.nodes.now) p r (atoms_of fault.now.number r) root) e) }
{
    let spot = element_of(page.templates, fault);
    explain_spot(alloc, page, schema, fault, &spot, root)
}

/// What a fault is explained by, by the ways of all templates.
fn explain_nodes<'x>(
    alloc: Global,
    templates: &'x TemplateItems<'x>,
    nodes: &'x [Node],
    schema: &Schema,
    fault: &Fault,
    root: usize,
) -> Result<Explained, Memory>
    requires both { length nodes.now ≡ length templates.now }
    requires few { (m : ℕ) → elements (template_at templates.now m) < 2 ^ 32 }
    requires placed { (fault.now.number == 6) ≡ false → IsPlaced templates.now schema.now.elements fault.now }
    ensures root { IfOk result (λ e. (fault.now.number == 6) ≡ true → IsAnswer (Unfolds (template_at templates.now) (graph nodes.now) root) e) }
    ensures element { IfOk result (λ e. (fault.now.number == 6) ≡ false → (p : Place) (r : Rule)
        → IsAt (template_at templates.now) schema.now.elements fault.now p r
        → IsAnswer (FindsOne (template_at templates.now) (graph nodes.now) p r (atoms_of fault.now.number r) root) e) }
{
    let page = Page { templates, nodes };
    if fault.number == 6 {
        explain_root(alloc, &page, root)
    } else {
        explain_ways(alloc, &page, schema, fault, root)
    }
}

/// The number of the template that the page begins as.
fn first_of(page: &Summary) -> u32
    requires { 0 < length page.now.roots }
    ensures { result ≡ root_of page.now }
{
    page.roots.as_slice()[0].number()
}

/// The ways of all templates of a page graph.
fn ways_by(alloc: Global, basis: &Basis<'_>, page: &Summary) -> Result<Vec<Node>, Memory>
    requires { IsPageGraph basis.now.typed.now.service page.now }
    ensures len { IfOk result (λ v. length v.items ≡ length basis.now.templates.now) }
    ensures ties { IfOk result (λ v. Ties (graph v.items) (summary_graph basis.now.literals.now page.now)) }
{
    let graphed = nodes_of(alloc, basis.templates.len(), basis.literals, page)?;
    let ways = ways_of(alloc, basis.literals, &graphed, page);
    drop(graphed);
    ways
}

/// What a fault is explained by, needs with an Or aside.
fn explain_within(
    alloc: Global,
    basis: &Basis<'_>,
    page: &Summary,
    fault: &Fault,
) -> Result<Explained, Memory>
    requires page { IsPageGraph basis.now.typed.now.service page.now }
    requires fault { IsFault (template_items basis.now.typed.now.service) (summary_graph (literals_of basis.now.typed.now.service) page.now) (root_of page.now)
        basis.now.schema.now fault.now.point fault.now }
    ensures { IfOk result (λ e. IsAnswer (Shows (template_items basis.now.typed.now.service)
        (summary_graph (literals_of basis.now.typed.now.service) page.now) basis.now.schema.now.elements fault.now (root_of page.now)) e) }
{
    let ways = ways_by(alloc, basis, page)?;
    let root = first_of(page) as usize;
    let explained = explain_nodes(
        alloc,
        basis.templates,
        ways.as_slice(),
        basis.schema,
        fault,
        root,
    );
    drop(ways);
    explained
}

/// Whether no page shows the fault.
fn is_none(explained: &Explained) -> bool
    ensures { result ≡ spec.is_none explained.now }
{
    match explained {
        Explained::NoUnfolding => true,
        Explained::Page(_) | Explained::TooBig | Explained::Disjunction => false,
    }
}

/// A page in which a fault 1 to 7 of a page graph shows, of the least size there is, or why there is none. The page graph and
/// the fault are as `explain` has them.
///
/// The page isn't valid by the schema.
pub fn explain_by(
    alloc: Global,
    basis: &Basis<'_>,
    page: &Summary,
    fault: &Fault,
) -> Result<Explained, Memory>
    requires page { IsPageGraph basis.now.typed.now.service page.now }
    requires fault { IsFault (template_items basis.now.typed.now.service) (summary_graph (literals_of basis.now.typed.now.service) page.now) (root_of page.now)
        basis.now.schema.now fault.now.point fault.now }
    ensures explained { IfOk result (λ e. IsExplained
        (Shows (template_items basis.now.typed.now.service) (summary_graph (literals_of basis.now.typed.now.service) page.now) basis.now.schema.now.elements
        fault.now (root_of page.now))
        (IsSplit (template_items basis.now.typed.now.service) (summary_graph (literals_of basis.now.typed.now.service) page.now) basis.now.schema.now.elements
        fault.now) e) }
    ensures refused { IfOk result (NotValid basis.now.schema.now) }
{
    let found = explain_within(alloc, basis, page, fault)?;
    if !is_none(&found) {
        return Ok(found);
    }
    drop(found);
    let is_split = is_split(alloc, basis, page, fault)?;
    if is_split {
        Ok(Explained::Disjunction)
    } else {
        Ok(Explained::NoUnfolding)
    }
}
