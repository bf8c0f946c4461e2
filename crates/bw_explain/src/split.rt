//! Whether a need with an Or isn't sure at the element of a fault.
ghost use Rattle.std.specs.Prelude.{◌≡◌, ◌<◌, ◌&&◌, not, IfOk, Some, length};
ghost use Rattle.bw_judge.specs.Faults.{IsFault};
ghost use Rattle.bw_judge.specs.Pages.{scene_at};
ghost use Rattle.bw_judge.specs.Sure.{sure_one};
ghost use Rattle.bw_schema.specs.Rules.{rule_of};
ghost use Rattle.bw_shape.specs.Outlines.{IsPageGraph, root_of};
ghost use Rattle.bw_strings.specs.Literals.{literals_of};
ghost use Rattle.bw_sum.specs.Graph.{graph as summary_graph};
ghost use Rattle.bw_sum.specs.Templates.{template_items};
ghost use Rattle.bw_explain.specs.Atoms.{is_plain_one};
ghost use Rattle.bw_explain.specs.Explained.{IsSplit, IsSpot, Tells};
ghost use Rattle.bw_explain.specs.Splits.{some_split};

use crate::finding::Spot;
use crate::needs::is_plain;
use crate::places::{element_of, rule_at};
use bw_faults::Fault;
use bw_judge::scene::{Scene, scene_of};
use bw_lang::{Attrs, Items, Memory};
use bw_schema::{Formula, Formulas, Rule};
use bw_shape::{Basis, Outline, shape_by};
use bw_strings::Literals;
use bw_sum::Summary;
use std::alloc::Global;

fn is_unsure(scene: &Scene, need: &Formula, attrs: &Attrs, items: &Items) -> bool
    ensures { result ≡ (not (is_plain_one need.now) && not (sure_one scene.now need.now attrs.now items.now)) }
{
    !is_plain(need) && !scene.is_sure(need, attrs, items)
}

/// Whether some need with an Or isn't sure at an element.
#[tactic(auto, using(crate::proofs::Splitting::split_before))]
fn some_split(scene: &Scene, needs: &Formulas, attrs: &Attrs, items: &Items) -> bool
    ensures { result ≡ some_split scene.now needs.now attrs.now items.now }
{
    for need in needs.as_slice() {
        if is_unsure(scene, need, attrs, items) {
            return true;
        }
    }
    false
}

/// Whether a need of the element that has an Or isn't sure, by the outline of the page graph.
fn is_split_by(outline: &Outline, literals: &Literals, spot: &Spot, rule: &Rule) -> bool
    requires node { spot.now.template < length outline.now.graphed.nodes.items }
    requires said { spot.now.template < length outline.now.graphed.said.items }
    ensures { result ≡ some_split (scene_at outline.now.graphed.nodes.items outline.now.graphed.said.items literals.now outline.now.tables
        outline.now.pairs.items spot.now.template) rule.now.needs spot.now.element.now.attrs spot.now.element.now.items }
{
    let scene = scene_of(outline, literals, spot.template);
    some_split(
        &scene,
        &rule.needs,
        &spot.element.attrs,
        &spot.element.items,
    )
}

/// The same of a fault 7, where this is its element and its rule.
fn is_split_at(
    alloc: Global,
    basis: &Basis<'_>,
    page: &Summary,
    fault: &Fault,
    spot: &Spot,
    rule: &Rule,
) -> Result<bool, Memory>
    requires page { IsPageGraph basis.now.typed.now.service page.now }
    requires fault { IsFault (template_items basis.now.typed.now.service) (summary_graph (literals_of basis.now.typed.now.service) page.now) (root_of page.now)
        basis.now.schema.now fault.now.point fault.now }
    requires seven { fault.now.number ≡ 7 }
    requires spot { IsSpot basis.now.templates.now fault.now spot.now }
    requires rule { rule_of basis.now.schema.now.elements spot.now.element.now.tag ≡ Some rule.now }
    ensures { IfOk result (λ b. Tells b (IsSplit (template_items basis.now.typed.now.service)
        (summary_graph (literals_of basis.now.typed.now.service) page.now) basis.now.schema.now.elements fault.now)) }
{
    let outline = shape_by(alloc, page, basis)?;
    let is_split = is_split_by(&outline, basis.literals, spot, rule);
    drop(outline);
    Ok(is_split)
}

/// Whether the fault is 7 and a need of its element that has an Or isn't sure.
pub fn is_split(
    alloc: Global,
    basis: &Basis<'_>,
    page: &Summary,
    fault: &Fault,
) -> Result<bool, Memory>
    requires page { IsPageGraph basis.now.typed.now.service page.now }
    requires fault { IsFault (template_items basis.now.typed.now.service) (summary_graph (literals_of basis.now.typed.now.service) page.now) (root_of page.now)
        basis.now.schema.now fault.now.point fault.now }
    ensures { IfOk result (λ b. Tells b (IsSplit (template_items basis.now.typed.now.service)
        (summary_graph (literals_of basis.now.typed.now.service) page.now) basis.now.schema.now.elements fault.now)) }
{
    if fault.number != 7 {
        return Ok(false);
    }
    let spot = element_of(basis.templates, fault);
    let rule = rule_at(basis.schema.elements(), &spot);
    is_split_at(alloc, basis, page, fault, &spot, rule)
}
