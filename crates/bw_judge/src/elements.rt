//! The faults 1 to 5 and 7, of the elements of a template.
ghost use Rattle.std.specs.Prelude.{◌≡◌, ◌+◌, ◌^◌, ◌<◌, IfOk, OnOk, length};
ghost use Rattle.bw_faults.specs.Lists.{Adds};
ghost use Rattle.bw_lang.specs.Document.Documents.{elements};
ghost use Rattle.bw_lang.specs.Document.Forest.{none};
ghost use Rattle.bw_lang.specs.Document.View.{before};
ghost use Rattle.bw_shape.specs.Rows.Rows.{at};
ghost use Rattle.bw_shape.specs.Tests.{gives};
ghost use Rattle.bw_judge.specs.Content as content;
ghost use Rattle.bw_judge.specs.Found as found;

use crate::attributes::{judge_attrs, judge_must};
use crate::content::{Allowed, Spot, add_if, judge_content};
use crate::scene::Scene;
use bw_faults::Faults;
use bw_lang::{Element, Item, Items, Memory};
use bw_schema::{Rule, Rules};
use std::alloc::Global;

impl<'a> Scene<'a> {
    /// Adds the faults 4 and 5 of what may stand in an element.
    fn judge_content(
        &self,
        alloc: Global,
        rule: &Rule,
        spot: Spot,
        items: &Items,
        faults: &mut Faults,
    ) -> Result<(), Memory>
        ensures { OnOk result
            (Adds (content.OfContent spot rule.now.has rule.now.text self.now.tags
            (λ c. gives self.now.tags self.now.node (λ m. at self.now.tops m c) c items.now) (length self.now.tags)) faults.old faults.new) }
    {
        let allowed = Allowed {
            tags: self.tags,
            has: &rule.has,
            text: rule.text,
            spot,
        };
        judge_content(alloc, &allowed, self.node, self.tops, items, faults)
    }
}

/// Adds the faults of an element with this rule.
fn judge_rule(
    alloc: Global,
    scene: &Scene,
    rule: &Rule,
    spot: Spot,
    element: &Element,
    faults: &mut Faults,
) -> Result<(), Memory>
    ensures { OnOk result (Adds (found.OfParts scene.now rule.now spot element.now.tag element.now.attrs element.now.items) faults.old faults.new) }
{
    let is_sure = scene.are_sure(true, &rule.needs, &element.attrs, &element.items);
    judge_attrs(alloc, scene, rule, spot, &element.attrs, faults)?;
    judge_must(alloc, scene, &rule.must, spot, &element.attrs, faults)?;
    scene.judge_content(alloc, rule, spot, &element.items, faults)?;
    add_if(alloc, !is_sure, 7, spot, element.tag.as_str(), faults)
}

fn judge_element(
    alloc: Global,
    scene: &Scene,
    rules: &Rules,
    spot: Spot,
    element: &Element,
    faults: &mut Faults,
) -> Result<(), Memory>
    ensures { OnOk result (Adds (found.OfElement scene.now rules.now spot element.now.tag element.now.attrs element.now.items) faults.old faults.new) }
{
    match rules.of(element.tag.as_str()) {
        Some(rule) => judge_rule(alloc, scene, rule, spot, element, faults),
        None => Ok(()),
    }
}

/// Adds the faults of the elements among the items and in them, and answers how many elements stand up to there.
#[tactic(auto, using(crate::proofs::Walks::walk_steps))]
#[cycle(walk)]
pub(crate) fn judge_items(
    alloc: Global,
    scene: &Scene,
    rules: &Rules,
    spot: Spot,
    items: &Items,
    faults: &mut Faults,
) -> Result<u32, Memory>
    requires { spot.place + elements items.now < 2 ^ 32 }
    ensures place { IfOk result (λ n. n ≡ spot.place + elements items.now) }
    ensures faults { OnOk result (Adds (found.OfForest (found.OfElement scene.now rules.now) spot items.now) faults.old faults.new) }
{
    let mut place = spot.place;
    for item in items.as_slice() {
        let at = Spot { place, ..spot };
        place = judge_item(alloc, scene, rules, at, item, faults)?;
    }
    Ok(place)
}

#[tactic(auto, using(crate::proofs::Walks::walk_steps))]
#[cycle(walk)]
fn judge_item(
    alloc: Global,
    scene: &Scene,
    rules: &Rules,
    spot: Spot,
    item: &Item,
    faults: &mut Faults,
) -> Result<u32, Memory>
    requires { spot.place + elements (before item.now none) < 2 ^ 32 }
    ensures place { IfOk result (λ n. n ≡ spot.place + elements (before item.now none)) }
    ensures faults { OnOk result (Adds (found.OfForest (found.OfElement scene.now rules.now) spot (before item.now none)) faults.old faults.new) }
{
    match item {
        Item::Element(element) => {
            let place = spot.place + 1;
            let at = Spot { place, ..spot };
            judge_element(alloc, scene, rules, at, element, faults)?;
            judge_items(alloc, scene, rules, at, &element.items, faults)
        }
        _ => Ok(spot.place),
    }
}
