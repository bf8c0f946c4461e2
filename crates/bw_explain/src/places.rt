//! The element at a place of a template.
ghost use Rattle.std.specs.Prelude.{◌≡◌, ◌+◌, ◌≤◌, MatchResult, Some};
ghost use Rattle.bw_lang.specs.Document.Documents.{elements};
ghost use Rattle.bw_lang.specs.Document.Forest.{none};
ghost use Rattle.bw_lang.specs.Document.View.{before};
ghost use Rattle.bw_schema.specs.declared.rules.Rule.{Rule};
ghost use Rattle.bw_schema.specs.Rules.{rule_of};
ghost use Rattle.bw_explain.specs.Explained.{HasElement, IsSpot};
ghost use Rattle.bw_explain.specs.Places.{IsThere};

use crate::finding::Spot;
use bw_faults::Fault;
use bw_lang::{Element, Item, Items};
use bw_schema::{Rule, Rules};
use bw_shape::TemplateItems;

/// The element at a place, or how far the place is behind these items.
#[tactic(auto, using(crate::proofs::Walking::walk_steps))]
#[cycle(at)]
fn element_at(items: &Items, place: u32) -> Result<&Element, u32>
    requires { 1 ≤ place }
    ensures { MatchResult result (λ e. IsThere items.now place e.now) (λ r. (r + elements items.now ≡ place) × (1 ≤ r)) }
{
    let mut left = place;
    for item in items.as_slice() {
        match item_element(item, left) {
            Ok(found) => return Ok(found),
            Err(rest) => left = rest,
        }
    }
    Err(left)
}

/// The same of one item.
#[tactic(auto, using(crate::proofs::Walking::walk_steps))]
#[cycle(at)]
fn item_element(item: &Item, place: u32) -> Result<&Element, u32>
    requires { 1 ≤ place }
    ensures { MatchResult result (λ e. IsThere (before item.now none) place e.now) (λ r. (r + elements (before item.now none) ≡ place) × (1 ≤ r)) }
{
    match item {
        Item::Text(_) => Err(place),
        Item::Gap(_) => Err(place),
        Item::Element(element) => {
            if place == 1 {
                return Ok(element);
            }
            element_at(&element.items, place - 1)
        }
    }
}

/// The element of a fault.
pub fn element_of<'x>(templates: &'x TemplateItems<'x>, fault: &Fault) -> Spot<'x>
    requires { HasElement templates.now fault.now }
    ensures { IsSpot templates.now fault.now result }
{
    let Some(template) = fault.template else {
        unreachable!()
    };
    let template = template.number() as usize;
    let Ok(element) = element_at(templates.at(template), fault.place) else {
        unreachable!()
    };
    Spot {
        template,
        place: fault.place,
        element,
    }
}

/// The rule of the element of a fault.
pub fn rule_at<'x>(rules: &'x Rules, spot: &Spot<'x>) -> &'x Rule
    requires { (r : Rule) × (rule_of rules.now spot.now.element.now.tag ≡ Some r) }
    ensures { rule_of rules.now spot.now.element.now.tag ≡ Some result.now }
{
    let Some(rule) = rules.of(spot.element.tag.as_str()) else {
        unreachable!()
    };
    rule
}
