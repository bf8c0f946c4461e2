//! The first element of a page that breaks its rule.
ghost use Rattle.std.specs.Prelude.{◌≡◌, ◌+◌, ◌^◌, ◌<◌, ◌||◌, false, Some, None, MatchOption, IfOk, IfErr, OnOk};
ghost use Rattle.bw_lang.specs.Document.Documents.{elements};
ghost use Rattle.bw_lang.specs.Document.Forest.{Forest, none};
ghost use Rattle.bw_lang.specs.Document.View.{before};
ghost use Rattle.bw_schema.specs.Rules.{rule_of};
ghost use Rattle.bw_schema.specs.Validity as validity;
ghost use Rattle.bw_valid.specs.Breaches as spec;

use crate::attributes::{are_allowed, are_permitted, has_required};
use crate::children::{are_among, are_silent};
use crate::formulas::holds;
use bw_lang::{Attrs, Element, Item, Items, Tree};
use bw_schema::{Rule, Rules, Schema};

/// An element that breaks a rule, and the rule that it breaks.
#[derive(Clone, Copy, PartialEq, Eq)]
pub struct Breach {
    /// The number of the element in pre-order, from 1.
    pub place: u32,
    /// 1: an attribute isn't allowed. 2: a required attribute isn't there. 3: an attribute has none of its values. 4: a
    /// child element isn't allowed. 5: a child text isn't blank, and text isn't allowed. 6: the page isn't one element of
    /// the schema's root tag. 7: a formula doesn't hold.
    pub rule: u8,
}

/// The number of the first rule that an element breaks.
fn broken(rule: &Rule, attrs: &Attrs, items: &Items) -> Option<u8>
    ensures { result ≡ spec.broken rule.now attrs.now items.now }
{
    if !are_allowed(rule, attrs) {
        Some(1)
    } else if !has_required(rule, attrs) {
        Some(2)
    } else if !are_permitted(rule, attrs) {
        Some(3)
    } else if !are_among(&rule.has, items) {
        Some(4)
    } else if !(rule.text || are_silent(items)) {
        Some(5)
    } else if !holds(true, &rule.needs, attrs, items) {
        Some(7)
    } else {
        None
    }
}

/// The same of an element whose tag may have no rule.
fn broken_at(rules: &Rules, element: &Element) -> Option<u8>
    ensures { result ≡ spec.broken_at (rule_of rules.now element.now.tag) element.now.attrs element.now.items }
{
    match rules.of(element.tag.as_str()) {
        Some(rule) => broken(rule, &element.attrs, &element.items),
        None => None,
    }
}

/// The number of elements up to the end of these items, where `start` of them stand in front, if none in them breaks its
/// rule.
#[tactic(auto, using(crate::proofs::Walks::walk_steps))]
#[cycle(walk)]
fn first_broken(rules: &Rules, start: u32, items: &Items) -> Result<u32, Breach>
    requires { start + elements items.now < 2 ^ 32 }
    ensures ok { IfOk result (λ n. (spec.first_broken rules.now start items.now ≡ None) × (n ≡ start + elements items.now)) }
    ensures err { IfErr result (λ b. spec.first_broken rules.now start items.now ≡ Some b) }
{
    let mut place = start;
    for item in items.as_slice() {
        match item_broken(rules, place, item) {
            Ok(next) => place = next,
            Err(breach) => return Err(breach),
        }
    }
    Ok(place)
}

/// The same of one item.
#[tactic(auto, using(crate::proofs::Walks::walk_steps))]
#[cycle(walk)]
fn item_broken(rules: &Rules, start: u32, item: &Item) -> Result<u32, Breach>
    requires { start + elements (before item.now none) < 2 ^ 32 }
    ensures ok { IfOk result (λ n. (spec.first_broken rules.now start (before item.now none) ≡ None) × (n ≡ start + elements (before item.now none))) }
    ensures err { IfErr result (λ b. spec.first_broken rules.now start (before item.now none) ≡ Some b) }
{
    match item {
        Item::Element(element) => {
            let place = start + 1;
            match broken_at(rules, element) {
                Some(rule) => Err(Breach { place, rule }),
                None => first_broken(rules, place, &element.items),
            }
        }
        _ => Ok(start),
    }
}

/// Whether the root has been met behind an item, if the items may still be one element of that tag.
fn rooted_behind(found: bool, root: &str, item: &Item) -> Option<bool>
    ensures { MatchOption result ((f : Forest) → spec.is_rooted_from found root.now (before item.now f) ≡ false)
        (λ next. (f : Forest) → spec.is_rooted_from found root.now (before item.now f) ≡ spec.is_rooted_from next root.now f) }
{
    match item {
        Item::Text(_) => None,
        Item::Gap(_) => Some(found),
        Item::Element(element) => {
            if found {
                None
            } else if element.tag.as_str() == root {
                Some(true)
            } else {
                None
            }
        }
    }
}

/// Whether the items are one element of the tag.
fn is_rooted(root: &str, items: &Items) -> bool
    ensures { result ≡ validity.is_rooted root.now items.now }
{
    let mut found = false;
    for item in items.as_slice() {
        match rooted_behind(found, root, item) {
            Some(next) => found = next,
            None => return false,
        }
    }
    found
}

/// Whether a page is valid by a schema: it is one element of the schema's root tag, and each element in it obeys its
/// rule. Open gaps, and attributes whose value is one, count as absent. An element that the schema doesn't declare has no
/// rule; it breaks rule 4 of its parent.
///
/// The error comes exactly where the page isn't valid. It is rule 6 at place 1 where the page isn't one element of the
/// root tag, and else the first element in pre-order that breaks its rule, with the first of the rules 1 to 5 and 7 that
/// it breaks. It takes no memory, and time that grows with the page, and for each element with the rule that it has.
pub fn valid(schema: &Schema, tree: &Tree) -> Result<(), Breach>
    requires { elements tree.now.items < 2 ^ 32 }
    ensures ok { OnOk result (validity.Valid schema.now tree.now.items) }
    ensures err { IfErr result (λ b. spec.breach schema.now tree.now.items ≡ Some b) }
{
    if !is_rooted(schema.root().as_str(), &tree.items) {
        return Err(Breach { place: 1, rule: 6 });
    }
    match first_broken(schema.elements(), 0, &tree.items) {
        Ok(_) => Ok(()),
        Err(breach) => Err(breach),
    }
}
