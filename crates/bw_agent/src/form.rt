//! The form of a page is found.
ghost use Rattle.std.specs.Prelude.{◌≡◌, None, Some, MatchOption};
ghost use Rattle.bw_lang.specs.Document.Forest.{none};
ghost use Rattle.bw_lang.specs.Document.View.{before};
ghost use Rattle.bw_agent.specs.Forms as spec;

use crate::controls::has;
use bw_lang::{Element, Item, Items};

/// The first element `form` with an action among the items, at all levels, in pre-order.
#[tactic(auto, using(crate::proofs::Listed::list_steps))]
#[cycle(form)]
pub fn form_in(items: &Items) -> Option<&Element>
    ensures { MatchOption result (spec.form_in items.now ≡ None) (λ e. spec.form_in items.now ≡ Some e.now) }
{
    for item in items.as_slice() {
        if let Some(form) = form_of(item) {
            return Some(form);
        }
    }
    None
}

/// The first of them in the item.
#[tactic(auto, using(crate::proofs::Listed::list_steps))]
#[cycle(form)]
fn form_of(item: &Item) -> Option<&Element>
    ensures { MatchOption result (spec.form_in (before item.now none) ≡ None) (λ e. spec.form_in (before item.now none) ≡ Some e.now) }
{
    match item {
        Item::Element(element) => {
            if is_form(element) {
                return Some(element);
            }
            form_in(&element.items)
        }
        Item::Text(_) | Item::Gap(_) => None,
    }
}

/// Whether the element is a form with an action.
fn is_form(element: &Element) -> bool
    ensures { result ≡ spec.is_form element.now.tag element.now.attrs }
{
    element.tag.as_str() == "form" && has(&element.attrs, "action")
}
