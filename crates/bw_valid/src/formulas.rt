//! Whether formulas hold of an element.
ghost use Rattle.std.specs.Prelude.{◌≡◌};
ghost use Rattle.bw_schema.specs.Validity as validity;
ghost use Rattle.bw_valid.specs.Breaches.{holds_alone};

use crate::attributes::{has_fixed, has_value};
use crate::children::{is_ordered, lacks_child};
use bw_lang::{Attrs, Items};
use bw_schema::{Formula, Formulas};

/// Whether a formula holds of an element with these attributes and children.
#[cycle(holds)]
fn holds_alone(formula: &Formula, attrs: &Attrs, items: &Items) -> bool
    ensures { result ≡ holds_alone formula.now attrs.now items.now }
{
    match formula {
        Formula::And(parts) => holds(true, parts, attrs, items),
        Formula::Or(parts) => holds(false, parts, attrs, items),
        Formula::Attr(name) => has_fixed(attrs, name.as_str()),
        Formula::OneOf(name, values) => has_value(attrs, name.as_str(), values),
        Formula::Content(tag) => !lacks_child(tag.as_str(), items),
        Formula::Order(first, last) => is_ordered(first.as_str(), last.as_str(), items),
    }
}

/// With `all` whether all of the formulas hold, without it whether some of them do.
#[cycle(holds)]
pub fn holds(all: bool, formulas: &Formulas, attrs: &Attrs, items: &Items) -> bool
    ensures { result ≡ validity.holds all formulas.now attrs.now items.now }
{
    for formula in formulas.as_slice() {
        let one = holds_alone(formula, attrs, items);
        if one != all {
            return one;
        }
    }
    all
}
