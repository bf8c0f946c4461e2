//! The least size of attributes.
ghost use Rattle.std.specs.Prelude.{◌≡◌, ◌≤◌};
ghost use Rattle.std.specs.List.{list_all};
ghost use Rattle.bw_explain.specs.declared.sizes.TheConstants.{NONE};
ghost use Rattle.bw_explain.specs.Sizes as spec;

use crate::sizes::{NONE, PAST};
use crate::way::Node;
use bw_lang::{AttrValue, Attrs};

/// Whether an attribute's value can stand at all.
fn may_fill(node: &Node, value: &AttrValue) -> bool
    ensures { result ≡ spec.may_fill node.now value.now }
{
    match value {
        AttrValue::Fixed(_) => true,
        AttrValue::Hole(gap) => match node.way(*gap) {
            Some(way) => way.is_loose(),
            None => false,
        },
    }
}

/// Whether each attribute can stand.
pub fn may_fill_all(node: &Node, attrs: &Attrs) -> bool
    ensures { result ≡ list_all (λ x. spec.may_fill node.now x.value) attrs.now }
{
    attrs
        .as_slice()
        .iter()
        .all(|attr| may_fill(node, &attr.value))
}

/// The least size of some attributes.
pub fn attrs_least(node: &Node, attrs: &Attrs) -> u32
    ensures least { result ≡ spec.attrs_least node.now attrs.now }
    ensures most { result ≤ NONE }
{
    if may_fill_all(node, attrs) {
        attrs.as_slice().len().min(PAST as usize) as u32
    } else {
        NONE
    }
}
