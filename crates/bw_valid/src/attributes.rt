//! The attributes of an element, by its rule. An attribute whose value is an open gap counts as absent.
ghost use Rattle.std.specs.Prelude.{◌≡◌};
ghost use Rattle.std.specs.List.{list_all};
ghost use Rattle.bw_schema.specs.Rules as spec;
ghost use Rattle.bw_schema.specs.Validity as validity;

use bw_lang::{Attr, AttrValue, Attrs, Words};
use bw_schema::{Rule, is_among};

fn is_fixed(value: &AttrValue) -> bool
    ensures { result ≡ validity.is_fixed value.now }
{
    match value {
        AttrValue::Fixed(_) => true,
        AttrValue::Hole(_) => false,
    }
}

/// Whether the value is one of these.
fn is_one_of(values: &Words, value: &AttrValue) -> bool
    ensures { result ≡ validity.value_in values.now value.now }
{
    match value {
        AttrValue::Fixed(text) => is_among(values, text.as_str()),
        AttrValue::Hole(_) => false,
    }
}

/// Whether the attribute is there.
pub fn has_fixed(attrs: &Attrs, name: &str) -> bool
    ensures { result ≡ validity.has_fixed attrs.now name.now }
{
    attrs
        .as_slice()
        .iter()
        .any(|attr| attr.name.as_str() == name && is_fixed(&attr.value))
}

/// Whether the attribute is there with one of these values.
pub fn has_value(attrs: &Attrs, name: &str, values: &Words) -> bool
    ensures { result ≡ validity.has_value attrs.now name.now values.now }
{
    attrs.as_slice().iter().any(|attr| attr.name.as_str() == name && is_one_of(values, &attr.value))
}

fn is_allowed(rule: &Rule, attr: &Attr) -> bool
    ensures { result ≡ validity.on_fixed (λ x v. spec.allows rule.now x) attr.now.name attr.now.value }
{
    match &attr.value {
        AttrValue::Fixed(_) => rule.allows(attr.name.as_str()),
        AttrValue::Hole(_) => true,
    }
}

fn is_permitted(rule: &Rule, attr: &Attr) -> bool
    ensures { result ≡ validity.on_fixed (spec.permits rule.now.values) attr.now.name attr.now.value }
{
    match &attr.value {
        AttrValue::Fixed(value) => rule.values.permits(attr.name.as_str(), value.as_str()),
        AttrValue::Hole(_) => true,
    }
}

/// Whether each attribute is allowed.
pub fn are_allowed(rule: &Rule, attrs: &Attrs) -> bool
    ensures { result ≡ validity.each_fixed (λ x v. spec.allows rule.now x) attrs.now }
{
    attrs.as_slice().iter().all(|attr| is_allowed(rule, attr))
}

/// Whether each required attribute is there.
pub fn has_required(rule: &Rule, attrs: &Attrs) -> bool
    ensures { result ≡ list_all (validity.has_fixed attrs.now) rule.now.must }
{
    rule.must
        .as_slice()
        .iter()
        .all(|name| has_fixed(attrs, name.as_str()))
}

/// Whether each attribute with a value list has one of its values.
pub fn are_permitted(rule: &Rule, attrs: &Attrs) -> bool
    ensures { result ≡ validity.each_fixed (spec.permits rule.now.values) attrs.now }
{
    attrs.as_slice().iter().all(|attr| is_permitted(rule, attr))
}
