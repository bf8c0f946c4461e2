//! Attributes whose values fail.
ghost use Rattle.std.specs.Prelude.{◌≡◌, ◌<◌, ◌≤◌, [], true, false, IfOk, OnOk, length};
ghost use Rattle.std.specs.List.{list_any, list_all};
ghost use Rattle.bw_schema.specs.Validity.{on_fixed, each_fixed};
ghost use Rattle.bw_sum.specs.Unfolding.{FillsValue, FillsAttrs};
ghost use Rattle.bw_explain.specs.declared.sizes.TheConstants.{PAST, NONE};
ghost use Rattle.bw_explain.specs.Atoms as spec;
ghost use Rattle.bw_explain.specs.Owns as owns;
ghost use Rattle.bw_explain.specs.Sizes.{may_fill, capped};
ghost use Rattle.bw_explain.specs.Ways.{ways_at, graph};

use crate::atom::Atom;
use crate::failing::{failing_word, fails, passes};
use crate::fill::{attr_of, fill_attrs, fill_value};
use crate::ground::{Breach, Lack};
use crate::least::{attrs_least, may_fill_all};
use crate::leaving::{fill_leaving, leaving_own};
use crate::page::Page;
use crate::sizes::{NONE, PAST};
use crate::way::Node;
use bw_lang::{Attr, AttrValue, Attrs, Memory, Name};
use std::alloc::Global;

/// Whether the value of an attribute may fail.
#[tactic(auto, using(crate::proofs::AtomLaws::no_fails))]
fn may_fail(breach: &Breach<'_>, node: &Node, attr: &Attr) -> bool
    ensures { result ≡ owns.may_fail node.now (spec.passes breach.now.rule.now breach.now.atom.now)
        (spec.fails breach.now.rule.now breach.now.atom.now) attr.now.name attr.now.value }
{
    match &attr.value {
        AttrValue::Fixed(text) => !passes(
            breach.rule,
            breach.atom,
            attr.name.as_str(),
            text.as_str(),
        ),
        AttrValue::Hole(gap) => match node.way(*gap) {
            Some(way) => fails(breach.rule, breach.atom, attr.name.as_str(), way),
            None => false,
        },
    }
}

fn some_may_fail(breach: &Breach<'_>, node: &Node, attrs: &Attrs) -> bool
    ensures { result ≡ list_any (λ x. owns.may_fail node.now (spec.passes breach.now.rule.now breach.now.atom.now)
        (spec.fails breach.now.rule.now breach.now.atom.now) x.name x.value) attrs.now }
{
    attrs
        .as_slice()
        .iter()
        .any(|attr| may_fail(breach, node, attr))
}

/// The least number of attributes one of which fails.
fn failing_own(page: &Page, breach: &Breach<'_>, n: usize, attrs: &Attrs) -> u32
    requires { n < length page.now.templates.now }
    ensures is { result ≡ owns.failing_own page.now.nodes.now (spec.passes breach.now.rule.now breach.now.atom.now)
        (spec.fails breach.now.rule.now breach.now.atom.now) n attrs.now }
    ensures most { result ≤ NONE }
{
    let node = page.node(n);
    if may_fill_all(node, attrs) && some_may_fail(breach, node, attrs) {
        attrs.as_slice().len().min(PAST as usize) as u32
    } else {
        NONE
    }
}

/// A value of an attribute that fails.
fn failing_value(
    alloc: Global,
    page: &Page,
    breach: &Breach<'_>,
    n: usize,
    attr: &Attr,
) -> Result<AttrValue, Memory>
    requires n { n < length page.now.templates.now }
    requires fails { owns.may_fail (ways_at page.now.nodes.now n) (spec.passes breach.now.rule.now breach.now.atom.now)
        (spec.fails breach.now.rule.now breach.now.atom.now) attr.now.name attr.now.value
        ≡ true }
    ensures { IfOk result (λ v. FillsValue (graph page.now.nodes.now) n attr.now.value v × (on_fixed
        (spec.passes breach.now.rule.now breach.now.atom.now) attr.now.name v ≡ false)) }
{
    match &attr.value {
        AttrValue::Fixed(text) => Ok(AttrValue::Fixed(text.copy()?)),
        AttrValue::Hole(gap) => match page.node(n).way(*gap) {
            Some(way) => {
                let word = failing_word(alloc, breach.rule, breach.atom, attr.name.as_str(), way)?;
                Ok(AttrValue::Fixed(word))
            }
            None => unreachable!(),
        },
    }
}

/// A value of an attribute, one that fails where it may.
fn value_or_failing(
    alloc: Global,
    page: &Page,
    breach: &Breach<'_>,
    n: usize,
    attr: &Attr,
) -> Result<AttrValue, Memory>
    requires n { n < length page.now.templates.now }
    requires fills { may_fill (ways_at page.now.nodes.now n) attr.now.value ≡ true }
    ensures { IfOk result (λ v. FillsValue (graph page.now.nodes.now) n attr.now.value v
        × (owns.may_fail (ways_at page.now.nodes.now n) (spec.passes breach.now.rule.now breach.now.atom.now)
        (spec.fails breach.now.rule.now breach.now.atom.now) attr.now.name attr.now.value ≡ true
        → on_fixed (spec.passes breach.now.rule.now breach.now.atom.now) attr.now.name v ≡ false)) }
{
    if may_fail(breach, page.node(n), attr) {
        failing_value(alloc, page, breach, n, attr)
    } else {
        fill_value(alloc, page, n, &attr.value)
    }
}

/// Attributes one of which fails, into an empty list.
fn add_failing(
    alloc: Global,
    page: &Page,
    breach: &Breach<'_>,
    n: usize,
    attrs: &Attrs,
    out: &mut Attrs,
) -> Result<(), Memory>
    requires n { n < length page.now.templates.now }
    requires fills { list_all (λ x. may_fill (ways_at page.now.nodes.now n) x.value) attrs.now ≡ true }
    requires fails { list_any (λ x. owns.may_fail (ways_at page.now.nodes.now n) (spec.passes breach.now.rule.now breach.now.atom.now)
        (spec.fails breach.now.rule.now breach.now.atom.now) x.name x.value) attrs.now ≡ true }
    requires empty { out.old ≡ [] }
    ensures { OnOk result (FillsAttrs (graph page.now.nodes.now) n attrs.now out.new × (each_fixed
        (spec.passes breach.now.rule.now breach.now.atom.now) out.new ≡ false)) }
{
    for attr in attrs.as_slice() {
        let value = value_or_failing(alloc, page, breach, n, attr)?;
        out.push(attr_of(&attr.name, value)?)?;
    }
    Ok(())
}

/// Attributes one of which fails.
fn fill_failing(
    alloc: Global,
    page: &Page,
    breach: &Breach<'_>,
    n: usize,
    attrs: &Attrs,
) -> Result<Attrs, Memory>
    requires n { n < length page.now.templates.now }
    requires fills { list_all (λ x. may_fill (ways_at page.now.nodes.now n) x.value) attrs.now ≡ true }
    requires fails { list_any (λ x. owns.may_fail (ways_at page.now.nodes.now n) (spec.passes breach.now.rule.now breach.now.atom.now)
        (spec.fails breach.now.rule.now breach.now.atom.now) x.name x.value) attrs.now ≡ true }
    ensures { IfOk result (λ b. FillsAttrs (graph page.now.nodes.now) n attrs.now b × (each_fixed
        (spec.passes breach.now.rule.now breach.now.atom.now) b ≡ false)) }
{
    let mut out = Attrs::new(alloc);
    match add_failing(alloc, page, breach, n, attrs, &mut out) {
        Ok(()) => Ok(out),
        Err(Memory) => {
            drop(out);
            Err(Memory)
        }
    }
}

/// The least number of attributes with which an element is broken so, as far as they go.
pub fn own_least(page: &Page, breach: &Breach<'_>, n: usize, attrs: &Attrs) -> u32
    requires { n < length page.now.templates.now }
    ensures is { result ≡ owns.own_least page.now.nodes.now breach.now.rule.now breach.now.atom.now n attrs.now }
    ensures most { result ≤ NONE }
{
    match breach.atom {
        Atom::NotAllowed => failing_own(page, breach, n, attrs),
        Atom::OtherValue => failing_own(page, breach, n, attrs),
        Atom::Absent(name) => leaving_own(page, breach, name, n, attrs),
        Atom::Outside(name, _) => leaving_own(page, breach, name, n, attrs),
        _ => attrs_least(page.node(n), attrs),
    }
}

/// Attributes of that number.
pub fn fill_own(
    alloc: Global,
    page: &Page,
    breach: &Breach<'_>,
    n: usize,
    attrs: &Attrs,
) -> Result<Attrs, Memory>
    requires n { n < length page.now.templates.now }
    requires there { owns.own_least page.now.nodes.now breach.now.rule.now breach.now.atom.now n attrs.now ≤ PAST }
    ensures { IfOk result (λ b. FillsAttrs (graph page.now.nodes.now) n attrs.now b × (owns.own_broken breach.now.rule.now breach.now.atom.now b ≡ true)
        × (capped (length b) ≡ owns.own_least page.now.nodes.now breach.now.rule.now breach.now.atom.now n attrs.now)) }
{
    match breach.atom {
        Atom::NotAllowed => fill_failing(alloc, page, breach, n, attrs),
        Atom::OtherValue => fill_failing(alloc, page, breach, n, attrs),
        Atom::Absent(name) => fill_leaving(alloc, page, &Lack { breach, name }, n, attrs),
        Atom::Outside(name, _) => fill_leaving(alloc, page, &Lack { breach, name }, n, attrs),
        _ => fill_attrs(alloc, page, n, attrs),
    }
}
