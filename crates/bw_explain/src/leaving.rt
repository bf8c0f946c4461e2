//! Attributes none of which, of one name, passes.
ghost use Rattle.std.specs.Prelude.{◌≡◌, ◌<◌, ◌≤◌, ◌||◌, [], not, true, false, IfOk, OnOk, length};
ghost use Rattle.std.specs.List.{list_all};
ghost use Rattle.bw_lang.specs.Table.Names.{same};
ghost use Rattle.bw_sum.specs.Unfolding.{FillsValue, FillsAttrs};
ghost use Rattle.bw_explain.specs.declared.sizes.TheConstants.{NONE};
ghost use Rattle.bw_explain.specs.Atoms as spec;
ghost use Rattle.bw_explain.specs.Owns as owns;
ghost use Rattle.bw_explain.specs.Sizes.{may_fill};
ghost use Rattle.bw_explain.specs.Ways.{ways_at, graph};

use crate::failing::{failing_word, fails, passes};
use crate::fill::{attr_of, fill_value};
use crate::ground::{Breach, Lack};
use crate::least::may_fill_all;
use crate::page::Page;
use crate::sizes::{NONE, PAST};
use crate::way::Node;
use bw_lang::{Attr, AttrValue, Attrs, Memory, Name};
use std::alloc::Global;

/// Whether the value of an attribute may be left open or fail.
#[tactic(auto, using(crate::proofs::AtomLaws::no_fails))]
fn may_leave(breach: &Breach<'_>, node: &Node, attr: &Attr) -> bool
    ensures { result ≡ owns.may_leave node.now (spec.passes breach.now.rule.now breach.now.atom.now)
        (spec.fails breach.now.rule.now breach.now.atom.now) attr.now.name attr.now.value }
{
    match &attr.value {
        AttrValue::Fixed(text) => !passes(
            breach.rule,
            breach.atom,
            attr.name.as_str(),
            text.as_str(),
        ),
        AttrValue::Hole(gap) => match node.way(*gap) {
            Some(way) => way.is_open() || fails(breach.rule, breach.atom, attr.name.as_str(), way),
            None => false,
        },
    }
}

fn all_may_leave(breach: &Breach<'_>, node: &Node, name: &Name, attrs: &Attrs) -> bool
    ensures { result ≡ list_all (λ c. not (same c.name name.now) || owns.may_leave node.now (spec.passes breach.now.rule.now breach.now.atom.now)
        (spec.fails breach.now.rule.now breach.now.atom.now)
        c.name c.value) attrs.now }
{
    attrs.as_slice().iter().all(|attr| attr.name.as_str() != name.as_str()
        || may_leave(breach, node, attr))
}

/// The least number of attributes none of which, of that name, passes.
pub fn leaving_own(page: &Page, breach: &Breach<'_>, name: &Name, n: usize, attrs: &Attrs) -> u32
    requires { n < length page.now.templates.now }
    ensures is { result ≡ owns.leaving_own page.now.nodes.now (spec.passes breach.now.rule.now breach.now.atom.now)
        (spec.fails breach.now.rule.now breach.now.atom.now) name.now n attrs.now }
    ensures most { result ≤ NONE }
{
    let node = page.node(n);
    if may_fill_all(node, attrs) && all_may_leave(breach, node, name, attrs) {
        attrs.as_slice().len().min(PAST as usize) as u32
    } else {
        NONE
    }
}

/// A value of an attribute that is left open or fails.
fn leaving_value(
    alloc: Global,
    page: &Page,
    breach: &Breach<'_>,
    n: usize,
    attr: &Attr,
) -> Result<AttrValue, Memory>
    requires n { n < length page.now.templates.now }
    requires leaves { owns.may_leave (ways_at page.now.nodes.now n) (spec.passes breach.now.rule.now breach.now.atom.now)
        (spec.fails breach.now.rule.now breach.now.atom.now) attr.now.name
        attr.now.value ≡ true }
    ensures { IfOk result (λ v. FillsValue (graph page.now.nodes.now) n attr.now.value v
        × (owns.value_passes (spec.passes breach.now.rule.now breach.now.atom.now) attr.now.name v ≡ false)) }
{
    match &attr.value {
        AttrValue::Fixed(text) => Ok(AttrValue::Fixed(text.copy()?)),
        AttrValue::Hole(gap) => match page.node(n).way(*gap) {
            Some(way) => {
                if way.is_open() {
                    Ok(AttrValue::Hole(*gap))
                } else {
                    let word = failing_word(
                        alloc,
                        breach.rule,
                        breach.atom,
                        attr.name.as_str(),
                        way,
                    )?;
                    Ok(AttrValue::Fixed(word))
                }
            }
            None => unreachable!(),
        },
    }
}

/// A value of an attribute, one that doesn't pass where it is of that name.
fn value_or_leaving(
    alloc: Global,
    page: &Page,
    lack: &Lack<'_>,
    n: usize,
    attr: &Attr,
) -> Result<AttrValue, Memory>
    requires n { n < length page.now.templates.now }
    requires fills { may_fill (ways_at page.now.nodes.now n) attr.now.value ≡ true }
    requires leaves { (not (same attr.now.name lack.now.name.now) || owns.may_leave (ways_at page.now.nodes.now n)
        (spec.passes lack.now.breach.now.rule.now lack.now.breach.now.atom.now)
        (spec.fails lack.now.breach.now.rule.now lack.now.breach.now.atom.now) attr.now.name attr.now.value) ≡ true }
    ensures { IfOk result (λ v. FillsValue (graph page.now.nodes.now) n attr.now.value v
        × (same attr.now.name lack.now.name.now ≡ true → owns.value_passes
        (spec.passes lack.now.breach.now.rule.now lack.now.breach.now.atom.now) attr.now.name v ≡ false)) }
{
    if attr.name.as_str() == lack.name.as_str() {
        leaving_value(alloc, page, lack.breach, n, attr)
    } else {
        fill_value(alloc, page, n, &attr.value)
    }
}

/// Attributes none of which, of that name, passes, into an empty list.
fn add_leaving(
    alloc: Global,
    page: &Page,
    lack: &Lack<'_>,
    n: usize,
    attrs: &Attrs,
    out: &mut Attrs,
) -> Result<(), Memory>
    requires n { n < length page.now.templates.now }
    requires fills { list_all (λ x. may_fill (ways_at page.now.nodes.now n) x.value) attrs.now ≡ true }
    requires leaves { list_all (λ c. not (same c.name lack.now.name.now) || owns.may_leave (ways_at page.now.nodes.now n)
        (spec.passes lack.now.breach.now.rule.now lack.now.breach.now.atom.now)
        (spec.fails lack.now.breach.now.rule.now lack.now.breach.now.atom.now) c.name c.value) attrs.now ≡ true }
    requires empty { out.old ≡ [] }
    ensures { OnOk result (FillsAttrs (graph page.now.nodes.now) n attrs.now out.new
        × (owns.has_passing (spec.passes lack.now.breach.now.rule.now lack.now.breach.now.atom.now) lack.now.name.now out.new ≡ false)) }
{
    for attr in attrs.as_slice() {
        let value = value_or_leaving(alloc, page, lack, n, attr)?;
        out.push(attr_of(&attr.name, value)?)?;
    }
    Ok(())
}

/// Attributes none of which, of that name, passes.
pub fn fill_leaving(
    alloc: Global,
    page: &Page,
    lack: &Lack<'_>,
    n: usize,
    attrs: &Attrs,
) -> Result<Attrs, Memory>
    requires n { n < length page.now.templates.now }
    requires fills { list_all (λ x. may_fill (ways_at page.now.nodes.now n) x.value) attrs.now ≡ true }
    requires leaves { list_all (λ c. not (same c.name lack.now.name.now) || owns.may_leave (ways_at page.now.nodes.now n)
        (spec.passes lack.now.breach.now.rule.now lack.now.breach.now.atom.now)
        (spec.fails lack.now.breach.now.rule.now lack.now.breach.now.atom.now) c.name c.value) attrs.now ≡ true }
    ensures { IfOk result (λ b. FillsAttrs (graph page.now.nodes.now) n attrs.now b
        × (owns.has_passing (spec.passes lack.now.breach.now.rule.now lack.now.breach.now.atom.now) lack.now.name.now b ≡ false)) }
{
    let mut out = Attrs::new(alloc);
    match add_leaving(alloc, page, lack, n, attrs, &mut out) {
        Ok(()) => Ok(out),
        Err(Memory) => {
            drop(out);
            Err(Memory)
        }
    }
}
