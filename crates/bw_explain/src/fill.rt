//! Attributes of least number, and what may stand at a gap.
ghost use Rattle.std.specs.Prelude.{◌≡◌, ℕ, ◌≤◌, ◌<◌, [], true, MatchOption, IfOk, OnOk, length};
ghost use Rattle.std.specs.List.{list_all};
ghost use Rattle.bw_sum.specs.Unfolding.{FillsValue, FillsAttrs};
ghost use Rattle.bw_shape.specs.Nodes.Nodes.{among};
ghost use Rattle.bw_explain.specs.Ways.{ways_at, graph};
ghost use Rattle.bw_explain.specs.Sizes as spec;
ghost use Rattle.bw_explain.specs.Tables.{size_at};

use crate::page::Page;
use crate::table::Table;
use bw_lang::{Attr, AttrValue, Attrs, Memory, Name};
use std::alloc::Global;

/// A value of an attribute, open or filled.
pub fn fill_value(
    alloc: Global,
    page: &Page,
    n: usize,
    value: &AttrValue,
) -> Result<AttrValue, Memory>
    requires n { n < length page.now.templates.now }
    requires fills { spec.may_fill (ways_at page.now.nodes.now n) value.now ≡ true }
    ensures { IfOk result (λ v. FillsValue (graph page.now.nodes.now) n value.now v) }
{
    match value {
        AttrValue::Fixed(text) => Ok(AttrValue::Fixed(text.copy()?)),
        AttrValue::Hole(gap) => match page.node(n).way(*gap) {
            Some(way) => {
                if way.is_open() {
                    Ok(AttrValue::Hole(*gap))
                } else {
                    Ok(AttrValue::Fixed(way.word(alloc)?))
                }
            }
            None => Ok(AttrValue::Hole(*gap)),
        },
    }
}

/// An attribute with this value.
pub fn attr_of(name: &Name, value: AttrValue) -> Result<Attr, Memory>
    ensures { IfOk result (λ a. a ≡ record { name = name.now; value = value }) }
{
    let Ok(name) = name.copy() else {
        drop(value);
        return Err(Memory);
    };
    Ok(Attr { name, value })
}

/// Attributes, open or filled, into an empty list.
fn add_filled(
    alloc: Global,
    page: &Page,
    n: usize,
    attrs: &Attrs,
    out: &mut Attrs,
) -> Result<(), Memory>
    requires n { n < length page.now.templates.now }
    requires fills { list_all (λ x. spec.may_fill (ways_at page.now.nodes.now n) x.value) attrs.now ≡ true }
    requires empty { out.old ≡ [] }
    ensures { OnOk result (FillsAttrs (graph page.now.nodes.now) n attrs.now out.new × (length out.new ≡ length attrs.now)) }
{
    for attr in attrs.as_slice() {
        let value = fill_value(alloc, page, n, &attr.value)?;
        out.push(attr_of(&attr.name, value)?)?;
    }
    Ok(())
}

/// Attributes, open or filled.
pub fn fill_attrs(alloc: Global, page: &Page, n: usize, attrs: &Attrs) -> Result<Attrs, Memory>
    requires n { n < length page.now.templates.now }
    requires fills { list_all (λ x. spec.may_fill (ways_at page.now.nodes.now n) x.value) attrs.now ≡ true }
    ensures { IfOk result (λ b. FillsAttrs (graph page.now.nodes.now) n attrs.now b × (length b ≡ length attrs.now)) }
{
    let mut out = Attrs::new(alloc);
    match add_filled(alloc, page, n, attrs, &mut out) {
        Ok(()) => Ok(out),
        Err(Memory) => {
            drop(out);
            Err(Memory)
        }
    }
}

/// Which of the templates has a document of at most that size.
pub fn first_within(known: &Table, led: &[u32], most: u32) -> Option<u32>
    ensures { MatchOption result ((m : ℕ) → among led.now m ≡ true → most < size_at known.now m)
        (λ m. (among led.now m ≡ true) × (size_at known.now m ≤ most)) }
{
    for m in led {
        if known.size(*m as usize) <= most {
            return Some(*m);
        }
    }
    None
}
