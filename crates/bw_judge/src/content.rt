//! The faults 4 and 5 of an element: what may stand in it and isn't allowed.
ghost use Rattle.std.specs.Prelude.{◌≡◌, ℕ, ◌+◌, ◌-◌, ◌<◌, ◌&&◌, IfOk, OnOk, length};
ghost use Rattle.bw_shape.specs.Rows.Rows.{flag, at};
ghost use Rattle.bw_faults.specs.Lists.{Adds, When};
ghost use Rattle.bw_shape.specs.Tests.{gives};
ghost use Rattle.bw_judge.specs.Content as content;

use bw_faults::{Fault, Faults};
use bw_lang::{Items, Memory, TemplateId, Text, Words};
use bw_schema::is_among;
use bw_shape::{Node, Row, Table, Tags, items_give};
use std::alloc::Global;

/// Where an element stands.
#[derive(Clone, Copy)]
pub struct Spot {
    pub point: u32,
    /// The number of the template.
    pub template: u32,
    pub place: u32,
}

/// What an element may have in it by its rule, where the element stands, and the tags of the page by their numbers.
#[derive(Drop)]
pub(crate) struct Allowed<'a> {
    pub tags: &'a Tags,
    pub has: &'a Words,
    pub text: bool,
    pub spot: Spot,
}

/// The fault of that number at a spot.
fn fault_at(alloc: Global, number: u8, spot: Spot, detail: &str) -> Result<Fault, Memory>
    ensures { IfOk result (λ f. f ≡ content.fault_at spot number detail.now) }
{
    let detail = Text::of(alloc, detail)?;
    Ok(Fault {
        number,
        point: spot.point,
        template: Some(TemplateId::of(spot.template)),
        place: spot.place,
        detail,
    })
}

/// Adds the fault of that number, where it is one.
pub(crate) fn add_if(
    alloc: Global,
    is_fault: bool,
    number: u8,
    spot: Spot,
    detail: &str,
    faults: &mut Faults,
) -> Result<(), Memory>
    ensures { OnOk result (Adds (When is_fault (content.fault_at spot number detail.now)) faults.old faults.new) }
{
    if !is_fault {
        return Ok(());
    }
    let fault = fault_at(alloc, number, spot, detail)?;
    faults.add(fault)?;
    Ok(())
}

/// Adds the fault of a tag that may stand in the element and isn't allowed.
fn judge_tag(
    alloc: Global,
    allowed: &Allowed<'_>,
    is_given: bool,
    number: usize,
    faults: &mut Faults,
) -> Result<(), Memory>
    requires { number < length allowed.now.tags.now }
    ensures { OnOk result (Adds
        (When (is_given && content.is_bad_tag allowed.now.has.now allowed.now.tags.now number) (content.tag_fault allowed.now.spot allowed.now.tags.now number))
        faults.old faults.new) }
{
    match allowed.tags.name(number) {
        Some(tag) => {
            let is_bad = is_given && !is_among(allowed.has, tag);
            add_if(alloc, is_bad, 4, allowed.spot, tag, faults)
        }
        None => Ok(()),
    }
}

/// The columns of what may stand in an element.
fn given(
    alloc: Global,
    tags: &Tags,
    node: &Node,
    tops: &Table,
    items: &Items,
) -> Result<Row, Memory>
    ensures { IfOk result (λ r. (c : ℕ) → c < length tags.now + 1 → flag r c ≡ gives tags.now node.now (λ m. at tops.now m c) c items.now) }
{
    let mut row = Row::of(alloc, tags.len() + 1, false)?;
    items_give(tags, node, tops, items, &mut row);
    Ok(row)
}

/// Adds the faults of the columns of what may stand in an element.
fn judge_columns(
    alloc: Global,
    allowed: &Allowed<'_>,
    given: &Row,
    faults: &mut Faults,
) -> Result<(), Memory>
    ensures { OnOk result (Adds
        (content.OfContent allowed.now.spot allowed.now.has.now allowed.now.text allowed.now.tags.now (flag given.now) (length allowed.now.tags.now))
        faults.old faults.new) }
{
    let is_wrong = given.has(0) && !allowed.text;
    add_if(alloc, is_wrong, 5, allowed.spot, "text", faults)?;
    for number in 0..allowed.tags.len() {
        judge_tag(alloc, allowed, given.has(number + 1), number, faults)?;
    }
    Ok(())
}

/// Adds the faults of what may stand in an element, by the table of what its templates may have at their tops.
pub(crate) fn judge_content(
    alloc: Global,
    allowed: &Allowed<'_>,
    node: &Node,
    tops: &Table,
    items: &Items,
    faults: &mut Faults,
) -> Result<(), Memory>
    ensures { OnOk result (Adds
        (content.OfContent allowed.now.spot allowed.now.has.now allowed.now.text allowed.now.tags.now
        (λ c. gives allowed.now.tags.now node.now (λ m. at tops.now m c) c items.now) (length allowed.now.tags.now))
        faults.old faults.new) }
{
    let given = given(alloc, allowed.tags, node, tops, items)?;
    judge_columns(alloc, allowed, &given, faults)
}
