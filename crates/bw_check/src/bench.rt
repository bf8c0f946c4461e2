//! One piece of the check: the page of a show or an exit.
ghost use Rattle.std.specs.Prelude.{◌≡◌, IfOk, slice_get, Some, length};
ghost use Rattle.bw_analyse.specs.Facts.{AreFacts};
ghost use Rattle.bw_analyse.specs.Pages.{HasPage, page_graph};
ghost use Rattle.bw_faults.specs.Lists.{Lists};
ghost use Rattle.bw_faults.specs.Order.{fault_cmp};
ghost use Rattle.bw_flow.specs.Layout.{plan_of, flow_of};
ghost use Rattle.bw_flow.specs.View.{seen};
ghost use Rattle.bw_solve.specs.Sets.{merge};
ghost use Rattle.bw_shape.specs.Outlines.{IsPageGraph, IsShape};
ghost use Rattle.bw_check.specs.Faults.{IsPageFault, IsReceivedFault};

use crate::laws::{pages_are_graphs, received_have_numbers};
use bw_analyse::{Facts, page_graph};
use bw_faults::Faults;
use bw_fields::judge_fields;
use bw_flow::{Flow, Point, PointId, What};
use bw_judge::judge_by;
use bw_lang::Memory;
use bw_out::Pulse;
use bw_shape::{Basis, Outline, shape_by};
use bw_sum::Summary;
use std::alloc::Global;

/// What every piece is judged by.
#[derive(Clone, Copy)]
pub struct Bench<'a> {
    pub basis: &'a Basis<'a>,
    pub flow: &'a Flow,
    pub facts: &'a Facts,
    ghost lowered: { flow.now ≡ plan_of basis.now.typed.now.service },
}

/// All faults of both.
pub fn joined(faults: Faults, more: Faults) -> Result<Faults, Memory>
    ensures { IfOk result (λ all. all ≡ merge fault_cmp faults more) }
{
    let mut all = faults;
    match all.join(more) {
        Ok(()) => Ok(all),
        Err(_) => {
            drop(all);
            Err(Memory)
        }
    }
}

/// The faults of the fields that the point at this place receives, where the outline is the shape of its page.
fn judge_received(
    alloc: Global,
    bench: Bench<'_>,
    outline: &Outline,
    place: PointId,
    point: &Point,
) -> Result<Faults, Memory>
    requires point { slice_get (flow_of bench.basis.now.typed.now.service) place ≡ Some (seen point.now) }
    requires page { IsPageGraph bench.basis.now.typed.now.service (page_graph bench.basis.now.typed.now.service bench.facts.now place) }
    requires shape { IsShape bench.basis.now.typed.now.service (page_graph bench.basis.now.typed.now.service bench.facts.now place)
        bench.basis.now.schema.now outline.now }
    ensures { IfOk result (Lists (IsReceivedFault bench.entry.basis.now.typed.now.service bench.entry.facts.now place (seen point.now))) }
{
    received_have_numbers(bench.basis.typed);
    match &point.what {
        What::Show { receives, .. } => {
            judge_fields(alloc, outline, bench.basis.typed, receives, point.number)
        }
        _ => Ok(Faults::new(alloc)),
    }
}

/// The faults of the page with this graph and this outline, at this place. Those of fields come first, as in the order of
/// faults, so that the others are only put behind them.
fn judge_outline(
    alloc: Global,
    bench: Bench<'_>,
    page: &Summary,
    outline: &Outline,
    place: PointId,
    point: &Point,
) -> Result<Faults, Memory>
    requires graph { page.now ≡ page_graph bench.basis.now.typed.now.service bench.facts.now place }
    requires known { IsPageGraph bench.basis.now.typed.now.service page.now }
    requires shape { IsShape bench.basis.now.typed.now.service page.now bench.basis.now.schema.now outline.now }
    requires page { HasPage bench.basis.now.typed.now.service place }
    requires point { slice_get (flow_of bench.basis.now.typed.now.service) place ≡ Some (seen point.now) }
    ensures { IfOk result (Lists (IsPageFault bench.entry.basis.now.typed.now.service bench.entry.basis.now.schema.now bench.entry.facts.now place)) }
{
    let faults = judge_received(alloc, bench, outline, place, point)?;
    match judge_by(alloc, bench.basis, outline, page, point.number) {
        Ok(elements) => joined(faults, elements),
        Err(Memory) => {
            drop(faults);
            Err(Memory)
        }
    }
}

/// The faults of the page at this place, where a show or an exit stands.
fn judge_page(
    alloc: Global,
    bench: Bench<'_>,
    place: PointId,
    point: &Point,
) -> Result<Faults, Memory>
    requires facts { AreFacts bench.basis.now.typed.now.service bench.facts.now }
    requires page { HasPage bench.basis.now.typed.now.service place }
    requires point { slice_get (flow_of bench.basis.now.typed.now.service) place ≡ Some (seen point.now) }
    ensures { IfOk result (Lists (IsPageFault bench.entry.basis.now.typed.now.service bench.entry.basis.now.schema.now bench.entry.facts.now place)) }
{
    pages_are_graphs(bench.basis.typed);
    let page = page_graph(alloc, bench.basis.typed, bench.flow, bench.facts, place)?;
    let faults = judge_graph(alloc, bench, &page, place, point);
    drop(page);
    faults
}

/// The same of the graph of the page.
fn judge_graph(
    alloc: Global,
    bench: Bench<'_>,
    page: &Summary,
    place: PointId,
    point: &Point,
) -> Result<Faults, Memory>
    requires graph { page.now ≡ page_graph bench.basis.now.typed.now.service bench.facts.now place }
    requires known { IsPageGraph bench.basis.now.typed.now.service page.now }
    requires page { HasPage bench.basis.now.typed.now.service place }
    requires point { slice_get (flow_of bench.basis.now.typed.now.service) place ≡ Some (seen point.now) }
    ensures { IfOk result (Lists (IsPageFault bench.entry.basis.now.typed.now.service bench.entry.basis.now.schema.now bench.entry.facts.now place)) }
{
    let outline = shape_by(alloc, page, bench.basis)?;
    let faults = judge_outline(alloc, bench, page, &outline, place, point);
    drop(outline);
    faults
}

/// Judges the piece of this number, which is the page at this place.
pub fn judge_piece<P: Pulse>(
    alloc: Global,
    bench: Bench<'_>,
    pulse: &P,
    number: u32,
    place: PointId,
) -> Result<Faults, Memory>
    requires facts { AreFacts bench.basis.now.typed.now.service bench.facts.now }
    requires page { HasPage bench.basis.now.typed.now.service place }
    ensures { IfOk result (Lists (IsPageFault bench.entry.basis.now.typed.now.service bench.entry.basis.now.schema.now bench.entry.facts.now place)) }
{
    pulse.at(number);
    match bench.flow.point(place) {
        Some(point) => judge_page(alloc, bench, place, point),
        None => unreachable!(),
    }
}
