//! A turn over a flow, from point to point.
ghost use Rattle.std.specs.Prelude.{◌≡◌, ◌+◌, ◌*◌, ◌<◌, ◌≤◌, ℕ, suc, IfOk, OnOk, List, length};
ghost use Rattle.bw_eval.specs.Evaluations.{HasMemory};
ghost use Rattle.bw_run.specs.Code.{state, IsSound};
ghost use Rattle.bw_run.specs.Follow.Laws.{Settles};
ghost use Rattle.bw_run.specs.Follow.Runs as spec;
ghost use Rattle.bw_flow.specs.Layout.{plan_of};
ghost use Rattle.bw_run.specs.Walks.{advanced, stopped, IsInside, IsLess, HasKindsAt, AdvancesTo, AdvancesWell, IsSoundStop};

use crate::standing::Standing;
use crate::step::{Stepped, step};
use bw_doc::Doc;
use bw_flow::{Flow, PointId};
use bw_lang::TurnFault;
use bw_out::Steps;
use bw_types::Typed;
use std::alloc::Global;
use std::sync::ledger::Ledger;

/// Where a turn goes from a point.
#[derive(Drop)]
pub enum Advance {
    To(PointId),
    Waits(Doc),
    Ends(Doc),
}

/// How a turn stops.
#[derive(Drop)]
pub enum Stop {
    /// It waits at a show with this document.
    Waits(PointId, Doc),
    Ends(Doc),
}

/// The first of these places; 0 where there is none.
pub fn first_of(next: &[PointId]) -> PointId
    ensures { result ≡ spec.first_of next.now }
{
    match next {
        [first, ..] => *first,
        [] => PointId::of(0),
    }
}

/// The second of these places; 0 where there is none.
fn second_of(next: &[PointId]) -> PointId
    ensures { result ≡ spec.second_of next.now }
{
    match next {
        [_, second, ..] => *second,
        _ => PointId::of(0),
    }
}

/// Goes on from one point.
fn pass<L: Ledger>(
    alloc: Global,
    typed: &Typed,
    flow: &Flow,
    at: PointId,
    standing: &mut Standing,
    steps: &mut Steps<L>,
) -> Result<Advance, TurnFault>
    requires inside { at < length flow.now.steps }
    requires flow { flow.now ≡ plan_of typed.now.service }
    requires sound { IsSound typed.now.service.templates standing.old }
    requires kinds { HasKindsAt typed.now.service flow.now.steps at standing.old }
    ensures run { (g : ℕ) → HasMemory result →
        spec.run typed.now.service flow.now.steps (suc g) at standing.old.rests (state standing.old) ≡
        advanced typed.now.service flow.now.steps at g result standing.new }
    ensures stops { IfOk result (AdvancesWell typed.now.service.templates flow.now.steps at) }
    ensures inside { IfOk result (λ a. IsInside flow.now.steps a) }
    ensures kinds { IfOk result (AdvancesTo typed.now.service flow.now.steps standing.new) }
    ensures less { IfOk result (λ a. IsLess flow.now.steps at standing.old.units standing.new.units a) }
    ensures steps { steps.new + standing.new.units ≡ steps.old + standing.old.units }
    ensures left { standing.new.units ≤ standing.old.units }
    ensures sound { OnOk result (IsSound typed.now.service.templates standing.new) }
{
    let Some(point) = flow.point(at) else {
        unreachable!()
    };
    standing.cut(point.scope.len());
    match step(alloc, typed, point, standing, steps)? {
        Stepped::First => Ok(Advance::To(first_of(point.next.as_slice()))),
        Stepped::Second => Ok(Advance::To(second_of(point.next.as_slice()))),
        Stepped::Waits(doc) => Ok(Advance::Waits(doc)),
        Stepped::Ends(doc) => Ok(Advance::Ends(doc)),
    }
}

/// A turn from a point on.
pub fn walk<L: Ledger>(
    alloc: Global,
    typed: &Typed,
    flow: &Flow,
    start: PointId,
    standing: &mut Standing,
    steps: &mut Steps<L>,
) -> Result<Stop, TurnFault>
    requires inside { start < length flow.now.steps }
    requires flow { flow.now ≡ plan_of typed.now.service }
    requires sound { IsSound typed.now.service.templates standing.old }
    requires kinds { HasKindsAt typed.now.service flow.now.steps start standing.old }
    ensures run { HasMemory result →
        Settles (λ g. spec.run typed.now.service flow.now.steps g start standing.old.rests (state standing.old))
        (stopped flow.now.steps result standing.new) }
    ensures stops { IfOk result (IsSoundStop typed.now.service.templates flow.now.steps) }
    ensures steps { steps.new + standing.new.units ≡ steps.old + standing.old.units }
    ensures left { standing.new.units ≤ standing.old.units }
    ensures sound { OnOk result (IsSound typed.now.service.templates standing.new) }
{
    let mut at = start;
    'walk: loop {
        let advance = match pass(alloc, typed, flow, at, standing, steps) {
            Err(fault) => return Err(fault),
            Ok(advance) => advance,
        };
        match advance {
            Advance::To(next) => at = next,
            Advance::Waits(doc) => return Ok(Stop::Waits(at, doc)),
            Advance::Ends(doc) => return Ok(Stop::Ends(doc)),
        }
    }
}
