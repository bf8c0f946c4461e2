//! Turns of sessions.
ghost use Rattle.std.specs.Prelude.{◌≡◌, ◌+◌, ◌<◌, ◌≤◌, ◌++◌, ◌∷◌, [], ℕ, List, MatchOption, IfOk, IsSome, None, Some, Ok, slice_get, true, false, length};
ghost use Rattle.bw_eval.specs.Evaluations.{HasMemory};
ghost use Rattle.bw_eval.specs.View.{values};
ghost use Rattle.bw_flow.specs.Layout.{plan_of};
ghost use Rattle.bw_flow.specs.Steps.{Step};
ghost use Rattle.bw_flow.specs.View.{act};
ghost use Rattle.bw_run.specs.Follow.Laws.{IsOf};
ghost use Rattle.bw_flow.specs.Flows.{is_show, fields_of};
ghost use Rattle.bw_lang.specs.declared.service.Template.{Template};
ghost use Rattle.bw_meaning.specs.GoOn as meaning;
ghost use Rattle.bw_run.specs.Fit.{IsFrame, AreShared, IsFitTurn, IsSoundTurn};
ghost use Rattle.bw_meaning.specs.States.{Input};
ghost use Rattle.bw_meaning.specs.Values.{Values as Map};
ghost use Rattle.bw_run.specs.Code.{IsSound};
ghost use Rattle.bw_run.specs.Missing.{first_missing};
ghost use Rattle.bw_run.specs.Turns.{turned, IsTurn, StandsFor, receives_of, answered_frame};
ghost use Rattle.bw_run.specs.Walks.{number_at, stopped, IsSoundStop};
ghost use Rattle.bw_lang.specs.declared.turn.TheConstants.{BUDGET};

use crate::receiving::receive_all;
use crate::rests::Rests;
use crate::standing::Standing;
use crate::walk::{Stop, first_of, walk};
use bw_doc::Doc;
use bw_eval::Values;
use bw_flow::{Flow, PointId, Receiveds, What};
use bw_lang::turn::BUDGET;
use bw_lang::{SessionId, Submission, TurnFault};
use bw_out::Steps;
use bw_types::Typed;
use std::alloc::Global;
use std::sync::ledger::Ledger;

/// The shared variables of a service with their values, in order of declaration.
pub type SharedValues = Values;

/// Where a session waits: the show, the locals in scope there in order of declaration, and what is still to come of the
/// foreachs around it, the outermost first.
#[derive(Drop)]
pub struct Frame {
    pub point: PointId,
    pub locals: Values,
    pub rests: Rests,
}

/// How a turn ends: with a page and the frame at which its answer is awaited, or with the last page. In either case
/// with the shared variables.
#[derive(Drop)]
pub enum Turn {
    Shown(Frame, Doc, SharedValues),
    Exited(Doc, SharedValues),
}

/// The turn that stopped like this.
fn finished(stop: Stop, standing: Standing) -> Turn
    ensures turn { (flow : List Step) → turned flow (Ok result) standing.units ≡ stopped flow (Ok stop) standing }
    ensures sound { (templates : List Template) (flow : List Step) → IsSoundStop templates flow stop → IsSound templates standing →
        IsSoundTurn templates flow result }
{
    let Standing {
        locals,
        shared,
        rests,
        ..
    } = standing;
    match stop {
        Stop::Waits(point, doc) => Turn::Shown(
            Frame {
                point,
                locals,
                rests,
            },
            doc,
            shared,
        ),
        Stop::Ends(doc) => Turn::Exited(doc, shared),
    }
}

/// The place of the session's first point.
fn first_point(flow: &Flow, session: SessionId) -> PointId
    requires { IsSome (slice_get flow.now.firsts session) }
    ensures { slice_get flow.now.firsts session ≡ Some result }
{
    let Some(first) = flow.first(session) else {
        unreachable!()
    };
    first
}

/// A session's first turn, from these shared variables: exactly the turn that the meaning gives without inputs, or
/// `Memory` for want of it. The counter rises by the turn's cost, after `Memory` by at most 100,000, and never falls. The
/// frame and the shared variables that it gives are fit.
pub fn start<L: Ledger>(
    alloc: Global,
    typed: &Typed,
    flow: &Flow,
    session: SessionId,
    shared: &SharedValues,
    steps: &mut Steps<L>,
) -> Result<Turn, TurnFault>
    requires flow { flow.now ≡ plan_of typed.now.service }
    requires session { session < length typed.now.service.sessions }
    requires shared { AreShared typed.now.service shared.now }
    ensures turn { HasMemory result → IsTurn flow.now.steps result steps.old steps.new (meaning.turn typed.now.service session (values shared.now) []) }
    ensures cost { steps.new ≤ steps.old + BUDGET }
    ensures least { steps.old ≤ steps.new }
    ensures fit { IfOk result (IsFitTurn typed.now.service flow.now.steps) }
{
    let first = first_point(flow, session);
    let mut standing = Standing {
        locals: Values::new(alloc),
        shared: shared.copy()?,
        rests: Rests::new(alloc),
        units: BUDGET as u32,
    };
    match walk(alloc, typed, flow, first, &mut standing, steps) {
        Err(fault) => Err(fault),
        Ok(stop) => Ok(finished(stop, standing)),
    }
}

/// What a show receives.
fn receives_of(what: &What) -> Option<&Receiveds>
    ensures { MatchOption result (is_show (act what.now) ≡ false) (λ r. (is_show (act what.now) ≡ true) × (fields_of (act what.now) ≡ r.now)) }
{
    match what {
        What::Show { receives, .. } => Some(receives),
        _ => None,
    }
}

/// A session's next turn, from the frame at which it waits: exactly what the meaning goes on with from the frame's show,
/// locals and rests over this form, or `Memory` for want of it. So for each session and all inputs after which it waits
/// at this frame, it is the session's turn over one input more. The counter rises by the turn's cost, after `Memory` by at
/// most 100,000, and never falls. The frame and the shared variables that it gives are fit.
pub fn resume<L: Ledger>(
    typed: &Typed,
    flow: &Flow,
    frame: &Frame,
    form: &Submission,
    shared: &SharedValues,
    steps: &mut Steps<L>,
) -> Result<Turn, TurnFault>
    requires flow { flow.now ≡ plan_of typed.now.service }
    requires frame { IsFrame typed.now.service flow.now.steps frame.now }
    requires missing { first_missing (receives_of flow.now.steps frame.now) form.now ≡ None }
    requires shared { AreShared typed.now.service shared.now }
    ensures turn { HasMemory result → (session : ℕ) → IsOf typed.now.service session (number_at flow.now.steps frame.now.point) →
        IsTurn flow.now.steps result steps.old steps.new
        (meaning.go_on typed.now.service session (answered_frame flow.now.steps frame.now form.now shared.now)) }
    ensures inputs { HasMemory result → (session : ℕ) (first : Map) (inputs : List Input) →
        StandsFor typed.now.service flow.now.steps frame.now session first inputs →
        IsTurn flow.now.steps result steps.old steps.new
        (meaning.turn typed.now.service session first (inputs ++ record { form = form.now; shared = values shared.now } ∷ [])) }
    ensures cost { steps.new ≤ steps.old + BUDGET }
    ensures least { steps.old ≤ steps.new }
    ensures fit { IfOk result (IsFitTurn typed.now.service flow.now.steps) }
{
    let Some(point) = flow.point(frame.point) else {
        unreachable!()
    };
    let Some(receives) = receives_of(&point.what) else {
        unreachable!()
    };
    let alloc = frame.rests.alloc();
    let mut standing = Standing {
        locals: frame.locals.copy()?,
        shared: shared.copy()?,
        rests: frame.rests.copy()?,
        units: BUDGET as u32,
    };
    receive_all(alloc, receives.as_slice(), form, &mut standing)?;
    let next = first_of(point.next.as_slice());
    match walk(alloc, typed, flow, next, &mut standing, steps) {
        Err(fault) => Err(fault),
        Ok(stop) => Ok(finished(stop, standing)),
    }
}
