//! Documents, and the turns of a session.
ghost use Rattle.std.specs.Prelude.{◌≡◌, ℕ, IfOk, None};
ghost use Rattle.bw_doc.specs.Made.{tree};
ghost use Rattle.bw_doc.specs.Sheets.{page_of};
ghost use Rattle.bw_eval.specs.Evaluations.{HasMemory};
ghost use Rattle.bw_flow.specs.Layout.{plan_of};
ghost use Rattle.bw_lang.specs.Document.Print.{print};
ghost use Rattle.bw_meaning.specs.GoOn as meaning;
ghost use Rattle.bw_run.specs.Fit.{IsFrame, AreShared};
ghost use Rattle.bw_run.specs.Follow.Laws.{IsOf};
ghost use Rattle.bw_run.specs.Missing.{first_missing};
ghost use Rattle.bw_run.specs.Turns.{IsTurn, receives_of, answered_frame};
ghost use Rattle.bw_run.specs.Walks.{number_at};

use bw_doc::{Doc, Sheet};
use bw_flow::Flow;
use bw_lang::{Memory, Name, Submission, Text, TurnFault};
use bw_out::Steps;
use bw_run::{FieldFault, Frame, SharedValues, Turn};
use bw_types::Typed;
use std::alloc::Global;
use std::sync::ledger::Ledger;

/// The page of a document: a string is sent as a string, and not as markup.
pub fn sheet(
    _alloc: Global,
    doc: &Doc,
    title: &Name,
    target: Option<&Text>,
) -> Result<Sheet, Memory>
    ensures { IfOk result (λ sheet. sheet ≡ print (page_of title.now target.entry (tree doc.now))) }
{
    doc.sheet(title, target)
}

/// What a form lacks of the fields that its show receives.
pub fn missing(flow: &Flow, frame: &Frame, form: &Submission) -> Option<FieldFault>
    ensures { result ≡ first_missing (receives_of flow.now.steps frame.now) form.now }
{
    bw_run::missing(flow, frame, form)
}

/// The next turn of a session: where it goes on, and the shared variables that it is shown.
pub fn resume<L: Ledger>(
    typed: &Typed,
    flow: &Flow,
    frame: &Frame,
    form: &Submission,
    shared: &SharedValues,
    steps: &mut Steps<L>,
) -> Result<Turn, TurnFault>
    requires flow { flow.now ≡ plan_of typed.now.service }
    requires frame { IsFrame typed.now.service flow.now.steps frame.now }
    requires missing { first_missing (receives_of flow.now.steps frame.now) form.now ≡ None }
    requires shared { AreShared typed.now.service shared.now }
    ensures turn { HasMemory result → (session : ℕ) → IsOf typed.now.service session (number_at flow.now.steps frame.now.point) →
        IsTurn flow.now.steps result steps.old steps.new
        (meaning.go_on typed.now.service session (answered_frame flow.now.steps frame.now form.now shared.now)) }
{
    bw_run::resume(typed, flow, frame, form, shared, steps)
}
