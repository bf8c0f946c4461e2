//! What a turn works on.
ghost use Rattle.std.specs.Prelude.{◌≡◌, ◌+◌, ◌<◌, ◌≤◌, IfOk, List};
ghost use Rattle.bw_doc.specs.Operations.{IsOf};
ghost use Rattle.bw_eval.specs.Bases.{IsDocument, GivesDocuments};
ghost use Rattle.bw_eval.specs.Evaluations.{HasMemory};
ghost use Rattle.bw_eval.specs.Sound.{IsSound as IsKept};
ghost use Rattle.bw_eval.specs.View.{value, values};
ghost use Rattle.bw_run.specs.Follow.Runs.{cut};
ghost use Rattle.bw_lang.specs.declared.service.Template.{Template};
ghost use Rattle.bw_lang.specs.Service.TermView.{term};
ghost use Rattle.bw_meaning.specs.States.{State, Outcome};
ghost use Rattle.bw_meaning.specs.Statements as spec;
ghost use Rattle.bw_meaning.specs.Values as meaning;
ghost use Rattle.bw_run.specs.Code.{state, begun, begun_document, IsSound, CanEvaluate, CanShow};

use crate::rests::Rests;
use bw_doc::Doc;
use bw_eval::{Scene, Value, Values, take_unit};
use bw_lang::{Expr, Name, TurnFault};
use bw_out::Steps;
use bw_types::Typed;
use std::alloc::Global;
use std::sync::ledger::Ledger;

/// The locals in scope, the shared variables, the rests and the units left.
#[derive(Drop)]
pub struct Standing {
    pub locals: Values,
    pub shared: Values,
    pub rests: Rests,
    pub units: u32,
}

/// Evaluates an expression.
pub fn evaluates<L: Ledger>(
    alloc: Global,
    typed: &Typed,
    expr: &Expr,
    standing: &mut Standing,
    steps: &mut Steps<L>,
) -> Result<Value, TurnFault>
    requires { CanEvaluate typed.now.service (term expr.now) standing.old }
    ensures value { (go : meaning.Value → State → Outcome) → HasMemory result →
        spec.with_value typed.now.service (term expr.now) (state standing.old) go ≡ begun result go (state standing.old) standing.new.units }
    ensures locals { standing.new.locals ≡ standing.old.locals }
    ensures shared { standing.new.shared ≡ standing.old.shared }
    ensures rests { standing.new.rests ≡ standing.old.rests }
    ensures steps { steps.new + standing.new.units ≡ steps.old + standing.old.units }
    ensures left { standing.new.units ≤ standing.old.units }
    ensures sound { IfOk result (IsKept typed.now.service.templates) }
{
    let scene = Scene {
        typed,
        locals: &standing.locals,
        shared: &standing.shared,
    };
    scene.eval(alloc, expr, &mut standing.units, steps)
}

/// Takes a unit, which is a step, and evaluates an expression.
pub fn begins<L: Ledger>(
    alloc: Global,
    typed: &Typed,
    expr: &Expr,
    standing: &mut Standing,
    steps: &mut Steps<L>,
) -> Result<Value, TurnFault>
    requires { CanEvaluate typed.now.service (term expr.now) standing.old }
    ensures value { (go : meaning.Value → State → Outcome) → HasMemory result →
        spec.begin typed.now.service (term expr.now) (state standing.old) go ≡ begun result go (state standing.old) standing.new.units }
    ensures locals { standing.new.locals ≡ standing.old.locals }
    ensures shared { standing.new.shared ≡ standing.old.shared }
    ensures rests { standing.new.rests ≡ standing.old.rests }
    ensures steps { steps.new + standing.new.units ≡ steps.old + standing.old.units }
    ensures paid { IfOk result (λ _. standing.new.units < standing.old.units) }
    ensures left { standing.new.units ≤ standing.old.units }
    ensures documents { GivesDocuments typed.now.service (values standing.old.locals) (values standing.old.shared) (term expr.now) →
        IfOk result (λ v. IsDocument (value v)) }
    ensures sound { IfOk result (IsKept typed.now.service.templates) }
{
    take_unit(&mut standing.units, steps)?;
    let scene = Scene {
        typed,
        locals: &standing.locals,
        shared: &standing.shared,
    };
    scene.eval(alloc, expr, &mut standing.units, steps)
}

/// Takes a unit, which is a step, and evaluates an expression whose values are documents.
pub fn begins_document<L: Ledger>(
    alloc: Global,
    typed: &Typed,
    expr: &Expr,
    standing: &mut Standing,
    steps: &mut Steps<L>,
) -> Result<Doc, TurnFault>
    requires { CanShow typed.now.service (term expr.now) standing.old }
    ensures value { (go : meaning.Value → State → Outcome) → HasMemory result →
        spec.begin typed.now.service (term expr.now) (state standing.old) go ≡ begun_document result go (state standing.old) standing.new.units }
    ensures locals { standing.new.locals ≡ standing.old.locals }
    ensures shared { standing.new.shared ≡ standing.old.shared }
    ensures rests { standing.new.rests ≡ standing.old.rests }
    ensures steps { steps.new + standing.new.units ≡ steps.old + standing.old.units }
    ensures paid { IfOk result (λ _. standing.new.units < standing.old.units) }
    ensures left { standing.new.units ≤ standing.old.units }
    ensures sound { IfOk result (IsOf typed.now.service.templates) }
{
    match begins(alloc, typed, expr, standing, steps)? {
        Value::Html(doc) => Ok(doc),
        Value::Int(_) | Value::Bool(_) | Value::Str(_) | Value::Strs(_) => unreachable!(),
    }
}

impl Standing {
    /// Only the first so many locals stay.
    #[tactic(auto, using(crate::proofs::Tidy::sound_cut))]
    pub fn cut(&mut self, count: usize)
        ensures state { state self.new ≡ cut count (state self.old) }
        ensures rests { self.new.rests ≡ self.old.rests }
        ensures units { self.new.units ≡ self.old.units }
        ensures sound { (templates : List Template) → IsSound templates self.old → IsSound templates self.new }
    {
        self.locals.truncate(count);
    }

    /// Stores a value in the local of that name or, where there is none, in the shared variable.
    #[tactic(auto, using(crate::proofs::Tidy::sound_local, crate::proofs::Tidy::sound_shared))]
    pub fn store(&mut self, name: &Name, new: Value)
        ensures state { state self.new ≡ spec.store name.now (value new) (state self.old) }
        ensures rests { self.new.rests ≡ self.old.rests }
        ensures units { self.new.units ≡ self.old.units }
        ensures sound { (templates : List Template) → IsSound templates self.old → IsKept templates new → IsSound templates self.new }
    {
        if self.locals.get(name).is_some() {
            self.locals.replace(name, new);
        } else {
            self.shared.replace(name, new);
        }
    }
}
