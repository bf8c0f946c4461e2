//! What a point does.
ghost use Rattle.std.specs.Prelude.{◌≡◌, ◌+◌, ◌<◌, ◌≤◌, IfOk, OnOk, List};
ghost use Rattle.bw_eval.specs.Evaluations.{HasMemory};
ghost use Rattle.bw_eval.specs.Sound.{IsSound as IsKept};
ghost use Rattle.bw_eval.specs.View.{value};
ghost use Rattle.bw_flow.specs.declared.point.Received.{Received};
ghost use Rattle.bw_flow.specs.Scoped as names;
ghost use Rattle.bw_flow.specs.Steps as acts;
ghost use Rattle.bw_flow.specs.Steps.{Act, Step};
ghost use Rattle.bw_flow.specs.View.{seen, act};
ghost use Rattle.bw_run.specs.Follow.Runs as spec;
ghost use Rattle.bw_run.specs.Follow.Runs.{Next};
ghost use Rattle.bw_lang.specs.declared.service.Template.{Template};
ghost use Rattle.bw_lang.specs.Service.TermView.{term};
ghost use Rattle.bw_run.specs.Code.{state, stepped, AreShort, IsSound, StopsWell, CanEvaluate, CanShow, CanDo, Does};

use crate::ending::{exit_test, show_test};
use crate::rests::Rest;
use crate::standing::{Standing, begins, begins_document, evaluates};
use bw_doc::Doc;
use bw_eval::{Value, take_unit};
use bw_flow::{Point, Scope, What};
use bw_lang::{Expr, Memory, Name, TurnFault, Words};
use bw_out::Steps;
use bw_types::Typed;
use std::alloc::Global;
use std::sync::ledger::Ledger;

/// Where a session goes behind a point.
#[derive(Drop)]
pub enum Stepped {
    /// To the first of the points that come next.
    First,
    /// To the second one.
    Second,
    /// Nowhere yet: it waits with this document.
    Waits(Doc),
    /// Nowhere: it ends with this document.
    Ends(Doc),
}

/// The point where a turn is, in the flow of a typed service.
#[derive(Drop)]
struct Here<'a> {
    alloc: Global,
    typed: &'a Typed,
    point: &'a Point,
}

/// Whether the name is that of a local in scope or of a shared variable.
fn is_known(typed: &Typed, scope: &Scope, name: &Name) -> bool
    ensures { result ≡ names.is_known typed.now.service scope.now name.now }
{
    scope.kind(name).is_some() || typed.shared(name.as_str()).is_some()
}

/// A value for the variable of that name or, where there is none, for a new local.
#[tactic(auto, using(crate::proofs::Tidy::sound_added))]
fn put(
    typed: &Typed,
    scope: &Scope,
    name: &Name,
    new: Value,
    standing: &mut Standing,
) -> Result<(), Memory>
    requires sound { IsSound typed.now.service.templates standing.old }
    requires value { IsKept typed.now.service.templates new }
    ensures sound { OnOk result (IsSound typed.now.service.templates standing.new) }
    ensures state { OnOk result (state standing.new ≡
        spec.put typed.now.service scope.now name.now (value new) (state standing.old)) }
    ensures rests { standing.new.rests ≡ standing.old.rests }
    ensures units { standing.new.units ≡ standing.old.units }
{
    if is_known(typed, scope, name) {
        standing.store(name, new);
        return Ok(());
    }
    standing.locals.push(name.copy()?, new)
}

/// A turn of a foreach over these strings.
#[tactic(auto, using(crate::proofs::Tidy::sound_rules))]
fn go_over<L: Ledger>(
    name: &Name,
    mut strings: Rest,
    standing: &mut Standing,
    steps: &mut Steps<L>,
) -> Result<Stepped, TurnFault>
    ensures step { (x : Step) (next : Next) → HasMemory result →
        spec.go_over name.now strings x.next next standing.old.rests (state standing.old) ≡ stepped result x next standing.new }
    ensures steps { steps.new + standing.new.units ≡ steps.old + standing.old.units }
    ensures left { standing.new.units ≤ standing.old.units }
    ensures paid { IfOk result (λ _. standing.new.units < standing.old.units) }
    ensures stops { (templates : List Template) (a : Act) → IfOk result (StopsWell templates a) }
    ensures sound { (templates : List Template) → AreShort strings → IsSound templates standing.old → OnOk result (IsSound templates standing.new) }
{
    take_unit(&mut standing.units, steps)?;
    match strings.take_first()? {
        None => Ok(Stepped::Second),
        Some(string) => {
            standing.locals.push(name.copy()?, Value::Str(string))?;
            standing.rests.push(strings)?;
            Ok(Stepped::First)
        }
    }
}

/// Takes out the rest of the innermost foreach.
#[tactic(auto, using(crate::proofs::Tidy::sound_outer))]
fn own_rest(alloc: Global, standing: &mut Standing) -> Rest
    ensures rest { result ≡ spec.last_rest standing.old.rests }
    ensures rests { standing.new.rests ≡ spec.outer_rests standing.old.rests }
    ensures state { state standing.new ≡ state standing.old }
    ensures units { standing.new.units ≡ standing.old.units }
    ensures sound { (templates : List Template) → IsSound templates standing.old → AreShort result × IsSound templates standing.new }
{
    match standing.rests.pop() {
        Some(rest) => rest,
        None => Rest::of(Words::new(alloc)),
    }
}

impl Here<'_> {
    /// An assignment or a declaration.
    #[tactic(auto, using(crate::proofs::Tidy::sound_as))]
    fn assign<L: Ledger>(
        &self,
        name: &Name,
        expr: &Expr,
        standing: &mut Standing,
        steps: &mut Steps<L>,
    ) -> Result<Stepped, TurnFault>
        requires { CanEvaluate self.now.typed.now.service (term expr.now) standing.old }
        ensures { Does self.now.typed.now.service (acts.sets name.now (term expr.now)) (seen self.now.point.now)
            standing.old standing.new steps.old steps.new result }
    {
        let new = begins(self.alloc, self.typed, expr, standing, steps)?;
        put(self.typed, &self.point.scope, name, new, standing)?;
        Ok(Stepped::First)
    }

    /// The test of an `if` or a `while`.
    #[tactic(auto, using(crate::proofs::Tidy::sound_as))]
    fn test<L: Ledger>(
        &self,
        expr: &Expr,
        standing: &mut Standing,
        steps: &mut Steps<L>,
    ) -> Result<Stepped, TurnFault>
        requires { CanEvaluate self.now.typed.now.service (term expr.now) standing.old }
        ensures { Does self.now.typed.now.service (acts.tests (term expr.now)) (seen self.now.point.now) standing.old standing.new steps.old steps.new result }
    {
        if begins(self.alloc, self.typed, expr, standing, steps)?.truth() {
            Ok(Stepped::First)
        } else {
            Ok(Stepped::Second)
        }
    }

    /// A show, in a turn that has no input left.
    #[tactic(auto, using(crate::proofs::Tidy::sound_as))]
    fn show<L: Ledger>(
        &self,
        page: &Expr,
        standing: &mut Standing,
        steps: &mut Steps<L>,
    ) -> Result<Stepped, TurnFault>
        requires { CanShow self.now.typed.now.service (term page.now) standing.old }
        ensures { (rs : List Received) →
            Does self.now.typed.now.service (acts.shows (term page.now) rs) (seen self.now.point.now) standing.old standing.new steps.old steps.new result }
    {
        let doc = begins_document(self.alloc, self.typed, page, standing, steps)?;
        show_test(&doc, standing)?;
        Ok(Stepped::Waits(doc))
    }

    /// An exit.
    #[tactic(auto, using(crate::proofs::Tidy::sound_as))]
    fn exit<L: Ledger>(
        &self,
        page: &Expr,
        standing: &mut Standing,
        steps: &mut Steps<L>,
    ) -> Result<Stepped, TurnFault>
        requires { CanShow self.now.typed.now.service (term page.now) standing.old }
        ensures { Does self.now.typed.now.service (acts.exits (term page.now)) (seen self.now.point.now) standing.old standing.new steps.old steps.new result }
    {
        let doc = begins_document(self.alloc, self.typed, page, standing, steps)?;
        exit_test(&doc, &standing.shared)?;
        Ok(Stepped::Ends(doc))
    }

    /// A foreach: it is entered, or goes on with its rest.
    #[tactic(auto, using(crate::proofs::Tidy::sound_rules))]
    fn each<L: Ledger>(
        &self,
        name: &Name,
        expr: &Expr,
        standing: &mut Standing,
        steps: &mut Steps<L>,
    ) -> Result<Stepped, TurnFault>
        requires { CanEvaluate self.now.typed.now.service (term expr.now) standing.old }
        ensures { Does self.now.typed.now.service (acts.goes_over name.now (term expr.now)) (seen self.now.point.now)
            standing.old standing.new steps.old steps.new result }
    {
        if standing.rests.len() == self.point.inside as usize {
            let list = evaluates(self.alloc, self.typed, expr, standing, steps)?;
            let strings = Rest::of(list.into_list(self.alloc));
            return go_over(name, strings, standing, steps);
        }
        let strings = own_rest(self.alloc, standing);
        go_over(name, strings, standing, steps)
    }
}

/// What a point does.
pub fn step<L: Ledger>(
    alloc: Global,
    typed: &Typed,
    point: &Point,
    standing: &mut Standing,
    steps: &mut Steps<L>,
) -> Result<Stepped, TurnFault>
    requires { CanDo typed.now.service (act point.now.what) standing.old }
    ensures { Does typed.now.service (act point.now.what) (seen point.now) standing.old standing.new steps.old steps.new result }
{
    let here = Here {
        alloc,
        typed,
        point,
    };
    match &point.what {
        What::Assign { name, value } => here.assign(name, value, standing, steps),
        What::Test { test } => here.test(test, standing, steps),
        What::Each { name, value } => here.each(name, value, standing, steps),
        What::Show { page, .. } => here.show(page, standing, steps),
        What::Exit { page } => here.exit(page, standing, steps),
        What::Join => Ok(Stepped::First),
    }
}
