//! Evaluation of expressions.
ghost use Rattle.std.specs.Prelude.{◌≡◌, ◌+◌, ◌≤◌, IfOk, Ok, pos, unwrap_or};
ghost use Rattle.bw_lang.specs.Service.TermView.{term};
ghost use Rattle.bw_meaning.specs.Expressions as spec;
ghost use Rattle.bw_meaning.specs.Values.{number, template_value};
ghost use Rattle.bw_typed.specs.ShortStrings.{HasShort, HaveShort};
ghost use Rattle.bw_eval.specs.Bases.{HasBases, HaveBases, IsDocument};
ghost use Rattle.bw_eval.specs.Evaluations.{evaluated, HasMemory};
ghost use Rattle.bw_eval.specs.Sound.{IsSound, AreSound};
ghost use Rattle.bw_eval.specs.View.{value, values, resulted};

use crate::operators::{called, combined, decides, negation};
use crate::units::take_unit;
use crate::value::Value;
use crate::values::Values;
use bw_doc::Doc;
use bw_lang::{Expr, Name, Pairs, TurnFault, Words};
use bw_out::Steps;
use bw_types::Typed;
use std::alloc::Global;
use std::sync::ledger::Ledger;

/// What an expression sees: its service, the locals in scope and the shared variables.
#[derive(Drop)]
pub struct Scene<'a> {
    pub typed: &'a Typed,
    pub locals: &'a Values,
    pub shared: &'a Values,
}

impl Scene<'_> {
    /// The document of the template of that name. In a typed service each name that is no variable's is a template's;
    /// another one counts as 0.
    fn template(&self, name: &Name) -> Result<Value, TurnFault>
        ensures value { HasMemory result → resulted result ≡ Ok (unwrap_or (template_value self.now.typed.now.service name.now) (number (pos 0))) }
        ensures sound { IfOk result (IsSound self.now.typed.now.service.templates) }
    {
        match self.typed.template(name.as_str()) {
            Some(template) => Ok(Value::Html(Doc::constant(self.typed, template)?)),
            None => Ok(Value::Int(0)),
        }
    }

    /// The value of what a name stands for.
    fn named(&self, name: &Name) -> Result<Value, TurnFault>
        requires locals { AreSound self.now.typed.now.service.templates self.now.locals.now }
        requires shared { AreSound self.now.typed.now.service.templates self.now.shared.now }
        ensures value { HasMemory result → resulted result ≡ Ok (
            spec.named self.now.typed.now.service (values self.now.locals.now) (values self.now.shared.now) name.now) }
        ensures sound { IfOk result (IsSound self.now.typed.now.service.templates) }
    {
        if let Some(v) = self.locals.get(name) {
            return Ok(v.copy()?);
        }
        if let Some(v) = self.shared.get(name) {
            return Ok(v.copy()?);
        }
        self.template(name)
    }

    /// The value of an expression, or its fault, and the units left: each node takes a unit as it begins, which is a
    /// step. Each plug goes into a document, as in a service that is well typed, so the fault is `Memory` only for want
    /// of it.
    #[cycle(eval)]
    pub fn eval<L: Ledger>(
        &self,
        alloc: Global,
        expr: &Expr,
        units: &mut u32,
        steps: &mut Steps<L>,
    ) -> Result<Value, TurnFault>
        requires short { HasShort (term expr.now) }
        requires bases { HasBases self.now.typed.now.service (values self.now.locals.now) (values self.now.shared.now) (term expr.now) }
        requires locals { AreSound self.now.typed.now.service.templates self.now.locals.now }
        requires shared { AreSound self.now.typed.now.service.templates self.now.shared.now }
        ensures value { HasMemory result → evaluated result units.new ≡
            spec.eval self.now.typed.now.service (values self.now.locals.now) (values self.now.shared.now) (term expr.now) units.old }
        ensures steps { steps.new + units.new ≡ steps.old + units.old }
        ensures left { units.new ≤ units.old }
        ensures sound { IfOk result (IsSound self.now.typed.now.service.templates) }
    {
        take_unit(units, steps)?;
        match expr {
            Expr::Int(n) => Ok(Value::Int(*n)),
            Expr::Bool(b) => Ok(Value::Bool(*b)),
            Expr::Str(s) => Ok(Value::Str(s.copy()?)),
            Expr::Nothing => Ok(Value::Strs(Words::new(alloc))),
            Expr::Name(name) => self.named(name),
            Expr::Paren(part) => self.eval(alloc, part.expr(), units, steps),
            Expr::Not(part) => {
                let v = self.eval(alloc, part.expr(), units, steps)?;
                Ok(Value::Bool(!v.truth()))
            }
            Expr::Neg(part) => {
                let v = self.eval(alloc, part.expr(), units, steps)?;
                negation(v.number())
            }
            Expr::Binary { op, left, right } => {
                let v = self.eval(alloc, left.expr(), units, steps)?;
                if decides(*op, &v) {
                    return Ok(v);
                }
                let w = self.eval(alloc, right.expr(), units, steps)?;
                combined(alloc, *op, &v, w)
            }
            Expr::Call { fun, arg } => {
                let v = self.eval(alloc, arg.expr(), units, steps)?;
                called(alloc, *fun, &v)
            }
            Expr::Plug { base, pairs } => {
                let v = self.eval(alloc, base.expr(), units, steps)?;
                self.fill(alloc, v, pairs, units, steps)
            }
        }
    }

    /// A document with its gaps filled, one pair after the other.
    #[cycle(eval)]
    fn fill<L: Ledger>(
        &self,
        alloc: Global,
        base: Value,
        pairs: &Pairs,
        units: &mut u32,
        steps: &mut Steps<L>,
    ) -> Result<Value, TurnFault>
        requires short { HaveShort pairs.now }
        requires bases { HaveBases self.now.typed.now.service (values self.now.locals.now) (values self.now.shared.now) pairs.now }
        requires base { IsSound self.now.typed.now.service.templates base }
        requires document { IsDocument (value base) }
        requires locals { AreSound self.now.typed.now.service.templates self.now.locals.now }
        requires shared { AreSound self.now.typed.now.service.templates self.now.shared.now }
        ensures value { HasMemory result → evaluated result units.new ≡
            spec.fill self.now.typed.now.service (values self.now.locals.now) (values self.now.shared.now) pairs.now (value base) units.old }
        ensures steps { steps.new + units.new ≡ steps.old + units.old }
        ensures left { units.new ≤ units.old }
        ensures sound { IfOk result (IsSound self.now.typed.now.service.templates) }
    {
        let mut filled = base;
        for pair in pairs.as_slice() {
            let v = self.eval(alloc, &pair.value, units, steps)?;
            let gap = self.typed.service().gaps.number(pair.gap.as_str());
            filled = filled.filled(gap, &v)?;
        }
        Ok(filled)
    }
}
