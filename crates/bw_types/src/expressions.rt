//! The kinds of expressions.
ghost use Rattle.std.specs.Prelude.{◌≡◌, Some, IfOk, IfErr, OnOk, []};
ghost use Rattle.bw_lang.specs.Service.Term.{binary, no_more, filling};
ghost use Rattle.bw_lang.specs.Service.TermView.{term};
ghost use Rattle.bw_types.specs.ExpressionFaults as spec;
ghost use Rattle.bw_types.specs.First.{IsFirst};
ghost use Rattle.bw_types.specs.Gaps.{kind_of_gap};
ghost use Rattle.bw_types.specs.Scopes.{name_kind};

use crate::fault::{GapKind, TypeFault};
use crate::kinds::{
    demand, demand_left, demand_of_gap, demand_right, fun_gives, fun_takes, op_kind,
};
use crate::locals::Locals;
use crate::names::Names;
use bw_lang::{Expr, Kind, Name, Op, Pair, Pairs, Part};

impl Names<'_> {
    /// The kind of an expression, or the first of its faults.
    #[cycle(expr)]
    pub fn expr(&self, locals: &Locals, expr: &Expr) -> Result<Kind, TypeFault>
        ensures none { OnOk result (spec.faults_in self.now.service.now locals.now (term expr.now) ≡ []) }
        ensures kind { IfOk result (λ k. spec.kind_of self.now.service.now locals.now (term expr.now) ≡ Some k) }
        ensures first { IfErr result (λ e. IsFirst e (spec.faults_in self.now.service.now locals.now (term expr.now))) }
    {
        match expr {
            Expr::Int(_) => Ok(Kind::Int),
            Expr::Bool(_) => Ok(Kind::Bool),
            Expr::Str(_) => Ok(Kind::Str),
            Expr::Nothing => Ok(Kind::Strs),
            Expr::Name(name) => self.name(locals, name),
            Expr::Paren(part) => self.expr(locals, part.expr()),
            Expr::Not(part) => self.part(locals, Kind::Bool, part),
            Expr::Neg(part) => self.part(locals, Kind::Int, part),
            Expr::Binary { op, left, right } => self.binary(locals, *op, left, right),
            Expr::Call { fun, arg } => {
                self.part(locals, fun_takes(*fun), arg)?;
                Ok(fun_gives(*fun))
            }
            Expr::Plug { base, pairs } => {
                self.part(locals, Kind::Html, base)?;
                self.pairs(locals, pairs)?;
                Ok(Kind::Html)
            }
        }
    }

    /// The kind of what a name stands for. `Unknown` where it stands for nothing.
    fn name(&self, locals: &Locals, name: &Name) -> Result<Kind, TypeFault>
        ensures none { OnOk result (spec.name_unknown name.now (name_kind self.now.service.now locals.now name.now) ≡ []) }
        ensures kind { IfOk result (λ k. name_kind self.now.service.now locals.now name.now ≡ Some k) }
        ensures first { IfErr result (λ e. IsFirst e (spec.name_unknown name.now (name_kind self.now.service.now locals.now name.now))) }
    {
        match self.name_kind(locals, name.as_str()) {
            Some(kind) => Ok(kind),
            None => Err(TypeFault::Unknown(name.copy()?)),
        }
    }

    /// A part of this kind is demanded, which is answered back.
    #[cycle(expr)]
    fn part(&self, locals: &Locals, kind: Kind, part: &Part) -> Result<Kind, TypeFault>
        ensures none { OnOk result (spec.wanted self.now.service.now locals.now kind part.now ≡ []) }
        ensures kind { IfOk result (λ k. k ≡ kind) }
        ensures first { IfErr result (λ e. IsFirst e (spec.wanted self.now.service.now locals.now kind part.now)) }
    {
        let found = self.expr(locals, part.expr())?;
        demand(kind, found)?;
        Ok(kind)
    }

    /// The kind of an operator's result.
    #[cycle(expr)]
    fn binary(&self, locals: &Locals, op: Op, left: &Part, right: &Part) -> Result<Kind, TypeFault>
        ensures none { OnOk result (spec.faults_in self.now.service.now locals.now (binary op left.now right.now) ≡ []) }
        ensures kind { IfOk result (λ k. spec.kind_of self.now.service.now locals.now (binary op left.now right.now) ≡ Some k) }
        ensures first { IfErr result (λ e. IsFirst e (spec.faults_in self.now.service.now locals.now (binary op left.now right.now))) }
    {
        let left_kind = self.expr(locals, left.expr())?;
        demand_left(op, left_kind)?;
        let right_kind = self.expr(locals, right.expr())?;
        demand_right(op, left_kind, right_kind)?;
        Ok(op_kind(op, left_kind))
    }

    /// The tests of the pairs of a plug.
    #[tactic(auto, using(crate::proofs::Pairs::pair_size_at_read))]
    #[cycle(expr)]
    fn pairs(&self, locals: &Locals, pairs: &Pairs) -> Result<(), TypeFault>
        ensures none { OnOk result (spec.faults_in_pairs self.now.service.now locals.now pairs.now ≡ []) }
        ensures first { IfErr result (λ e. IsFirst e (spec.faults_in_pairs self.now.service.now locals.now pairs.now)) }
    {
        for pair in pairs.as_slice() {
            self.pair(locals, pair)?;
        }
        Ok(())
    }

    /// The tests of one pair: a template has the gap, and the gap takes the value.
    #[cycle(expr)]
    fn pair(&self, locals: &Locals, pair: &Pair) -> Result<(), TypeFault>
        ensures none { OnOk result (spec.faults_in_pairs self.now.service.now locals.now (filling pair.now.gap (term pair.now.value) no_more) ≡ []) }
        ensures first { IfErr result (λ e. IsFirst e (spec.faults_in_pairs self.now.service.now locals.now
            (filling pair.now.gap (term pair.now.value) no_more))) }
    {
        let gap = self.gap(&pair.gap)?;
        let found = self.expr(locals, &pair.value)?;
        demand_of_gap(gap, found)
    }

    /// The kind of a gap. `Unknown` where no template has one of that name.
    fn gap(&self, name: &Name) -> Result<GapKind, TypeFault>
        ensures none { OnOk result (spec.gap_unknown name.now (kind_of_gap self.now.service.now name.now) ≡ []) }
        ensures kind { IfOk result (λ g. kind_of_gap self.now.service.now name.now ≡ Some g) }
        ensures first { IfErr result (λ e. IsFirst e (spec.gap_unknown name.now (kind_of_gap self.now.service.now name.now))) }
    {
        match self.gap_kind(name.as_str()) {
            Some(kind) => Ok(kind),
            None => Err(TypeFault::Unknown(name.copy()?)),
        }
    }

    /// An expression of this kind is demanded.
    pub fn wanted(&self, locals: &Locals, kind: Kind, expr: &Expr) -> Result<(), TypeFault>
        ensures none { OnOk result (spec.wanted self.now.service.now locals.now kind (term expr.now) ≡ []) }
        ensures first { IfErr result (λ e. IsFirst e (spec.wanted self.now.service.now locals.now kind (term expr.now))) }
    {
        let found = self.expr(locals, expr)?;
        demand(kind, found)
    }
}
