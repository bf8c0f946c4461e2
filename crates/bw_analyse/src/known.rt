//! What is known of expressions.
ghost use Rattle.std.specs.Prelude.{◌≡◌, IfOk, MatchOption, None, Some};
ghost use Rattle.bw_lang.specs.Service.TermView.{term};
ghost use Rattle.bw_types.specs.Scopes.{template_of};
ghost use Rattle.bw_analyse.specs.declared.abstracts.Abstract.TheVariants.{Nothing, Html};
ghost use Rattle.bw_analyse.specs.Known as spec;
ghost use Rattle.bw_analyse.specs.Known.{of_local, of_shared, constant_at, one_string, look, known_filled};

use crate::abstracts::Abstract;
use crate::ground::Ground;
use crate::plugging::Plugging;
use bw_flow::Scope;
use bw_lang::{Expr, Fun, Memory, Name, Op, Pairs, Text};
use bw_solve::Set;
use bw_strings::StrSet;
use bw_sum::Summary;
use std::alloc::Global;

/// What an expression sees: its service, the locals in scope, and what is known of these and of the shared variables.
#[derive(Drop)]
pub struct Scene<'a, 'b, 'c> {
    pub ground: &'b Ground<'a>,
    pub scope: &'a Scope,
    pub locals: &'c [Abstract],
    pub shared: &'c [Abstract],
}

/// What is known of what an operator gives, by what is known of its left side: a sum of strings may be any string.
pub fn combined(op: Op, left: &Abstract) -> Abstract
    ensures { result ≡ spec.combined_by op left.now }
{
    match (op, left) {
        (Op::Add, Abstract::Str(_)) => Abstract::Str(StrSet::Any),
        _ => Abstract::Nothing,
    }
}

/// What is known of what a function gives.
pub fn called(fun: Fun) -> Abstract
    ensures { result ≡ spec.called_by fun }
{
    match fun {
        Fun::Text => Abstract::Str(StrSet::Any),
        Fun::Number | Fun::IsNumber | Fun::Count => Abstract::Nothing,
    }
}

impl Ground<'_> {
    /// The one string of a literal.
    pub fn string(&self, alloc: Global, text: &Text) -> Result<Abstract, Memory>
        ensures { IfOk result (λ a. a ≡ one_string self.now.typed.now.service text.now) }
    {
        let one = Set::of(alloc, self.literals.number(text.as_str()))?;
        Ok(Abstract::Str(StrSet::Of(one)))
    }

    /// The summary of the template of that name, if there is one.
    pub fn constant(&self, name: &Name) -> Option<&Summary>
        ensures { MatchOption result
            (constant_at self.now.typed.now.service (template_of self.now.typed.now.service name.now) ≡ Nothing)
            (λ s. constant_at self.now.typed.now.service (template_of self.now.typed.now.service name.now) ≡ Html s.now) }
    {
        match self.typed.template(name.as_str()) {
            Some(template) => self.constants.get(template.number() as usize),
            None => None,
        }
    }

    /// The documents of the template of that name. Nothing is known of a name that stands for nothing.
    pub fn template(&self, alloc: Global, name: &Name) -> Result<Abstract, Memory>
        ensures { IfOk result (λ a. a ≡ constant_at self.now.typed.now.service (template_of self.now.typed.now.service name.now)) }
    {
        match self.constant(name) {
            Some(summary) => Ok(Abstract::Html(summary.copy(alloc)?)),
            None => Ok(Abstract::Nothing),
        }
    }
}

impl Scene<'_, '_, '_> {
    /// What is known of the local of that name, if it is in scope.
    pub fn local(&self, name: &Name) -> Option<&Abstract>
        ensures { MatchOption result (of_local self.now.scope.now self.now.locals.now name.now ≡ None)
            (λ a. of_local self.now.scope.now self.now.locals.now name.now ≡ Some a.now) }
    {
        let name = name.as_str();
        for (place, local) in self.scope.as_slice().iter().enumerate() {
            if name == local.name.as_str() {
                return self.locals.get(place);
            }
        }
        None
    }

    /// What is known of the shared variable of that name, if there is one.
    pub fn shared(&self, name: &Name) -> Option<&Abstract>
        ensures { MatchOption result (of_shared self.now.ground.now.typed.now.service.shared self.now.shared.now name.now ≡ None)
            (λ a. of_shared self.now.ground.now.typed.now.service.shared self.now.shared.now name.now ≡ Some a.now) }
    {
        let name = name.as_str();
        let variables = self.ground.typed.service().shared.as_slice();
        for (place, variable) in variables.iter().enumerate() {
            if name == variable.name.as_str() {
                return self.shared.get(place);
            }
        }
        None
    }

    /// What is known of what a name stands for.
    pub fn named(&self, alloc: Global, name: &Name) -> Result<Abstract, Memory>
        ensures { IfOk result (λ a. a ≡
            look self.now.ground.now.typed.now.service self.now.scope.now self.now.locals.now self.now.shared.now name.now) }
    {
        if let Some(value) = self.local(name) {
            return value.copy(alloc);
        }
        if let Some(value) = self.shared(name) {
            return value.copy(alloc);
        }
        self.ground.template(alloc, name)
    }

    /// What is known of an expression's value.
    #[cycle(known)]
    pub fn known(&self, alloc: Global, expr: &Expr) -> Result<Abstract, Memory>
        ensures { IfOk result (λ a. a ≡ spec.known self.now.ground.now.typed.now.service
            (look self.now.ground.now.typed.now.service self.now.scope.now self.now.locals.now self.now.shared.now) (term expr.now)) }
    {
        match expr {
            Expr::Int(_) | Expr::Bool(_) | Expr::Nothing | Expr::Not(_) | Expr::Neg(_) => {
                Ok(Abstract::Nothing)
            }
            Expr::Str(text) => self.ground.string(alloc, text),
            Expr::Name(name) => self.named(alloc, name),
            Expr::Paren(part) => self.known(alloc, part.expr()),
            Expr::Binary { op, left, .. } => {
                let left = self.known(alloc, left.expr())?;
                let sum = combined(*op, &left);
                drop(left);
                Ok(sum)
            }
            Expr::Call { fun, .. } => Ok(called(*fun)),
            Expr::Plug { base, pairs } => {
                let base = self.known(alloc, base.expr())?;
                self.filled(alloc, base, pairs)
            }
        }
    }

    /// What is known of a document with its gaps filled, one pair after the other.
    #[cycle(known)]
    fn filled(&self, alloc: Global, base: Abstract, pairs: &Pairs) -> Result<Abstract, Memory>
        ensures { IfOk result (λ a. a ≡ known_filled self.now.ground.now.typed.now.service
            (look self.now.ground.now.typed.now.service self.now.scope.now self.now.locals.now self.now.shared.now) pairs.now base) }
    {
        let mut filled = Plugging::of(alloc, base);
        for pair in pairs.as_slice() {
            let Ok(value) = self.known(alloc, &pair.value) else {
                drop(filled);
                return Err(Memory);
            };
            let gap = self.ground.typed.service().gaps.number(pair.gap.as_str());
            let more = filled.plug(alloc, gap, &value);
            drop(value);
            filled = more?;
        }
        filled.done(alloc)
    }
}
