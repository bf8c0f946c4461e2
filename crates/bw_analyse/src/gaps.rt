//! The faults of plugs whose gap may be missing.
ghost use Rattle.std.specs.Prelude.{◌≡◌, IfOk, OnOk, MatchOption, None, Some, [], length};
ghost use Rattle.bw_faults.specs.Lists.{Lists};
ghost use Rattle.bw_flow.specs.Layout.{plan_of, flow_of};
ghost use Rattle.bw_flow.specs.View.{act};
ghost use Rattle.bw_lang.specs.Service.TermView.{term};
ghost use Rattle.bw_analyse.specs.Abstracts.{plugged_by};
ghost use Rattle.bw_lang.specs.Table.Names.{name_number};
ghost use Rattle.bw_analyse.specs.Facts.{AreFacts, rows_of};
ghost use Rattle.bw_analyse.specs.GapFaults.{lacks, term_of, gap_fault, IsGapFault};
ghost use Rattle.bw_analyse.specs.Known.{look, known, known_filled};
ghost use Rattle.bw_analyse.specs.Noting as spec;
ghost use Rattle.bw_analyse.specs.Noting.{noted_if, noted, noted_filled, noted_term, noted_all};

use crate::abstracts::Abstract;
use crate::facts::Facts;
use crate::ground::Ground;
use crate::known::{Scene, called, combined};
use crate::tables::constants_of;
use bw_faults::{Fault, Faults};
use bw_flow::{Flow, What};
use bw_lang::{Expr, GapId, Memory, Name, Pair, Pairs, Text};
use bw_strings::Literals;
use bw_types::Typed;
use std::alloc::Global;

impl Abstract {
    /// Whether some document of these may have no open gap of that number.
    fn lacks(&self, gap: GapId) -> bool
        ensures { result ≡ lacks self.now gap }
    {
        match self {
            Abstract::Html(summary) => summary.lacks.contains(&gap),
            Abstract::Nothing | Abstract::Str(_) => false,
        }
    }
}

/// The expression of a point that does this, if it has one.
fn expression(what: &What) -> Option<&Expr>
    ensures { MatchOption result (term_of (act what.now) ≡ None) (λ e. term_of (act what.now) ≡ Some (term e.now)) }
{
    match what {
        What::Assign { value, .. } | What::Each { value, .. } => Some(value),
        What::Test { test } => Some(test),
        What::Show { page, .. } | What::Exit { page } => Some(page),
        What::Join => None,
    }
}

/// Notes that in the statement of that number a gap may be missing, where it may be.
fn note_if(
    alloc: Global,
    missing: bool,
    statement: u32,
    gap: &Name,
    faults: &mut Faults,
) -> Result<(), Memory>
    ensures { OnOk result (faults.new ≡ noted_if missing statement gap.now faults.old) }
{
    if missing {
        let detail = Text::of(alloc, gap.as_str())?;
        faults.add(Fault {
            number: 11,
            point: statement,
            template: None,
            place: 0,
            detail,
        })?;
    }
    Ok(())
}

impl Scene<'_, '_, '_> {
    /// What is known of a document with one gap more filled, where it is noted if that gap may be missing.
    fn with_pair(
        &self,
        alloc: Global,
        base: &Abstract,
        pair: &Pair,
        value: &Abstract,
        statement: u32,
        faults: &mut Faults,
    ) -> Result<Abstract, Memory>
        ensures value { IfOk result (λ a. a ≡ plugged_by base.now (name_number self.now.ground.now.typed.now.service.gaps pair.now.gap) value.now) }
        ensures faults { OnOk result (faults.new ≡
            noted_if (lacks base.now (name_number self.now.ground.now.typed.now.service.gaps pair.now.gap)) statement pair.now.gap faults.old) }
    {
        let gap = self.ground.typed.service().gaps.number(pair.gap.as_str());
        note_if(alloc, base.lacks(gap), statement, &pair.gap, faults)?;
        base.plug(alloc, gap, value)
    }

    /// What is known of an expression's value, and of documents the gaps alone that they may lack. The gaps of its plugs
    /// that may be missing are noted as faults of the statement of that number.
    #[cycle(noted)]
    fn noted(
        &self,
        alloc: Global,
        expr: &Expr,
        statement: u32,
        faults: &mut Faults,
    ) -> Result<Abstract, Memory>
        ensures value { IfOk result (λ a. a ≡ known self.now.ground.now.typed.now.service
            (spec.bares self.now.ground.now.typed.now.service self.now.scope.now self.now.locals.now self.now.shared.now) (term expr.now)) }
        ensures faults { OnOk result (faults.new ≡ noted self.now.ground.now.typed.now.service
            (spec.bares self.now.ground.now.typed.now.service self.now.scope.now self.now.locals.now self.now.shared.now) statement (term expr.now) faults.old) }
    {
        match expr {
            Expr::Int(_) | Expr::Bool(_) | Expr::Nothing => Ok(Abstract::Nothing),
            Expr::Str(text) => self.ground.string(alloc, text),
            Expr::Name(name) => self.bare(alloc, name),
            Expr::Paren(part) => self.noted(alloc, part.expr(), statement, faults),
            Expr::Not(part) | Expr::Neg(part) => {
                drop(self.noted(alloc, part.expr(), statement, faults)?);
                Ok(Abstract::Nothing)
            }
            Expr::Call { fun, arg } => {
                drop(self.noted(alloc, arg.expr(), statement, faults)?);
                Ok(called(*fun))
            }
            Expr::Binary { op, left, right } => {
                let left = self.noted(alloc, left.expr(), statement, faults)?;
                let sum = combined(*op, &left);
                drop(left);
                match self.noted(alloc, right.expr(), statement, faults) {
                    Ok(right) => {
                        drop(right);
                        Ok(sum)
                    }
                    Err(Memory) => {
                        drop(sum);
                        Err(Memory)
                    }
                }
            }
            Expr::Plug { base, pairs } => {
                let value = self.noted(alloc, base.expr(), statement, faults)?;
                self.noted_pairs(alloc, value, pairs, statement, faults)
            }
        }
    }

    /// The same of a document with its gaps filled, one pair after the other.
    #[cycle(noted)]
    fn noted_pairs(
        &self,
        alloc: Global,
        base: Abstract,
        pairs: &Pairs,
        statement: u32,
        faults: &mut Faults,
    ) -> Result<Abstract, Memory>
        ensures value { IfOk result (λ a. a ≡ known_filled self.now.ground.now.typed.now.service
            (spec.bares self.now.ground.now.typed.now.service self.now.scope.now self.now.locals.now self.now.shared.now) pairs.now base) }
        ensures faults { OnOk result (faults.new ≡ noted_filled self.now.ground.now.typed.now.service
            (spec.bares self.now.ground.now.typed.now.service self.now.scope.now self.now.locals.now self.now.shared.now) statement pairs.now base faults.old) }
    {
        let mut filled = base;
        for pair in pairs.as_slice() {
            let Ok(value) = self.noted(alloc, &pair.value, statement, faults) else {
                drop(filled);
                return Err(Memory);
            };
            let more = self.with_pair(alloc, &filled, pair, &value, statement, faults);
            drop(filled);
            drop(value);
            filled = more?;
        }
        Ok(filled)
    }

    /// Notes the faults of a point that does this.
    fn note(
        &self,
        alloc: Global,
        what: &What,
        statement: u32,
        faults: &mut Faults,
    ) -> Result<(), Memory>
        ensures { OnOk result (faults.new ≡ noted_term self.now.ground.now.typed.now.service
            (look self.now.ground.now.typed.now.service self.now.scope.now self.now.locals.now self.now.shared.now) statement
            (term_of (act what.now)) faults.old) }
    {
        if let Some(expr) = expression(what) {
            self.noted(alloc, expr, statement, faults)?;
        }
        Ok(())
    }
}

/// The faults of all points, in their order.
fn faults_of(alloc: Global, ground: &Ground<'_>, facts: &Facts) -> Result<Faults, Memory>
    ensures { IfOk result (λ l. l ≡ noted_all ground.now.typed.now.service (rows_of facts.now)
        (rows_of facts.now (length (flow_of ground.now.typed.now.service))) 0 (flow_of ground.now.typed.now.service) []) }
{
    let mut faults = Faults::new(alloc);
    for (place, point) in ground.points.iter().enumerate() {
        let scene = ground.scene(place, point, facts.rows());
        scene.note(alloc, &point.what, point.number, &mut faults)?;
    }
    Ok(faults)
}

/// The faults of plugs whose base may have no open gap of their name, at all points, also at those that no run comes to:
/// each is number 11 at the plug's statement, and names the gap. They are in the order of faults, without doubles.
pub fn gap_faults(
    alloc: Global,
    typed: &Typed,
    flow: &Flow,
    facts: &Facts,
) -> Result<Faults, Memory>
    requires flow { flow.now ≡ plan_of typed.now.service }
    requires facts { AreFacts typed.now.service facts.now }
    ensures { IfOk result (Lists (IsGapFault typed.now.service facts.now)) }
{
    let literals = Literals::of(alloc, typed.service())?;
    let constants = constants_of(alloc, typed)?;
    let ground = Ground {
        typed,
        literals: &literals,
        constants: &constants,
        points: flow.points(),
    };
    faults_of(alloc, &ground, facts)
}
