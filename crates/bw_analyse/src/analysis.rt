//! The analysis of a service.
ghost use Rattle.std.specs.Prelude.{◌≡◌, IfOk, IfErr};
ghost use Rattle.bw_flow.specs.Layout.{plan_of};
ghost use Rattle.bw_analyse.specs.Facts.{AreFacts};
ghost use Rattle.bw_analyse.specs.Least.{IsTooLarge, IsFault};
ghost use Rattle.bw_analyse.specs.Solutions.{IsSolution};
ghost use Rattle.bw_analyse.specs.declared.analysis.TheConstants.{MAX_MEMBERS};

use crate::equations::Equations;
use crate::facts::Facts;
use crate::fault::AnalyseFault;
use crate::ground::Ground;
use crate::rows::Row;
use crate::tables::constants_of;
use bw_flow::Flow;
use bw_solve::{Solution, SolveFault, solve};
use bw_strings::Literals;
use bw_types::Typed;
use std::alloc::Global;

/// The most members of the least solution of a service.
pub const MAX_MEMBERS: u64 = 2_000_000;

/// The least solution of a system, where it isn't too large.
fn least(alloc: Global, equations: &Equations<'_, '_>) -> Result<Solution<Row>, AnalyseFault>
    ensures solution { IfOk result (IsSolution equations.now.ground.now.typed.now.service) }
    ensures within { IfOk result (λ s. ¬ (IsTooLarge equations.now.ground.now.typed.now.service MAX_MEMBERS)) }
    ensures fault { IfErr result (IsFault equations.now.ground.now.typed.now.service) }
{
    match solve(alloc, equations, MAX_MEMBERS) {
        Ok(solution) => Ok(solution),
        Err(SolveFault::TooLarge(count)) => Err(AnalyseFault::TooLarge(count)),
        Err(SolveFault::Memory) => Err(AnalyseFault::Memory),
    }
}

/// The least solution of a service's system, where it isn't too large.
fn solved(alloc: Global, ground: &Ground<'_>) -> Result<Solution<Row>, AnalyseFault>
    ensures solution { IfOk result (IsSolution ground.now.typed.now.service) }
    ensures within { IfOk result (λ s. ¬ (IsTooLarge ground.now.typed.now.service MAX_MEMBERS)) }
    ensures fault { IfErr result (IsFault ground.now.typed.now.service) }
{
    let equations = Equations::of(alloc, ground)?;
    least(alloc, &equations)
}

/// The facts of a service that is read by this.
fn facts_of(alloc: Global, ground: &Ground<'_>) -> Result<Facts, AnalyseFault>
    ensures facts { IfOk result (AreFacts ground.now.typed.now.service) }
    ensures within { IfOk result (λ f. ¬ (IsTooLarge ground.now.typed.now.service MAX_MEMBERS)) }
    ensures fault { IfErr result (IsFault ground.now.typed.now.service) }
{
    let solution = solved(alloc, ground)?;
    Ok(Facts::of(alloc, ground, solution)?)
}

/// The facts of a service and its flow: the least solution of its system. `TooLarge` comes exactly where that has more
/// than 2,000,000 members, and `Memory` for want of it.
pub fn analyse(alloc: Global, typed: &Typed, flow: &Flow) -> Result<Facts, AnalyseFault>
    requires { flow.now ≡ plan_of typed.now.service }
    ensures facts { IfOk result (AreFacts typed.now.service) }
    ensures within { IfOk result (λ f. ¬ (IsTooLarge typed.now.service MAX_MEMBERS)) }
    ensures fault { IfErr result (IsFault typed.now.service) }
{
    let literals = Literals::of(alloc, typed.service())?;
    let constants = constants_of(alloc, typed)?;
    let ground = Ground {
        typed,
        literals: &literals,
        constants: &constants,
        points: flow.points(),
    };
    facts_of(alloc, &ground)
}
