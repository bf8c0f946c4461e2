//! The check.
ghost use Rattle.std.specs.Prelude.{◌≡◌, ◌≤◌, IfOk, IfErr};
ghost use Rattle.bw_analyse.specs.Facts.{AreFacts};
ghost use Rattle.bw_analyse.specs.Least.{IsTooLarge};
ghost use Rattle.bw_faults.specs.Lists.{Lists};
ghost use Rattle.bw_flow.specs.Layout.{plan_of, points};
ghost use Rattle.bw_check.specs.Accepts.{Accepts, HasNoList, IsAccepted, IsCheckFault};
ghost use Rattle.bw_check.specs.Findings.{AreFindings};
ghost use Rattle.bw_check.specs.Faults.{IsServiceFault};
ghost use Rattle.bw_schema.specs.declared.schema.Schema.{Schema};
ghost use Rattle.bw_flow.specs.declared.lowering.TheConstants.{MAX_POINTS};
ghost use Rattle.bw_analyse.specs.declared.analysis.TheConstants.{MAX_MEMBERS};

use crate::bench::{Bench, joined};
use crate::checked::Checked;
use crate::fault::CheckFault;
use crate::pieces::{judge_pieces, pieces_of};
use bw_analyse::{AnalyseFault, Facts, analyse, gap_faults};
use bw_faults::Faults;
use bw_flow::{Flow, FlowFault, lower};
use bw_lang::Memory;
use bw_out::Pulse;
use bw_schema::Schema;
use bw_shape::{Basis, Wrappers};
use bw_strings::Literals;
use bw_types::Typed;
use std::alloc::Global;
use std::thread::Threads;

/// All faults of a service, in their order.
fn faults_by<R: Threads + Sync, P: Pulse>(
    rt: &R,
    alloc: Global,
    bench: Bench<'_>,
    workers: u32,
    pulse: &P,
) -> Result<Faults, Memory>
    requires facts { AreFacts bench.basis.now.typed.now.service bench.facts.now }
    ensures { IfOk result (Lists (IsServiceFault bench.entry.basis.now.typed.now.service bench.entry.basis.now.schema.now bench.entry.facts.now)) }
{
    let pieces = pieces_of(alloc, bench.flow)?;
    let pages = judge_pieces(rt, alloc, bench, pulse, pieces.as_slice(), workers);
    drop(pieces);
    match pages {
        Ok(faults) => match gap_faults(alloc, bench.basis.typed, bench.flow, bench.facts) {
            Ok(gaps) => joined(faults, gaps),
            Err(Memory) => {
                drop(faults);
                Err(Memory)
            }
        },
        Err(Memory) => Err(Memory),
    }
}

/// All faults of a service by a schema, in their order. What each of its pages is judged by is made once.
fn faults_of<R: Threads + Sync, P: Pulse>(
    rt: &R,
    alloc: Global,
    typed: &Typed,
    flow: &Flow,
    facts: &Facts,
    schema: &Schema,
    workers: u32,
    pulse: &P,
) -> Result<Faults, Memory>
    requires lowered { flow.now ≡ plan_of typed.now.service }
    requires facts { AreFacts typed.now.service facts.now }
    ensures { IfOk result (Lists (IsServiceFault typed.now.service schema.now facts.now)) }
{
    let literals = Literals::of(alloc, typed.service())?;
    let wrappers = Wrappers::of(alloc, typed)?;
    let templates = wrappers.behind(typed);
    let basis = Basis {
        typed,
        literals: &literals,
        templates: &templates,
        schema,
    };
    let bench = Bench {
        basis: &basis,
        flow,
        facts,
    };
    faults_by(rt, alloc, bench, workers, pulse)
}

/// The flow of a service, or that it has too many points.
fn flow_of(alloc: Global, typed: &Typed) -> Result<Flow, CheckFault>
    ensures flow { IfOk result (λ f. (f ≡ plan_of typed.now.service) × (points typed.now.service.sessions ≤ MAX_POINTS)) }
    ensures fault { IfErr result (λ e. (schema : Schema) → IsCheckFault typed.now.service schema e) }
    ensures limit { IfErr result HasNoList }
{
    match lower(alloc, typed) {
        Ok(flow) => Ok(flow),
        Err(FlowFault::TooMany(points)) => Err(CheckFault::TooMany(points)),
        Err(FlowFault::Memory) => Err(CheckFault::Memory),
    }
}

/// The facts of a service, or that they are too large.
fn facts_of(alloc: Global, typed: &Typed, flow: &Flow) -> Result<Facts, CheckFault>
    requires lowered { flow.now ≡ plan_of typed.now.service }
    requires few { points typed.now.service.sessions ≤ MAX_POINTS }
    ensures facts { IfOk result (AreFacts typed.now.service) }
    ensures within { IfOk result (λ f. ¬ (IsTooLarge typed.now.service MAX_MEMBERS)) }
    ensures fault { IfErr result (λ e. (schema : Schema) → IsCheckFault typed.now.service schema e) }
    ensures limit { IfErr result HasNoList }
{
    match analyse(alloc, typed, flow) {
        Ok(facts) => Ok(facts),
        Err(AnalyseFault::TooLarge(members)) => Err(CheckFault::TooLarge(members)),
        Err(AnalyseFault::Memory) => Err(CheckFault::Memory),
    }
}

/// What is found of a service that keeps its limits.
#[derive(Drop)]
pub struct Findings {
    /// Its flow.
    pub flow: Flow,
    /// What is known of its variables and pages.
    pub facts: Facts,
    /// All its faults by the schema, in their order and without doubles. The service is accepted where there is none.
    pub faults: Faults,
}

/// Finds all faults of a service by a schema, as `check` does, which are lent: so what was found can be shown.
///
/// `TooMany` and `TooLarge` come exactly where the service is past these limits, in this order, `Memory` may come at any
/// place, and `Refused` never comes.
pub fn find_faults<R: Threads + Sync, P: Pulse>(
    rt: &R,
    alloc: Global,
    typed: &Typed,
    schema: &Schema,
    workers: u32,
    pulse: &P,
) -> Result<Findings, CheckFault>
    ensures found { IfOk result (AreFindings typed.now.service schema.now) }
    ensures fault { IfErr result (IsCheckFault typed.now.service schema.now) }
    ensures limit { IfErr result HasNoList }
{
    let flow = flow_of(alloc, typed)?;
    let facts = facts_of(alloc, typed, &flow)?;
    let faults = faults_of(rt, alloc, typed, &flow, &facts, schema, workers, pulse)?;
    Ok(Findings {
        flow,
        facts,
        faults,
    })
}

/// The flow and the facts of a service that is accepted by a schema, or why it isn't.
fn judged<R: Threads + Sync, P: Pulse>(
    rt: &R,
    alloc: Global,
    typed: &Typed,
    schema: &Schema,
    workers: u32,
    pulse: &P,
) -> Result<(Flow, Facts), CheckFault>
    ensures accepted { IfOk result (λ r. (r.0 ≡ plan_of typed.now.service) × IsAccepted typed.now.service schema.now r.1) }
    ensures fault { IfErr result (IsCheckFault typed.now.service schema.now) }
{
    let found = find_faults(rt, alloc, typed, schema, workers, pulse)?;
    let Findings {
        flow,
        facts,
        faults,
    } = found;
    if faults.len() > 0 {
        return Err(CheckFault::Refused(faults));
    }
    Ok((flow, facts))
}

/// Checks a service by a schema: it is accepted exactly where it has at most 4,096 points, its least solution has at most
/// 2,000,000 members, and it has no fault. Then what is known of it is kept with it.
///
/// The pieces are the pages of its shows and exits in source order, from 0. Up to `workers` of them are judged at once,
/// in threads of their own where these can be made; with 0 or 1 they are judged in turn. `pulse.at(k)` is called as piece
/// `k` begins. The answer is the same with any number of workers. Every refusal drops the service and the schema.
pub fn check<R: Threads + Sync, P: Pulse>(
    rt: &R,
    alloc: Global,
    typed: Typed,
    schema: Schema,
    workers: u32,
    pulse: &P,
) -> Result<Checked, CheckFault>
    ensures kept { IfOk result (λ c. (c.typed ≡ typed) × (c.schema ≡ schema)) }
    ensures accepted { IfOk result (λ c. Accepts typed.service schema) }
    ensures fault { IfErr result (IsCheckFault typed.service schema) }
{
    match judged(rt, alloc, &typed, &schema, workers, pulse) {
        Ok((flow, facts)) => Ok(Checked {
            typed,
            flow,
            facts,
            schema,
        }),
        Err(fault) => {
            drop(typed);
            drop(schema);
            Err(fault)
        }
    }
}
