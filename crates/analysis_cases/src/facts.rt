//! Cases of services and their facts. A case begins with the line `text PARTS`, a service, and asks by further lines,
//! each of which ends with the answer that it wants behind `=`:
//!
//! - `local POINT NAME = VALUE`: what is known of a local in front of the statement of that number
//! - `shared NAME = VALUE`: what is known of a shared variable
//! - `shown POINT = VALUE` and `page POINT = VALUE`: the documents of a show or an exit, and the graph of its page
//! - `faults = NUMBER GAP, ..`: at which statement which gap may be missing, or `none`
//!
//! The module `values` says how a value is written. Where there are too many members to answer, `too large` comes in
//! place of all questions.
ghost use Rattle.std.specs.Prelude.{◌≡◌};
ghost use Rattle.bw_flow.specs.Layout.{plan_of};
ghost use Rattle.bw_analyse.specs.Facts.{AreFacts};

mod answers;

use crate::facts::answers::Subject;
use bw_analyse::{AnalyseFault, Facts, analyse};
use bw_flow::Flow;
use bw_strings::Literals;
use bw_types::Typed;
use case_files::{Case, Fault, Texts, Verdict, flow_of, put_line, service_of};
use std::alloc::Global;

/// Tries a service.
pub fn try_case(alloc: Global, texts: &Texts<'_>, case: &Case<'_>) -> Result<Verdict, Fault> {
    let got = got(alloc, texts, case)?;
    Ok(Verdict::of(case.wanted(alloc, &["text"])?, got))
}

/// What comes of a case: its questions with what is answered.
fn got(alloc: Global, texts: &Texts<'_>, case: &Case<'_>) -> Result<String, Fault> {
    let typed = service_of(alloc, texts, case, "text")?;
    let got = got_of(alloc, case, &typed);
    drop(typed);
    got
}

/// The same, of this service.
fn got_of(alloc: Global, case: &Case<'_>, typed: &Typed) -> Result<String, Fault> {
    let flow = flow_of(alloc, typed)?;
    let got = got_over(alloc, case, typed, &flow);
    drop(flow);
    got
}

/// The same, where the service has this flow.
fn got_over(alloc: Global, case: &Case<'_>, typed: &Typed, flow: &Flow) -> Result<String, Fault>
    requires { flow.now ≡ plan_of typed.now.service }
{
    match analyse(alloc, typed, flow) {
        Ok(facts) => {
            let got = got_by(alloc, case, typed, flow, &facts);
            drop(facts);
            got
        }
        Err(AnalyseFault::TooLarge(_)) => Ok(String::from_str(alloc, "too large")?),
        Err(AnalyseFault::Memory) => Err(Fault::Memory),
    }
}

/// The same, where these are its facts.
fn got_by(
    alloc: Global,
    case: &Case<'_>,
    typed: &Typed,
    flow: &Flow,
    facts: &Facts,
) -> Result<String, Fault>
    requires flow { flow.now ≡ plan_of typed.now.service }
    requires facts { AreFacts typed.now.service facts.now }
{
    let literals = Literals::of(alloc, typed.service())?;
    let subject = Subject {
        typed,
        flow,
        facts,
        literals: &literals,
    };
    let got = answered(alloc, case, &subject);
    drop(literals);
    got
}

/// The questions of a case with what is answered, parted by `;`.
fn answered(alloc: Global, case: &Case<'_>, subject: &Subject<'_>) -> Result<String, Fault>
    requires flow { subject.now.flow.now ≡ plan_of subject.now.typed.now.service }
    requires facts { AreFacts subject.now.typed.now.service subject.now.facts.now }
{
    let mut got = String::new(alloc);
    for line in &case.lines {
        if line.key != "text" {
            put_line(&mut got, &subject.answered(alloc, line.text)?)?;
        }
    }
    Ok(got)
}
