//! Cases of turns. A case has the line `service PARTS`, a service, and then, in their order, what is done:
//!
//! - `start SESSION` gives the session's first turn
//! - `field NAME PARTS` puts a field into the form that comes next
//! - `answer N` goes on over that form from where the N-th turn that was shown waits, counted from 1
//!
//! Behind each turn stands what it comes to, and behind that, where the service has shared variables, their values in
//! order of declaration:
//!
//! - `shown PAGE` where the session waits, and `ended PAGE` where it is over, with the document as a last page, or with
//!   the number of the document's bytes where there are many
//! - `failed N WORDS`, the number of the fault, and the fault
//! - `lacking FIELD`, `repeated FIELD`, `too long FIELD` where the form isn't taken
//! - `shared VALUES`, for a document its weight
ghost use Rattle.std.specs.Prelude.{◌≡◌};
ghost use Rattle.bw_flow.specs.Layout.{plan_of};

use crate::talks::counted;
use bw_flow::Flow;
use bw_types::Typed;
use case_files::{Case, Fault, Texts, Verdict, flow_of};
use std::alloc::Global;
use std::marker::Brand;
use std::sync::ledger::Blank;

/// Tries the turns of a case over its service.
pub fn try_case(
    alloc: Global,
    texts: &Texts<'_>,
    case: &Case<'_>,
    typed: &Typed,
) -> Result<Verdict, Fault> {
    let got = got(alloc, texts, case, typed)?;
    let wanted = case.wanted(alloc, &["service", "start", "field", "answer"])?;
    Ok(Verdict::of(wanted, got))
}

/// What comes of the turns of a case.
fn got(alloc: Global, texts: &Texts<'_>, case: &Case<'_>, typed: &Typed) -> Result<String, Fault> {
    let flow = flow_of(alloc, typed)?;
    let got = got_over(alloc, texts, case, typed, &flow);
    drop(flow);
    got
}

/// What comes of them, where the service has this flow.
fn got_over(
    alloc: Global,
    texts: &Texts<'_>,
    case: &Case<'_>,
    typed: &Typed,
    flow: &Flow,
) -> Result<String, Fault>
    requires { flow.now ≡ plan_of typed.now.service }
{
    counted::<Brand>(alloc, texts, case, typed, flow, Blank::new(1))
}
