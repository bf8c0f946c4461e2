//! Cases of summaries. A case has the line `service PARTS`, and lines `graph STEP`, which make what is known of a document
//! as the module `graphs` says. It wants the line `summary PARTS`, with the parts of that, as the module `values` says.

use crate::graphs::document_of;
use crate::values::{Names, put_summary};
use bw_strings::Literals;
use bw_sum::Summary;
use bw_types::Typed;
use case_files::{Case, Fault, Texts, Verdict, service_of};
use std::alloc::{AllocError, Global};

/// Tries a summary.
pub fn try_case(alloc: Global, texts: &Texts<'_>, case: &Case<'_>) -> Result<Verdict, Fault> {
    let got = got(alloc, texts, case)?;
    Ok(Verdict::of(case.wanted(alloc, &["service", "graph"])?, got))
}

/// The summary that comes of a case.
fn got(alloc: Global, texts: &Texts<'_>, case: &Case<'_>) -> Result<String, Fault> {
    let typed = service_of(alloc, texts, case, "service")?;
    let got = got_of(alloc, case, &typed);
    drop(typed);
    got
}

/// The same, of this service.
fn got_of(alloc: Global, case: &Case<'_>, typed: &Typed) -> Result<String, Fault> {
    let literals = Literals::of(alloc, typed.service())?;
    let got = got_over(alloc, case, typed, &literals);
    drop(literals);
    got
}

/// The same, where these are its literals.
fn got_over(
    alloc: Global,
    case: &Case<'_>,
    typed: &Typed,
    literals: &Literals,
) -> Result<String, Fault> {
    let document = document_of(alloc, typed, literals, case)?;
    let shown = shown(alloc, &Names { typed, literals }, &document);
    drop(document);
    Ok(shown?)
}

/// The line of a summary.
fn shown(alloc: Global, names: &Names<'_>, summary: &Summary) -> Result<String, AllocError> {
    let mut shown = String::from_str(alloc, "summary")?;
    put_summary(&mut shown, names, summary)?;
    Ok(shown)
}
