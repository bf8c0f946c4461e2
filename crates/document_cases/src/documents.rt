//! Cases of documents that share their parts. Each document is made twice: as `Doc`, and as a plain tree with its
//! measure, by the definition. A case has the line `service PARTS`, a service, and then steps, which work on a stack of
//! documents:
//!
//! - `constant TEMPLATE` puts the constant of that template on top, `copy` a copy of the document on top, `swap`
//!   changes the places of the two on top, and `rotate` brings the third to the top
//! - `plug GAP` takes the document on top and puts it into the gaps of the one below, `fill GAP PARTS` puts a text into
//!   the gaps of the one on top
//! - `times N STEPS` takes these steps, which `;` parts, so many times; `mix SEED N` takes so many plugs and fills of
//!   templates, gaps and texts that follow from the seed, each over the last six documents
//! - `measure` shows weight, depth and nest of the document on top, `gaps GAP` how many gaps of that name are open and
//!   how many elements stand around one at most, `length` how many bytes it prints to, and `exit TITLE` and
//!   `show TITLE TARGET` its page
//! - `drop` drops the document on top
//!
//! A plug that is over a limit shows the number, and ends the case. Where the two ways to make a document differ, the
//! step that tells shows `differs`. `want PARTS` is a line of what the case has to show.

use crate::steps::Steps;
use bw_types::Typed;
use case_files::{Case, Fault, Texts, Verdict, put_line};
use std::alloc::{AllocError, Global};

/// Tries a case over its service.
pub fn try_case(
    alloc: Global,
    texts: &Texts<'_>,
    case: &Case<'_>,
    typed: &Typed,
) -> Result<Verdict, Fault> {
    let shown = shown(alloc, texts, case, typed)?;
    Ok(Verdict::of(wanted(alloc, case)?, shown))
}

/// What the case has to show.
fn wanted(alloc: Global, case: &Case<'_>) -> Result<String, AllocError> {
    let mut wanted = String::new(alloc);
    for line in &case.lines {
        if line.key == "want" {
            put_line(&mut wanted, line.value)?;
        }
    }
    Ok(wanted)
}

/// What the steps of the case show.
fn shown<'a>(
    alloc: Global,
    texts: &'a Texts<'a>,
    case: &Case<'_>,
    typed: &'a Typed,
) -> Result<String, Fault> {
    let mut steps = Steps::new(alloc, texts, typed);
    let run = steps.run(case);
    let shown = steps.into_shown();
    run?;
    Ok(shown)
}
