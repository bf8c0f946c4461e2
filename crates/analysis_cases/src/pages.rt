//! Cases of page graphs. A case has the line `service PARTS`, and may have the line `schema PARTS`; without it the
//! built-in schema is meant. Lines `graph STEP` make what is known of the document, as the module `graphs` says.
//!
//! `page N` makes the page around that document for the statement of this number, a show or an exit, and judges it. What
//! is wanted are the lines of its faults, in their order, or `accepted`. With a line `explain` come behind these, for each of
//! the faults 1 to 7, `shows PAGE` with the bytes of a page that shows it, or with their number where they are many, or
//! `no unfolding`, `too big` or `disjunction`.
ghost use Rattle.std.specs.Prelude.{◌≡◌};
ghost use Rattle.bw_strings.specs.Literals.{literals_of};

mod explained;
mod judging;
mod known;
mod shown;
mod wrapped;

use crate::graphs::document_of;
use crate::pages::judging::faults_of;
use crate::pages::shown::shown;
use bw_schema::{Schema, built_in, read_schema};
use bw_strings::Literals;
use bw_sum::Summary;
use bw_types::Typed;
use case_files::{Case, Fault, Texts, Verdict, service_of};
use std::alloc::Global;

/// Tries a page graph.
pub fn try_case(alloc: Global, texts: &Texts<'_>, case: &Case<'_>) -> Result<Verdict, Fault> {
    let got = got(alloc, texts, case)?;
    let wanted = case.wanted(alloc, &["service", "schema", "graph", "page", "explain"])?;
    Ok(Verdict::of(wanted, got))
}

/// The lines of faults that come of a case.
fn got(alloc: Global, texts: &Texts<'_>, case: &Case<'_>) -> Result<String, Fault> {
    let typed = service_of(alloc, texts, case, "service")?;
    let got = got_of(alloc, texts, case, &typed);
    drop(typed);
    got
}

/// The same, of this service.
fn got_of(
    alloc: Global,
    texts: &Texts<'_>,
    case: &Case<'_>,
    typed: &Typed,
) -> Result<String, Fault> {
    let literals = Literals::of(alloc, typed.service())?;
    let got = got_over(alloc, texts, case, typed, &literals);
    drop(literals);
    got
}

/// The same, where these are its literals.
fn got_over(
    alloc: Global,
    texts: &Texts<'_>,
    case: &Case<'_>,
    typed: &Typed,
    literals: &Literals,
) -> Result<String, Fault>
    requires { literals.now ≡ literals_of typed.now.service }
{
    let schema = schema_of(alloc, texts, case)?;
    let got = got_by(alloc, case, typed, literals, &schema);
    drop(schema);
    got
}

/// The same, by this schema.
fn got_by(
    alloc: Global,
    case: &Case<'_>,
    typed: &Typed,
    literals: &Literals,
    schema: &Schema,
) -> Result<String, Fault>
    requires { literals.now ≡ literals_of typed.now.service }
{
    let number = case.value_of("page").ok_or(Fault::Malformed)?.parse()?;
    let document = document_of(alloc, typed, literals, case)?;
    let got = got_around(
        alloc,
        typed,
        literals,
        schema,
        &document,
        number,
        case.value_of("explain").is_some(),
    );
    drop(document);
    got
}

/// The same, of the page around this document.
fn got_around(
    alloc: Global,
    typed: &Typed,
    literals: &Literals,
    schema: &Schema,
    document: &Summary,
    number: u32,
    explains: bool,
) -> Result<String, Fault>
    requires { literals.now ≡ literals_of typed.now.service }
{
    let faults = faults_of(alloc, typed, literals, schema, document, number)?;
    let lines = shown(alloc, typed, &faults);
    drop(faults);
    let mut shown = lines?;
    if explains {
        explained::put_all(alloc, typed, literals, schema, document, number, &mut shown)?;
    }
    Ok(shown)
}

/// The schema of a case, or the built-in one.
fn schema_of(alloc: Global, texts: &Texts<'_>, case: &Case<'_>) -> Result<Schema, Fault> {
    match case.value_of("schema") {
        Some(parts) => schema_of_text(alloc, &texts.join(alloc, parts)?),
        None => Ok(built_in(alloc)?),
    }
}

/// The schema of a text.
fn schema_of_text(alloc: Global, text: &[u8]) -> Result<Schema, Fault> {
    match read_schema(alloc, text) {
        Ok(schema) => Ok(schema),
        Err(fault) => {
            drop(fault);
            Err(Fault::Malformed)
        }
    }
}
