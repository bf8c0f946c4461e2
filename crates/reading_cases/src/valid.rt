//! Cases of pages that are judged by schemas. A case has the line `page PARTS`, and may have the line `schema PARTS`;
//! without it the built-in schema is meant. It wants `valid`, or `place P rule R`.

use crate::schemas::refusal;
use bw_lang::Tree;
use bw_schema::{Schema, SchemaFault, built_in, read_schema};
use bw_tmpl::{TmplFault, read_closed};
use bw_valid::{Breach, valid};
use case_files::{Case, Fault, Line, Texts, Verdict};
use std::alloc::{AllocError, Global};

/// The greatest number of elements that may stand inside one another in a page of a case.
const NESTING: u32 = 512;

/// The greatest number of bytes of a page of a case. So its elements can be counted.
const MAX_BYTES: usize = 65_536;

/// The lines of a case: a page and its schema, in parts, and what is wanted.
#[derive(Clone, Copy)]
struct JudgedCase<'a> {
    page: &'a str,
    schema: Option<&'a str>,
    wanted: &'a str,
}

/// Tries a page.
pub fn try_case(alloc: Global, texts: &Texts<'_>, case: &Case<'_>) -> Result<Verdict, Fault> {
    let judged_case = JudgedCase::of(case);
    let page = texts.join(alloc, judged_case.page)?;
    let got = judged_case.got(alloc, texts, &page)?;
    Ok(Verdict::of(String::from_str(alloc, judged_case.wanted)?, got))
}

impl<'a> JudgedCase<'a> {
    /// The lines of this case.
    fn of(case: &Case<'a>) -> JudgedCase<'a> {
        let mut judged_case = JudgedCase {
            page: "",
            schema: None,
            wanted: "",
        };
        for line in &case.lines {
            judged_case.take(*line);
        }
        judged_case
    }

    /// Takes the next line.
    fn take(&mut self, line: Line<'a>) {
        match line.key {
            "page" => self.page = line.value,
            "schema" => self.schema = Some(line.value),
            _ => self.wanted = line.text,
        }
    }

    /// What comes of the page, or why the text of its schema is refused.
    fn got(&self, alloc: Global, texts: &Texts<'_>, page: &[u8]) -> Result<String, Fault> {
        let Some(schema) = self.schema else {
            return judged_by(alloc, Ok(built_in(alloc)?), page);
        };
        let text = texts.join(alloc, schema)?;
        judged_by(alloc, read_schema(alloc, &text), page)
    }
}

/// What comes of a page by a schema, or why the text of that is refused.
fn judged_by(
    alloc: Global,
    schema: Result<Schema, SchemaFault>,
    page: &[u8],
) -> Result<String, Fault> {
    match schema {
        Ok(schema) => {
            let judged = judged(alloc, &schema, page);
            drop(schema);
            judged
        }
        Err(fault) => refusal(alloc, fault),
    }
}

/// What comes of a page, whose text has to be one.
fn judged(alloc: Global, schema: &Schema, page: &[u8]) -> Result<String, Fault> {
    if page.len() > MAX_BYTES {
        return Err(Fault::Malformed);
    }
    match read_closed(alloc, page, NESTING) {
        Ok(items) => {
            let tree = Tree { items };
            let judged = valid(schema, &tree);
            drop(tree);
            Ok(shown_breach(alloc, judged)?)
        }
        Err(TmplFault::Memory) => Err(Fault::Memory),
        Err(_) => Err(Fault::Malformed),
    }
}

fn shown_breach(alloc: Global, judged: Result<(), Breach>) -> Result<String, AllocError> {
    match judged {
        Ok(()) => String::from_str(alloc, "valid"),
        Err(breach) => {
            let place = breach.place;
            let rule = breach.rule;
            format!(in alloc; "place {place} rule {rule}")
        }
    }
}
