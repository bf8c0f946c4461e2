//! Cases of requests, and of replies. These lines of a case are steps:
//!
//! - `stream PARTS`: puts these bytes behind those of the stream, which has none at first
//! - `read N`: asks for the outcomes of at most so many requests that are read from the stream, up to the first refusal.
//!   They are read three times, in pieces of 1, 7 and 4,096 bytes, and told once where all are alike
//! - `prefixes`: asks, for each number of bytes of the stream, from none to all, for the outcome of one request that is
//!   read from so many of them, in the same three ways. Numbers in a row with the same outcome are told together
//! - `reply KIND`: asks for the bytes of a reply, with `|` for CR LF and `/` for LF alone. src/requests/written.rt says
//!   which kinds there are
//!
//! And it wants a line `wanted TEXT` for each question, in their order: what comes of it.

mod outcomes;
mod written;

use crate::requests::outcomes::{outcomes, prefixes};
use crate::requests::written::written;
use case_files::{Case, Fault, Line, Texts, Verdict, put_line};
use std::alloc::Global;

/// Tries the steps of a case.
pub fn try_case(alloc: Global, texts: &Texts<'_>, case: &Case<'_>) -> Result<Verdict, Fault> {
    let mut stream = Vec::new(alloc);
    let mut wanted = String::new(alloc);
    let mut got = String::new(alloc);
    for line in &case.lines {
        match line.key {
            "stream" => stream.extend_from_slice(&texts.join(alloc, line.value)?)?,
            "wanted" => put_line(&mut wanted, line.value)?,
            _ => put_line(&mut got, &answer(alloc, &stream, *line)?)?,
        }
    }
    Ok(Verdict::of(wanted, got))
}

/// What comes of a question, where this is the stream.
fn answer(alloc: Global, stream: &[u8], question: Line<'_>) -> Result<String, Fault> {
    match question.key {
        "read" => outcomes(alloc, stream, question.value.parse()?),
        "prefixes" => prefixes(alloc, stream),
        "reply" => written(alloc, question.value),
        _ => Err(Fault::Malformed),
    }
}
