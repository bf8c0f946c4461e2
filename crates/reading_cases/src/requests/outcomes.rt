//! What comes of a stream, in pieces of different sizes.

use bw_http::{Intake, Method, Path, ReadOutcome, Request, read_request};
use bw_out::MemSource;
use case_files::Fault;
use std::alloc::{AllocError, Global};

/// The outcomes of at most so many requests, in pieces of 1, 7 and 4,096 bytes.
pub fn outcomes(alloc: Global, stream: &[u8], count: u32) -> Result<String, Fault> {
    let outcomes = in_bytes(alloc, stream, count)?;
    let sevens = in_pieces(alloc, MemSource::new(stream, 7, &[]), count)?;
    let pages = in_pieces(alloc, MemSource::new(stream, 4096, &[]), count)?;
    if sevens.as_str() == outcomes.as_str() && pages.as_str() == outcomes.as_str() {
        return Ok(outcomes);
    }
    Ok(format!(in alloc; "{outcomes} OR {sevens} OR {pages}")?)
}

fn in_bytes(alloc: Global, stream: &[u8], count: u32) -> Result<String, Fault> {
    in_pieces(alloc, MemSource::new(stream, 1, &[]), count)
}

/// The outcomes of at most so many requests of this source.
fn in_pieces(alloc: Global, mut source: MemSource<'_>, count: u32) -> Result<String, Fault> {
    let mut intake = Intake::new(alloc)?;
    let mut outcomes = String::new(alloc);
    let put = put_outcomes(alloc, count, &mut intake, &mut source, &mut outcomes);
    drop(intake);
    put?;
    Ok(outcomes)
}

/// Puts the outcomes of at most so many requests into the text, up to the first refusal.
fn put_outcomes(
    alloc: Global,
    count: u32,
    intake: &mut Intake,
    source: &mut MemSource<'_>,
    outcomes: &mut String,
) -> Result<(), AllocError> {
    for number in 0..count {
        if number > 0 {
            outcomes.push_str(", ")?;
        }
        match read_request(alloc, intake, source) {
            Ok(request) => {
                let put = put_request(alloc, &request, outcomes);
                drop(request);
                put?;
            }
            Err(outcome) => return outcomes.push_str(refusal(outcome)),
        }
    }
    Ok(())
}

/// For each number of bytes of the stream the outcome of one request in so many of them.
pub fn prefixes(alloc: Global, stream: &[u8]) -> Result<String, Fault> {
    let mut all = String::new(alloc);
    let mut last = outcomes(alloc, b"", 1)?;
    let mut first = 0;
    for size in 1..=stream.len() {
        let (front, _) = stream.split_at(size);
        let outcome = outcomes(alloc, front, 1)?;
        if outcome.as_str() != last.as_str() {
            put_range(alloc, first, size - 1, &last, &mut all)?;
            first = size;
            last = outcome;
        }
    }
    put_range(alloc, first, stream.len(), &last, &mut all)?;
    Ok(all)
}

/// Puts the outcome of these numbers of bytes behind the others.
fn put_range(
    alloc: Global,
    first: usize,
    last: usize,
    outcome: &str,
    out: &mut String,
) -> Result<(), AllocError> {
    if !out.is_empty() {
        out.push_str(", ")?;
    }
    out.push_str(&format!(in alloc; "{first} to {last} {outcome}")?)
}

/// Puts a request behind the text: its method, its path, and the pairs of its form.
fn put_request(alloc: Global, request: &Request, out: &mut String) -> Result<(), AllocError> {
    out.push_str(match request.method {
        Method::Get => "GET ",
        Method::Post => "POST ",
        Method::Other => "OTHER ",
    })?;
    match &request.path {
        Path::Index => out.push_str("index")?,
        Path::Start(name) => {
            out.push_str("start ")?;
            out.push_str(name.as_str())?;
        }
        Path::Turn { number, key, turn } => {
            out.push_str(&format!(in alloc; "turn {number} {key} {turn}")?)?;
        }
        Path::Other => out.push_str("other")?,
    }
    for (name, value) in request.form.as_slice() {
        out.push_str(&format!(in alloc; " {}={}", name.as_str(), value.as_str())?)?;
    }
    Ok(())
}

/// The words for a refusal.
fn refusal(outcome: ReadOutcome) -> &'static str {
    match outcome {
        ReadOutcome::End => "end",
        ReadOutcome::BadHead => "bad head",
        ReadOutcome::Truncated => "truncated",
        ReadOutcome::HeadTooLong => "head too long",
        ReadOutcome::NoHost => "no host",
        ReadOutcome::Coding => "coding",
        ReadOutcome::BadLength => "bad length",
        ReadOutcome::LengthRequired => "length required",
        ReadOutcome::BodyTooLong => "body too long",
        ReadOutcome::Media => "media",
        ReadOutcome::ReadFault => "read fault",
        ReadOutcome::Memory => "memory",
    }
}
