//! What is known of documents, step by step. The lines `graph STEP` of a case make it, from the bottom of a stack up:
//!
//! - `constant NAME` puts a template on the stack
//! - `text GAP "TEXT" ..` plugs one of these string literals of the service into the document on top, and `any GAP` any
//!   string
//! - `plug GAP` takes the document on top and plugs it into the one below
//! - `join` takes the two on top and puts both together

use bw_lang::GapId;
use bw_solve::Set;
use bw_strings::{Literals, StrSet};
use bw_sum::Summary;
use bw_types::Typed;
use case_files::{Case, Fault};
use std::alloc::Global;

/// The document of a case, by its steps.
pub fn document_of(
    alloc: Global,
    typed: &Typed,
    literals: &Literals,
    case: &Case<'_>,
) -> Result<Summary, Fault> {
    let mut stack = Vec::new(alloc);
    let document = document_on(alloc, typed, literals, case, &mut stack);
    drop(stack);
    document
}

/// The document that is on top of this stack after all steps of a case.
fn document_on(
    alloc: Global,
    typed: &Typed,
    literals: &Literals,
    case: &Case<'_>,
    stack: &mut Vec<Summary>,
) -> Result<Summary, Fault> {
    for line in &case.lines {
        if line.key == "graph" {
            take_step(alloc, typed, literals, line.value, stack)?;
        }
    }
    stack.pop().ok_or(Fault::Malformed)
}

/// Takes a step: its document stands in place of those that it takes from the top.
fn take_step(
    alloc: Global,
    typed: &Typed,
    literals: &Literals,
    step: &str,
    stack: &mut Vec<Summary>,
) -> Result<(), Fault> {
    let (word, rest) = step.split_once(' ').unwrap_or((step, ""));
    let document = made(alloc, typed, literals, word, rest, stack)?;
    stack.truncate(stack.len().saturating_sub(taken(word)));
    stack.push(document)?;
    Ok(())
}

/// How many documents a step takes.
fn taken(word: &str) -> usize {
    match word {
        "text" | "any" => 1,
        "plug" | "join" => 2,
        _ => 0,
    }
}

/// The document of a step.
fn made(
    alloc: Global,
    typed: &Typed,
    literals: &Literals,
    word: &str,
    rest: &str,
    stack: &[Summary],
) -> Result<Summary, Fault> {
    match (word, stack) {
        ("constant", _) => constant(alloc, typed, rest),
        ("text", [.., top]) => with_literals(alloc, typed, literals, rest, top),
        ("any", [.., top]) => with_strings(alloc, typed, rest, &StrSet::Any, top),
        ("plug", [.., base, top]) => plugged(alloc, typed, rest, base, top),
        ("join", [.., base, top]) => base.join(alloc, top).map_err(Fault::from),
        _ => Err(Fault::Malformed),
    }
}

/// A document with another one in a gap.
fn plugged(
    alloc: Global,
    typed: &Typed,
    gap: &str,
    base: &Summary,
    top: &Summary,
) -> Result<Summary, Fault> {
    let gap = gap_of(typed, gap)?;
    base.plug(alloc, gap, top).map_err(Fault::from)
}

/// The template of that name as it stands.
fn constant(alloc: Global, typed: &Typed, name: &str) -> Result<Summary, Fault> {
    let template = typed.template(name).ok_or(Fault::Malformed)?;
    if template.number() as usize >= typed.service().templates.as_slice().len() {
        return Err(Fault::Malformed);
    }
    Summary::constant(alloc, typed, template).map_err(Fault::from)
}

/// A document with one of the literals that stand between quotes in a gap.
fn with_literals(
    alloc: Global,
    typed: &Typed,
    literals: &Literals,
    gap_and_literals: &str,
    base: &Summary,
) -> Result<Summary, Fault> {
    let (gap, quoted) = gap_and_literals
        .split_once(' ')
        .unwrap_or((gap_and_literals, ""));
    let strings = StrSet::Of(numbers_of(alloc, literals, quoted)?);
    let document = with_strings(alloc, typed, gap, &strings, base);
    drop(strings);
    document
}

/// The numbers of the literals that stand between quotes.
fn numbers_of(alloc: Global, literals: &Literals, quoted: &str) -> Result<Set<u32>, Fault> {
    let mut numbers = Set::new(alloc);
    for (place, piece) in quoted.split('"').enumerate() {
        if place % 2 == 1 {
            numbers.add(number_of(literals, piece)?)?;
        }
    }
    Ok(numbers)
}

/// The number of a literal.
fn number_of(literals: &Literals, literal: &str) -> Result<u32, Fault> {
    let number = literals.number(literal);
    if number as usize >= literals.len() {
        return Err(Fault::Malformed);
    }
    Ok(number)
}

/// A document with some strings in a gap.
fn with_strings(
    alloc: Global,
    typed: &Typed,
    gap: &str,
    strings: &StrSet,
    base: &Summary,
) -> Result<Summary, Fault> {
    let gap = gap_of(typed, gap)?;
    base.plug_text(alloc, gap, strings).map_err(Fault::from)
}

/// The gap of that name.
fn gap_of(typed: &Typed, name: &str) -> Result<GapId, Fault> {
    typed.gap(name).ok_or(Fault::Malformed)
}
