//! Cases of services and their flows. A case has the line `text PARTS`, a service, and wants, in further lines, its
//! flow:
//!
//! - `first SESSION PLACE` for each session, in source order
//! - `point PLACE NUMBER WHAT | LOCALS | AROUND | NEXT` for each point: its place, the number of its statement, what it
//!   does, the locals in scope with their kinds, how many foreachs stand around it, and the places of the points that
//!   come next
//! - `statements PLACES`: the places of the points of the statements 1, 2, 3 and so on
//!
//! or `points N`, which stands for all of this, or `too many N`, where it has no flow.
//!
//! What a point does is `NAME =`, `test`, `each NAME`, `show TARGET=FIELD ..` with the kind of each target and the
//! number of each field, `exit` or `join`.

mod points;

use crate::flows::points::shown_point;
use bw_flow::{Flow, FlowFault, lower};
use bw_types::Typed;
use case_files::{Case, Fault, Texts, Verdict, put_line, service_of};
use std::alloc::{AllocError, Global};

/// Tries a service.
pub fn try_case(alloc: Global, texts: &Texts<'_>, case: &Case<'_>) -> Result<Verdict, Fault> {
    let got = got(alloc, texts, case)?;
    Ok(Verdict::of(case.wanted(alloc, &["text"])?, got))
}

/// What the service of a case lowers to.
fn got(alloc: Global, texts: &Texts<'_>, case: &Case<'_>) -> Result<String, Fault> {
    let counted = case.value_of("points").is_some();
    let typed = service_of(alloc, texts, case, "text")?;
    let shown = shown(alloc, &typed, counted);
    drop(typed);
    shown
}

/// What the service lowers to: the lines of its flow, or the number of its points alone.
fn shown(alloc: Global, typed: &Typed, counted: bool) -> Result<String, Fault> {
    match lower(alloc, typed) {
        Ok(flow) => {
            let shown = shown_points(alloc, typed, &flow, counted);
            drop(flow);
            shown
        }
        Err(FlowFault::TooMany(points)) => Ok(format!(in alloc; "too many {points}")?),
        Err(FlowFault::Memory) => Err(Fault::Memory),
    }
}

/// The lines of a flow, or the number of its points.
fn shown_points(alloc: Global, typed: &Typed, flow: &Flow, counted: bool) -> Result<String, Fault> {
    if counted {
        return Ok(format!(in alloc; "points {}", flow.points().len())?);
    }
    shown_flow(alloc, typed, flow)
}

/// The lines of a flow.
fn shown_flow(alloc: Global, typed: &Typed, flow: &Flow) -> Result<String, Fault> {
    let mut shown = String::new(alloc);
    put_firsts(&mut shown, typed, flow)?;
    put_points(alloc, &mut shown, flow)?;
    put_statements(&mut shown, flow)?;
    Ok(shown)
}

/// Puts the places of the first points of the sessions behind other lines.
fn put_firsts(shown: &mut String, typed: &Typed, flow: &Flow) -> Result<(), Fault> {
    for session in typed.service().sessions.as_slice() {
        let name = session.name.as_str();
        let first = typed.session(name).and_then(|id| flow.first(id));
        let place = first.ok_or(Fault::Malformed)?.place();
        put_line(shown, "first")?;
        write!(shown, " {name} {place}")?;
    }
    Ok(())
}

/// Puts the lines of the points behind others.
fn put_points(alloc: Global, shown: &mut String, flow: &Flow) -> Result<(), AllocError> {
    for (place, point) in flow.points().iter().enumerate() {
        put_line(shown, &shown_point(alloc, place, point)?)?;
    }
    Ok(())
}

/// Puts the places of the statements, from that of number 1 on, behind other lines.
fn put_statements(shown: &mut String, flow: &Flow) -> Result<(), AllocError> {
    put_line(shown, "statements")?;
    for number in 1..u32::MAX {
        match flow.find(number) {
            Some(id) => write!(shown, " {}", id.place())?,
            None => return Ok(()),
        }
    }
    Ok(())
}
