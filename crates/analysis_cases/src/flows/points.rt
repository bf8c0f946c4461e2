//! The lines of points.

use bw_flow::{Local, Point, PointId, Receiveds, What};
use bw_lang::Kind;
use std::alloc::{AllocError, Global};

/// The line of the point at this place.
pub fn shown_point(alloc: Global, place: usize, point: &Point) -> Result<String, AllocError> {
    let mut shown = format!(in alloc; "point {place} {} ", point.number)?;
    put_what(&mut shown, &point.what)?;
    shown.push_str(" |")?;
    put_locals(&mut shown, point.scope.as_slice())?;
    write!(shown, " | {} |", point.inside)?;
    put_places(&mut shown, point.next.as_slice())?;
    Ok(shown)
}

/// What the point does.
fn put_what(shown: &mut String, what: &What) -> Result<(), AllocError> {
    match what {
        What::Assign { name, .. } => write!(shown, "{} =", name.as_str()),
        What::Test { .. } => shown.push_str("test"),
        What::Each { name, .. } => write!(shown, "each {}", name.as_str()),
        What::Show { receives, .. } => put_receives(shown, receives),
        What::Exit { .. } => shown.push_str("exit"),
        What::Join => shown.push_str("join"),
    }
}

fn put_receives(shown: &mut String, receives: &Receiveds) -> Result<(), AllocError> {
    shown.push_str("show")?;
    for received in receives.as_slice() {
        let target = received.target.as_str();
        let kind = kind_word(received.kind);
        let field = received.field.as_str();
        write!(shown, " {kind} {target}={field} {}", received.id.number())?;
    }
    Ok(())
}

fn put_locals(shown: &mut String, locals: &[Local]) -> Result<(), AllocError> {
    for local in locals {
        write!(shown, " {} {}", kind_word(local.kind), local.name.as_str())?;
    }
    Ok(())
}

fn put_places(shown: &mut String, places: &[PointId]) -> Result<(), AllocError> {
    for id in places {
        write!(shown, " {}", id.place())?;
    }
    Ok(())
}

fn kind_word(kind: Kind) -> &'static str {
    match kind {
        Kind::Int => "int",
        Kind::Bool => "bool",
        Kind::Str => "string",
        Kind::Html => "html",
        Kind::Strs => "strings",
    }
}
