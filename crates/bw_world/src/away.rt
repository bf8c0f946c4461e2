//! Forms with a value outside the format of its field.
ghost use Rattle.std.specs.Prelude.{◌≡◌, ◌↔◌, ◌<◌, length, IsTrue, IfSome};
ghost use Rattle.bw_model.specs.Guards.{IsInside};
ghost use Rattle.bw_world.specs.Away as spec;
ghost use Rattle.bw_run.specs.Turns.{receives_of};
ghost use Rattle.bw_world.specs.Kept.{IsKept, IsSuspended};
ghost use Rattle.bw_flow.specs.Layout.{flow_of};
ghost use Rattle.bw_world.specs.Stands.{fields_of};

use crate::suspended::Suspended;
use crate::world::World;
use bw_flow::{Flow, Received, What};
use bw_format::Formats;
use bw_http::{Method, Path, Request};
use bw_lang::{FieldId, Submission};
use bw_run::{Frame, missing};

/// Whether each value of the field is in its format.
fn is_inside(formats: &Formats, form: &Submission, field: &str) -> bool
    ensures { IsTrue result ↔ IsInside formats.now form.now field.now }
{
    for (name, value) in form.as_slice() {
        if field == name.as_str() {
            if !formats.accepts(field, value.as_str()) {
                return false;
            }
        }
    }
    true
}

/// The first of these fields that has a value outside its format.
fn first_outside(formats: &Formats, form: &Submission, receives: &[Received]) -> Option<FieldId>
    ensures { spec.FirstOutside formats.now form.now receives.now result }
{
    for received in receives {
        if !is_inside(formats, form, received.field.as_str()) {
            return Some(received.id);
        }
    }
    None
}

/// The first field, in source order, that the frame's show receives and that has a value outside its format.
fn outside_at(formats: &Formats, form: &Submission, flow: &Flow, frame: &Frame) -> Option<FieldId>
    ensures { spec.FirstOutside formats.now form.now (receives_of flow.now.steps frame.now) result }
{
    match flow.point(frame.point) {
        None => None,
        Some(point) => match &point.what {
            What::Show { receives, .. } => first_outside(formats, form, receives.as_slice()),
            _ => None,
        },
    }
}

/// The same, where the form is taken at this turn.
fn outside_by(
    formats: &Formats,
    form: &Submission,
    flow: &Flow,
    one: &Suspended,
    turn: u32,
) -> Option<FieldId>
    ensures { spec.FirstOutside formats.now form.now (spec.received_by flow.now.steps one.now turn form.now) result }
{
    if turn != one.turn {
        return None;
    }
    if missing(flow, &one.frame, form).is_some() {
        return None;
    }
    outside_at(formats, form, flow, &one.frame)
}

/// The same of the live session of this number and key.
fn outside_of(
    world: &World,
    formats: &Formats,
    form: &Submission,
    number: u32,
    key: u64,
    turn: u32,
) -> Option<FieldId>
    ensures away { spec.IsAwayFrom world.now formats.now form.now number key turn result }
    ensures there { IfSome result (λ f. f < length (fields_of world.now.service)) }
{
    match world.get(number, key) {
        None => None,
        Some(one) => outside_by(formats, form, world.checked().flow(), one, turn),
    }
}

/// The field by which a request is turned away: the first, in source order, with a value outside its format, where the
/// request brings a form that a session's next turn would take. It takes no memory.
pub(crate) fn outside(world: &World, formats: &Formats, request: &Request) -> Option<FieldId>
    ensures away { spec.IsAway world.now formats.now request.now result }
    ensures there { IfSome result (λ f. f < length (fields_of world.now.service)) }
{
    match &request.path {
        Path::Turn { number, key, turn } => match request.method {
            Method::Post => outside_of(world, formats, &request.form, *number, *key, *turn),
            Method::Get => None,
            Method::Other => None,
        },
        Path::Index => None,
        Path::Start(_) => None,
        Path::Other => None,
    }
}
