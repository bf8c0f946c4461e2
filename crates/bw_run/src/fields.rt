//! What a form lacks.
ghost use Rattle.std.specs.Prelude.{◌≡◌};
ghost use Rattle.bw_lang.specs.Service.Submissions.{values_of};
ghost use Rattle.bw_run.specs.Missing as spec;
ghost use Rattle.bw_run.specs.Turns.{receives_of};

use crate::turn::Frame;
use bw_flow::{Flow, Received, What};
use bw_lang::submission::MAX_VALUE_BYTES;
use bw_lang::{FieldId, Kind, Submission};

/// Why a form isn't taken: a field that the show receives hasn't the values that are due.
#[derive(Clone, Copy, PartialEq, Eq)]
pub enum FieldFault {
    /// The form has no value of the field, which goes into a string.
    Lacking(FieldId),
    /// The form has two values of the field or more, and it goes into a string.
    Repeated(FieldId),
    /// A value of the field has more than 16,384 bytes.
    TooLong(FieldId),
}

/// The first field, in source order, that the frame's show receives and the form hasn't as it is due: one value for a
/// string, any number for a list, and none over 16,384 bytes. Names that nothing receives are ignored (HTML 4.01, section
/// 17.13.2, lets a client leave out controls). It takes no memory.
pub fn missing(flow: &Flow, frame: &Frame, form: &Submission) -> Option<FieldFault>
    ensures { result ≡ spec.first_missing (receives_of flow.now.steps frame.now) form.now }
{
    match flow.point(frame.point) {
        None => None,
        Some(point) => match &point.what {
            What::Show { receives, .. } => first_missing(receives.as_slice(), form),
            _ => None,
        },
    }
}

/// The first of these fields that the form hasn't as it is due.
fn first_missing(receives: &[Received], form: &Submission) -> Option<FieldFault>
    ensures { result ≡ spec.first_missing receives.now form.now }
{
    for received in receives {
        if let Some(fault) = field_fault(received, form) {
            return Some(fault);
        }
    }
    None
}

/// Why the values of a field aren't those that are due.
fn field_fault(received: &Received, form: &Submission) -> Option<FieldFault>
    ensures { result ≡ spec.field_fault received.now.id received.now.kind (values_of received.now.field form.now) }
{
    let field = received.field.as_str();
    match received.kind {
        Kind::Strs => too_long(received.id, field, form),
        _ => string_fault(received.id, field, form),
    }
}

/// Why the values of a field aren't one that goes into a string.
fn string_fault(id: FieldId, field: &str, form: &Submission) -> Option<FieldFault>
    ensures { result ≡ spec.string_fault id (values_of field.now form.now) }
{
    if form.value(field, 0).is_none() {
        return Some(FieldFault::Lacking(id));
    }
    if form.value(field, 1).is_some() {
        return Some(FieldFault::Repeated(id));
    }
    too_long(id, field, form)
}

/// The field, where it has a value that is too long.
fn too_long(id: FieldId, field: &str, form: &Submission) -> Option<FieldFault>
    ensures { result ≡ spec.too_long id (values_of field.now form.now) }
{
    if is_long(field, form) {
        Some(FieldFault::TooLong(id))
    } else {
        None
    }
}

/// Whether some value of the field has more than 16,384 bytes.
fn is_long(field: &str, form: &Submission) -> bool
    ensures { result ≡ spec.is_long (values_of field.now form.now) }
{
    for (name, value) in form.as_slice() {
        if field == name.as_str() && value.len() > MAX_VALUE_BYTES {
            return true;
        }
    }
    false
}
