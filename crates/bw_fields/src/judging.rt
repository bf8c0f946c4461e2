//! The faults 8 to 10 of the fields that a show receives.
ghost use Rattle.std.specs.Prelude.{◌≡◌, ◌∷◌, ◌&&◌, [], IfOk, OnOk, length};
ghost use Rattle.std.specs.List.{All};
ghost use Rattle.bw_faults.specs.Lists.{Adds, Lists, OfSome, When};
ghost use Rattle.bw_flow.specs.declared.point.Received.{Received as ReceivedOf};
ghost use Rattle.bw_lang.specs.Document.Documents.{close};
ghost use Rattle.bw_lang.specs.Document.Forest.{Forest};
ghost use Rattle.bw_schema.specs.declared.schema.Schema.{Schema};
ghost use Rattle.bw_shape.specs.Outlines.{may_lack, may_have_twice};
ghost use Rattle.bw_strings.specs.Literals.{literals_of};
ghost use Rattle.bw_sum.specs.Graph.{graph};
ghost use Rattle.bw_sum.specs.Templates.{template_items};
ghost use Rattle.bw_sum.specs.Unfolding.{Unfolds};
ghost use Rattle.bw_sum.specs.declared.summary.Summary.{Summary};
ghost use Rattle.bw_types.specs.Fields.{kind_of_field};
ghost use Rattle.bw_fields.specs.Found as found;
ghost use Rattle.bw_fields.specs.Received as spec;

use bw_faults::{Fault, Faults};
use bw_flow::{Received, Receiveds};
use bw_lang::laws::readable_is_small;
use bw_lang::{FieldId, FieldKind, Kind, Memory, Name, TemplateId, Text};
use bw_shape::Outline;
use bw_types::Typed;
use std::alloc::Global;

/// Whether a field of this kind has one value from each of its controls.
fn is_single(kind: Option<FieldKind>) -> bool
    ensures { result ≡ found.is_single kind }
{
    matches!(kind, Some(FieldKind::Single))
}

/// Whether a target of this kind takes many values.
fn takes_many(target: Kind) -> bool
    ensures { result ≡ found.takes_many target }
{
    matches!(target, Kind::Strs)
}

/// Whether a field of this kind doesn't fit a target: it may have many values where the target takes one, or the other
/// way round. A field without a control fits each.
fn is_misfit(kind: Option<FieldKind>, target: Kind) -> bool
    ensures { result ≡ found.is_misfit kind target }
{
    match kind {
        None => false,
        Some(FieldKind::Many) => !takes_many(target),
        Some(FieldKind::Single) | Some(FieldKind::Choice) => takes_many(target),
    }
}

/// Adds the fault of that number, where it is one.
fn add_if(
    alloc: Global,
    is_fault: bool,
    number: u8,
    point: u32,
    field: &Name,
    faults: &mut Faults,
) -> Result<(), Memory>
    ensures { OnOk result (Adds (When is_fault (found.fault_of number point field.now)) faults.old faults.new) }
{
    if !is_fault {
        return Ok(());
    }
    let fault = Fault {
        number,
        point,
        template: None,
        place: 0,
        detail: Text::of(alloc, field.as_str())?,
    };
    faults.add(fault)?;
    Ok(())
}

/// Whether the page that begins as this template may have the field twice, and it takes one value.
fn is_twice(outline: &Outline, root: TemplateId, field: FieldId, kind: Option<FieldKind>) -> bool
    ensures { result ≡ (may_have_twice outline.now root field && found.is_single kind) }
{
    outline.may_have_twice(root, field) && is_single(kind)
}

/// Adds the faults of a received field.
fn judge_field(
    alloc: Global,
    outline: &Outline,
    typed: &Typed,
    root: TemplateId,
    point: u32,
    received: &Received,
    faults: &mut Faults,
) -> Result<(), Memory>
    ensures { OnOk result (Adds (found.OfField typed.now.service outline.now root point received.now) faults.old faults.new) }
{
    let kind = typed.field_kind(received.field.as_str());
    let is_lacking = outline.may_lack(root, received.id);
    let is_wrong = is_misfit(kind, received.kind);
    add_if(alloc, is_lacking, 8, point, &received.field, faults)?;
    add_if(
        alloc,
        is_twice(outline, root, received.id, kind),
        9,
        point,
        &received.field,
        faults,
    )?;
    add_if(alloc, is_wrong, 10, point, &received.field, faults)
}

/// The faults of all received fields.
fn list_fields(
    alloc: Global,
    outline: &Outline,
    typed: &Typed,
    root: TemplateId,
    point: u32,
    received: &[Received],
) -> Result<Faults, Memory>
    ensures { IfOk result (λ l. Lists (OfSome (found.OfField typed.now.service outline.now root point) received.now) l) }
{
    let mut faults = Faults::new(alloc);
    for field in received {
        judge_field(alloc, outline, typed, root, point, field, &mut faults)?;
    }
    // This call tells that the list is in order.
    let _sorted = faults.as_slice();
    Ok(faults)
}

/// The faults 8 to 10 of a show, in their order, where it has this number and receives these fields. The outline is what
/// `shape` gives for the show's page graph.
///
/// Where there is no fault, every document that the page graph unfolds to has each received field when its gaps are closed,
/// once where its kind is Single, and of a kind that fits its target.
pub fn judge_fields(
    alloc: Global,
    outline: &Outline,
    typed: &Typed,
    received: &Receiveds,
    point: u32,
) -> Result<Faults, Memory>
    requires { All (spec.IsReceived typed.now.service) received.now }
    ensures exact { IfOk result (λ l. (page : Summary) (schema : Schema) → spec.IsShown typed.now.service page schema outline.now
        → Lists (spec.IsFieldFault (template_items typed.now.service) (graph (literals_of typed.now.service) page) (length typed.now.service.templates)
        typed.now.service point received.now) l) }
    ensures sound { IfOk result (λ l. l ≡ [] → (page : Summary) (schema : Schema) → spec.IsShown typed.now.service page schema outline.now → (d : Forest)
        → Unfolds (template_items typed.now.service) (graph (literals_of typed.now.service) page) (length typed.now.service.templates) d
        → All (spec.HasField typed.now.service (close d)) received.now) }
{
    readable_is_small();
    let count = typed.service().templates.as_slice().len();
    let root = TemplateId::show_wrapper(count);
    list_fields(alloc, outline, typed, root, point, received.as_slice())
}
