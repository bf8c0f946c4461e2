//! Whether the plugs of documents fill gaps.
ghost use Rattle.std.specs.Prelude.{◌≡◌, ◌++◌, map, IfOk, OnOk};
ghost use Rattle.std.specs.List.{list_all};
ghost use Rattle.bw_save.specs.Filled as spec;
ghost use Rattle.bw_saved.specs.Documents.Reading as reading;

use bw_doc::{Doc, Part};
use bw_eval::{Value, Values, Variable};
use bw_lang::{GapId, Memory};
use bw_saved::{Record, Saved};
use bw_types::Typed;
use std::alloc::Global;

/// A document that is still to be looked at.
#[derive(Clone, Copy)]
struct Task<'a> {
    doc: &'a Doc,
}

/// Whether the gap is one of the service's, and open.
fn opens(typed: &Typed, base: &Doc, gap: GapId) -> bool
    ensures { result ≡ reading.opens typed.now.service base.now gap }
{
    (gap.number() as usize) < typed.service().gaps.len() && base.count(gap) > 0
}

/// Whether a constant is a template of the service, and whether the last plug of any other document filled a gap.
fn fills(typed: &Typed, doc: &Doc) -> bool
    ensures { result ≡ spec.fills typed.now.service doc.now }
{
    match doc.part() {
        Part::Constant(template) => {
            (template.number() as usize) < typed.service().templates.as_slice().len()
        }
        Part::Plug { base, gap, arg: _ } => opens(typed, base, gap),
        Part::PlugText { base, gap, text: _ } => opens(typed, base, gap),
    }
}

/// Puts the documents of which one is made behind those that are to be looked at.
fn put_parts<'a>(doc: &'a Doc, tasks: &mut Vec<Task<'a>>) -> Result<(), Memory>
    ensures { OnOk result (map (λ t. t.doc.now) tasks.new.items ≡ map (λ t. t.doc.now) tasks.old.items ++ spec.parts_of doc.now) }
{
    match doc.part() {
        Part::Constant(_) => Ok(()),
        Part::Plug { base, gap: _, arg } => {
            tasks.push(Task { doc: base })?;
            tasks.push(Task { doc: arg })?;
            Ok(())
        }
        Part::PlugText {
            base,
            gap: _,
            text: _,
        } => {
            tasks.push(Task { doc: base })?;
            Ok(())
        }
    }
}

/// Whether each plug of a document filled a gap. It doesn't call itself, however deep the document is.
fn is_filled(alloc: Global, typed: &Typed, doc: &Doc) -> Result<bool, Memory>
    ensures { IfOk result (λ b. b ≡ spec.is_filled typed.now.service doc.now) }
{
    let mut tasks = Vec::new(alloc);
    tasks.push(Task { doc })?;
    while let Some(task) = tasks.pop() {
        if !fills(typed, task.doc) {
            return Ok(false);
        }
        put_parts(task.doc, &mut tasks)?;
    }
    Ok(true)
}

/// Whether a value is no document, or one whose plugs filled gaps.
fn is_filled_value(alloc: Global, typed: &Typed, value: &Value) -> Result<bool, Memory>
    ensures { IfOk result (λ b. b ≡ spec.is_filled_value typed.now.service value.now) }
{
    match value {
        Value::Int(_) => Ok(true),
        Value::Bool(_) => Ok(true),
        Value::Str(_) => Ok(true),
        Value::Html(doc) => is_filled(alloc, typed, doc),
        Value::Strs(_) => Ok(true),
    }
}

/// Whether so are the values of these variables.
fn all_filled(alloc: Global, typed: &Typed, all: &[Variable]) -> Result<bool, Memory>
    ensures { IfOk result (λ b. b ≡ list_all (λ x. spec.is_filled_value typed.now.service x.value) all.now) }
{
    for variable in all {
        if !is_filled_value(alloc, typed, &variable.value)? {
            return Ok(false);
        }
    }
    Ok(true)
}

/// Whether so are the values of variables.
fn are_filled(alloc: Global, typed: &Typed, all: &Values) -> Result<bool, Memory>
    ensures { IfOk result (λ b. b ≡ spec.are_filled typed.now.service all.now) }
{
    all_filled(alloc, typed, all.as_slice())
}

/// Whether so is what a session carries and shows.
fn is_filled_session(alloc: Global, typed: &Typed, one: &Record) -> Result<bool, Memory>
    ensures { IfOk result (λ b. b ≡ spec.is_filled_session typed.now.service one.now) }
{
    if !are_filled(alloc, typed, &one.frame.locals)? {
        return Ok(false);
    }
    is_filled(alloc, typed, &one.page)
}

/// Whether so are these sessions.
fn are_filled_sessions(alloc: Global, typed: &Typed, records: &[Record]) -> Result<bool, Memory>
    ensures { IfOk result (λ b. b ≡ list_all (spec.is_filled_session typed.now.service) records.now) }
{
    for record in records {
        if !is_filled_session(alloc, typed, record)? {
            return Ok(false);
        }
    }
    Ok(true)
}

/// Whether each plug of each document that is to be saved filled a gap. Without that nothing bounds how many operations make
/// a document, for a plug that fills nothing adds as much to its weight, whatever is plugged.
pub fn is_all_filled(alloc: Global, typed: &Typed, saved: &Saved) -> Result<bool, Memory>
    ensures { IfOk result (λ b. b ≡ spec.is_all_filled typed.now.service saved.now) }
{
    if !are_filled(alloc, typed, &saved.shared)? {
        return Ok(false);
    }
    are_filled_sessions(alloc, typed, saved.records.as_slice())
}
