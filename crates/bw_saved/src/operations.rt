//! Taking documents apart, operation by operation.
ghost use Rattle.std.specs.Prelude.{◌≡◌, ◌∷◌, [], IfOk, MatchOption};
ghost use Rattle.bw_doc.specs.Operations.{operations};
ghost use Rattle.bw_saved.specs.Documents.Left.{all_left, last_of, IsLeftOf};

use bw_doc::{Doc, Part};
use bw_lang::Memory;
use std::alloc::Global;

/// A document that is left to be taken apart, or whose parts were taken already, so that its last operation alone is left.
#[derive(Clone, Copy)]
pub struct Task<'a> {
    doc: &'a Doc,
    entered: bool,
}

/// The operations of this document, as they are left to be taken: those of its parts first.
pub fn operations_of<'a>(alloc: Global, doc: &'a Doc) -> Result<Vec<Task<'a>>, Memory>
    ensures { IfOk result (λ o. all_left o.items ≡ operations doc.now) }
{
    let mut tasks = Vec::new(alloc);
    tasks.push(Task {
        doc,
        entered: false,
    })?;
    Ok(tasks)
}

/// The part of the document whose last operation comes next, or none where no operation is left. It doesn't call itself,
/// however deep the document is.
pub fn next<'a>(tasks: &mut Vec<Task<'a>>) -> Result<Option<&'a Doc>, Memory>
    ensures { IfOk result (λ o. MatchOption o (all_left tasks.old.items ≡ [])
        (λ d. all_left tasks.old.items ≡ last_of d.now ∷ all_left tasks.new.items)) }
{
    while let Some(task) = tasks.pop() {
        if is_last(task, tasks)? {
            return Ok(Some(task.doc));
        }
    }
    Ok(None)
}

/// Whether only the last operation of the document is left. Where it isn't, its parts come first, and then it.
fn is_last<'a>(task: Task<'a>, tasks: &mut Vec<Task<'a>>) -> Result<bool, Memory>
    ensures { IfOk result (IsLeftOf task.entry tasks.old.items tasks.new.items) }
{
    if task.entered {
        return Ok(true);
    }
    match task.doc.part() {
        Part::Constant(_) => Ok(true),
        Part::Plug { base, gap: _, arg } => {
            tasks.push(Task {
                doc: task.doc,
                entered: true,
            })?;
            tasks.push(Task {
                doc: arg,
                entered: false,
            })?;
            tasks.push(Task {
                doc: base,
                entered: false,
            })?;
            Ok(false)
        }
        Part::PlugText {
            base,
            gap: _,
            text: _,
        } => {
            tasks.push(Task {
                doc: task.doc,
                entered: true,
            })?;
            tasks.push(Task {
                doc: base,
                entered: false,
            })?;
            Ok(false)
        }
    }
}
