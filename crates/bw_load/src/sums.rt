//! The summaries of documents.
ghost use Rattle.std.specs.Prelude.{◌≡◌, true, is_some, IfOk, OnOk, Some};
ghost use Rattle.bw_load.specs.Sums as spec;
ghost use Rattle.bw_saved.specs.Documents.Demands.{IsBuilt};
ghost use Rattle.bw_saved.specs.Documents.Left.{last_of};
ghost use Rattle.bw_strings.specs.Literals.{literals_of};

use crate::stack::Sums;
use bw_doc::{Doc, Part};
use bw_lang::Memory;
use bw_saved::{next, operations_of};
use bw_solve::Set;
use bw_strings::{Literals, StrSet};
use bw_sum::Summary;
use bw_types::Typed;
use std::alloc::Global;

/// What a text may be: the literal that it is, or any string.
pub(crate) fn string_of(alloc: Global, literals: &Literals, text: &str) -> Result<StrSet, Memory>
    ensures { IfOk result (λ s. s ≡ spec.string_of literals.now text.now) }
{
    let number = literals.number(text);
    if (number as usize) < literals.len() {
        Ok(StrSet::Of(Set::of(alloc, number)?))
    } else {
        Ok(StrSet::Any)
    }
}

/// What the last operation of a document makes of the summaries of its parts, which are on top of the stack.
fn put_sum(
    alloc: Global,
    typed: &Typed,
    literals: &Literals,
    part: &Doc,
    sums: &mut Sums,
) -> Result<(), Memory>
    requires known { spec.IsKnown typed.now.service (last_of part.now) }
    requires ready { is_some (spec.done typed.now.service (last_of part.now) sums.old) ≡ true }
    requires literals { literals.now ≡ literals_of typed.now.service }
    ensures { OnOk result (spec.done typed.now.service (last_of part.now) sums.old ≡ Some sums.new) }
{
    match part.part() {
        Part::Constant(template) => sums.push(Summary::constant(alloc, typed, template)?),
        Part::Plug {
            base: _,
            gap,
            arg: _,
        } => {
            let Some(a) = sums.pop() else { unreachable!() };
            let Some(b) = sums.pop() else { unreachable!() };
            sums.push(b.plug(alloc, gap, &a)?)
        }
        Part::PlugText { base: _, gap, text } => {
            let Some(b) = sums.pop() else { unreachable!() };
            let strings = string_of(alloc, literals, text.as_str())?;
            sums.push(b.plug_text(alloc, gap, &strings)?)
        }
    }
}

/// The summary of a document that is built of the service's templates. It goes over the document's operations and doesn't
/// call itself, however deep the document is.
pub(crate) fn sum_of(
    alloc: Global,
    typed: &Typed,
    literals: &Literals,
    doc: &Doc,
) -> Result<Summary, Memory>
    requires built { IsBuilt typed.now.service doc.now }
    requires literals { literals.now ≡ literals_of typed.now.service }
    ensures { IfOk result (λ s. s ≡ spec.sum_of typed.now.service doc.now) }
{
    let mut left = operations_of(alloc, doc)?;
    let mut sums = Sums::new(alloc);
    while let Some(part) = next(&mut left)? {
        put_sum(alloc, typed, literals, part, &mut sums)?;
    }
    let Some(sum) = sums.pop() else {
        unreachable!()
    };
    Ok(sum)
}
