//! Reading of documents.
ghost use Rattle.std.specs.Prelude.{◌≡◌, [], ◌≤◌, ℕ, List, length, option_map};
ghost use Rattle.bw_lang.specs.declared.limits.TheConstants.{MAX_STRING_BYTES};
ghost use Rattle.bw_saved.specs.Documents.Reading as spec;
ghost use Rattle.bw_saved.specs.Fields.Reading.{Gives};
ghost use Rattle.bw_types.specs.Gaps.{kind_of_number};

use crate::fault::ReadError;
use crate::fields::{text_at, u16_at, u32_at};
use crate::stack::Stack;
use bw_doc::{Doc, DocFault};
use bw_lang::{GapId, TemplateId, Text};
use bw_types::{GapKind, Typed};
use std::alloc::Global;

/// Whether documents may be plugged into the gap.
fn is_content(typed: &Typed, gap: GapId) -> bool
    ensures { result ≡ spec.is_content (kind_of_number typed.now.service gap) }
{
    matches!(typed.gap_kind(gap), Some(GapKind::Content))
}

/// Whether the gap is one of the service's, and open.
fn opens(typed: &Typed, base: &Doc, gap: GapId) -> bool
    ensures { result ≡ spec.opens typed.now.service base.now gap }
{
    (gap.number() as usize) < typed.service().gaps.len() && base.count(gap) > 0
}

/// The document of the template of that number.
fn constant_of(typed: &Typed, n: u16) -> Result<Doc, ReadError>
    ensures { Gives (λ d. d) result (spec.constant_of typed.now.service n) }
{
    if usize::from(n) < typed.service().templates.as_slice().len() {
        Ok(Doc::constant(typed, TemplateId::of(u32::from(n)))?)
    } else {
        Err(ReadError::Malformed)
    }
}

/// The base with the document in its open content gaps. Malformed where the gap isn't one of these, or the result is over a
/// limit of documents.
fn plug_of(typed: &Typed, gap: GapId, base: &Doc, arg: &Doc) -> Result<Doc, ReadError>
    ensures { Gives (λ d. d) result (spec.plug_of typed.now.service gap base.now arg.now) }
{
    if !is_content(typed, gap) {
        return Err(ReadError::Malformed);
    }
    if !opens(typed, base, gap) {
        return Err(ReadError::Malformed);
    }
    match base.plug(gap, arg) {
        Ok(doc) => Ok(doc),
        Err(DocFault::Heavy(_)) => Err(ReadError::Malformed),
        Err(DocFault::Deep(_)) => Err(ReadError::Malformed),
        Err(DocFault::Nested(_)) => Err(ReadError::Malformed),
        Err(DocFault::Memory) => Err(ReadError::Memory),
    }
}

/// The base with the text in its open gaps. Malformed where no gap of that number is open, or the result is over a limit of
/// documents.
fn text_of(typed: &Typed, gap: GapId, text: &Text, base: &Doc) -> Result<Doc, ReadError>
    requires { length text.now ≤ MAX_STRING_BYTES }
    ensures { Gives (λ d. d) result (spec.text_of typed.now.service gap text.now base.now) }
{
    if !opens(typed, base, gap) {
        return Err(ReadError::Malformed);
    }
    match base.plug_text(gap, text.as_str()) {
        Ok(doc) => Ok(doc),
        Err(DocFault::Heavy(_)) => Err(ReadError::Malformed),
        Err(DocFault::Deep(_)) => Err(ReadError::Malformed),
        Err(DocFault::Nested(_)) => Err(ReadError::Malformed),
        Err(DocFault::Memory) => Err(ReadError::Memory),
    }
}

/// Puts the document of a template on the stack.
fn put_constant(typed: &Typed, n: u16, stack: &mut Stack) -> Result<(), ReadError>
    ensures { Gives (λ _. stack.new) result (spec.put_constant typed.now.service n stack.old) }
{
    let doc = constant_of(typed, n)?;
    stack.push(doc)?;
    Ok(())
}

/// Takes two documents from the stack, and puts the second with the first in its gaps on it.
fn put_plug(typed: &Typed, n: u16, stack: &mut Stack) -> Result<(), ReadError>
    ensures { Gives (λ _. stack.new) result (spec.put_plug typed.now.service n stack.old) }
{
    let Some(arg) = stack.pop() else {
        return Err(ReadError::Malformed);
    };
    let Some(base) = stack.pop() else {
        return Err(ReadError::Malformed);
    };
    let doc = plug_of(typed, GapId::of(u32::from(n)), &base, &arg)?;
    stack.push(doc)?;
    Ok(())
}

/// Puts a text into the gaps of the document on top.
fn put_text(typed: &Typed, n: u16, text: &Text, stack: &mut Stack) -> Result<(), ReadError>
    requires { length text.now ≤ MAX_STRING_BYTES }
    ensures { Gives (λ _. stack.new) result (spec.put_text typed.now.service n text.now stack.old) }
{
    let Some(base) = stack.pop() else {
        return Err(ReadError::Malformed);
    };
    let doc = text_of(typed, GapId::of(u32::from(n)), text, &base)?;
    stack.push(doc)?;
    Ok(())
}

/// Reads an operation and does it. Answers the bytes behind it.
#[tactic(auto, unfolding(crate::specs::Documents::Reading::operation_at))]
fn operation_at<'a>(
    alloc: Global,
    typed: &Typed,
    stack: &mut Stack,
    bytes: &'a [u8],
) -> Result<&'a [u8], ReadError>
    ensures { Gives (λ rest. (stack.new, rest.now)) result (spec.operation_at typed.now.service stack.old bytes.now) }
{
    match bytes {
        [] => Err(ReadError::Malformed),
        [0, rest @ ..] => {
            let (n, rest) = u16_at(rest)?;
            put_constant(typed, n, stack)?;
            Ok(rest)
        }
        [1, rest @ ..] => {
            let (n, rest) = u16_at(rest)?;
            put_plug(typed, n, stack)?;
            Ok(rest)
        }
        [2, rest @ ..] => {
            let (n, rest) = u16_at(rest)?;
            let (text, rest) = text_at(alloc, rest)?;
            put_text(typed, n, &text, stack)?;
            Ok(rest)
        }
        [_, ..] => Err(ReadError::Malformed),
    }
}

/// The one document that is left, if it is one.
fn only(mut stack: Stack) -> Option<Doc>
    ensures { (rest : List ℕ) → spec.only stack rest ≡ option_map (λ d. (d, rest)) result }
{
    let doc = stack.pop()?;
    match stack.pop() {
        None => Some(doc),
        Some(_) => None,
    }
}

/// So many operations, which leave one document.
fn operations_at<'a>(
    alloc: Global,
    typed: &Typed,
    count: u32,
    bytes: &'a [u8],
) -> Result<(Doc, &'a [u8]), ReadError>
    ensures { Gives (λ x. (x.0, x.1.now)) result (spec.operations_at typed.now.service count [] bytes.now) }
{
    let mut stack = Stack::new(alloc);
    let mut rest = bytes;
    for _ in 0..count {
        rest = operation_at(alloc, typed, &mut stack, rest)?;
    }
    match only(stack) {
        Some(doc) => Ok((doc, rest)),
        None => Err(ReadError::Malformed),
    }
}

/// A document: how many operations make it, and these. Answers it and the bytes behind it.
#[tactic(auto, unfolding(crate::specs::Documents::Reading::document_at))]
pub(crate) fn document_at<'a>(
    alloc: Global,
    typed: &Typed,
    bytes: &'a [u8],
) -> Result<(Doc, &'a [u8]), ReadError>
    ensures { Gives (λ x. (x.0, x.1.now)) result (spec.document_at typed.now.service bytes.now) }
{
    let (count, rest) = u32_at(bytes)?;
    operations_at(alloc, typed, count, rest)
}
