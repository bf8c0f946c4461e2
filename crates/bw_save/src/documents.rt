//! Writing of documents.
ghost use Rattle.std.specs.Prelude.{◌≡◌, ◌++◌, OnOk};
ghost use Rattle.bw_save.specs.Fitting.{FitsOperation, FitsDocument};
ghost use Rattle.bw_saved.specs.Documents.Layout as layout;
ghost use Rattle.bw_saved.specs.Documents.Left.{last_of};

use crate::fields::{put_text, put_u16};
use bw_doc::{Doc, Part};
use bw_lang::Memory;
use bw_saved::{next, operations_of};
use std::alloc::Global;

/// The last operation of a document.
fn put_last(out: &mut Vec<u8>, doc: &Doc) -> Result<(), Memory>
    requires { FitsOperation (last_of doc.now) }
    ensures { OnOk result (out.new.items ≡ out.old.items ++ layout.operation (last_of doc.now)) }
{
    match doc.part() {
        Part::Constant(template) => {
            out.push(0)?;
            put_u16(out, template.number())
        }
        Part::Plug {
            base: _,
            gap,
            arg: _,
        } => {
            out.push(1)?;
            put_u16(out, gap.number())
        }
        Part::PlugText { base: _, gap, text } => {
            out.push(2)?;
            put_u16(out, gap.number())?;
            put_text(out, text.as_bytes())?;
            Ok(())
        }
    }
}

/// A document: how many operations make it, and these.
pub(crate) fn put_document(alloc: Global, out: &mut Vec<u8>, doc: &Doc) -> Result<(), Memory>
    requires { FitsDocument doc.now }
    ensures { OnOk result (out.new.items ≡ out.old.items ++ layout.document doc.now) }
{
    let mut left = operations_of(alloc, doc)?;
    let mut bytes = Vec::new(alloc);
    let mut count: u32 = 0;
    while let Some(part) = next(&mut left)? {
        count += 1;
        put_last(&mut bytes, part)?;
    }
    out.extend_from_slice(&count.to_be_bytes())?;
    out.extend_from_slice(bytes.as_slice())?;
    Ok(())
}
