//! The pages of documents, ready to be sent.
ghost use Rattle.std.specs.Prelude.{◌≡◌, ◌++◌, codes, length, IfOk, OnOk};
ghost use Rattle.bw_lang.specs.Document.Print.{print};
ghost use Rattle.bw_page.specs.Pages.{show_page, exit_page};
ghost use Rattle.bw_doc.specs.Made.{tree};
ghost use Rattle.bw_doc.specs.Sheets.{page_of};

use crate::doc::Doc;
use crate::output::Output;
use crate::walk::put_doc;
use bw_lang::{Memory, Name, Text};
use bw_page::Sheet;
use std::alloc::Global;

impl Doc {
    /// The number of bytes that the document prints to, open gaps left out.
    pub fn length(&self) -> Result<u64, Memory>
        ensures { IfOk result (λ n. n ≡ length (print (tree self.now))) }
    {
        let alloc = self.alloc();
        let mut out = Output::new(alloc);
        put_doc(alloc, self, &mut out)?;
        Ok(out.into_bytes().len() as u64)
    }

    /// The whole page under this title: with a target the page that shows the document in a form, and without one the
    /// last page of a session.
    pub fn sheet(&self, title: &Name, target: Option<&Text>) -> Result<Sheet, Memory>
        ensures { IfOk result (λ sheet. sheet ≡ print (page_of title.now target.entry (tree self.now))) }
    {
        let alloc = self.alloc();
        let mut out = Output::new(alloc);
        match target {
            Some(target) => put_show(alloc, title, target, self, &mut out)?,
            None => put_exit(alloc, title, self, &mut out)?,
        }
        Ok(Sheet::from_bytes(out.into_bytes()))
    }
}

fn put_show(
    alloc: Global,
    title: &Name,
    target: &Text,
    doc: &Doc,
    out: &mut Output,
) -> Result<(), Memory>
    ensures { OnOk result (out.new ≡ out.old ++ print (show_page title.now target.now (tree doc.now))) }
{
    out.put(b"<html><head><title>")?;
    out.put_text(title.as_str())?;
    out.put(b"</title></head><body><form action=\"")?;
    out.put_text(target.as_str())?;
    out.put(b"\" method=\"post\">")?;
    put_doc(alloc, doc, out)?;
    out.put(b"<p><input type=\"submit\" value=\"Continue\"/></p></form></body></html>")
}

fn put_exit(alloc: Global, title: &Name, doc: &Doc, out: &mut Output) -> Result<(), Memory>
    ensures { OnOk result (out.new ≡ out.old ++ print (exit_page title.now (tree doc.now))) }
{
    out.put(b"<html><head><title>")?;
    out.put_text(title.as_str())?;
    out.put(b"</title></head><body>")?;
    put_doc(alloc, doc, out)?;
    out.put(b"</body></html>")
}
