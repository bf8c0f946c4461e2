//! Documents that are made in two ways.

use crate::plain::Plain;
use bw_doc::{Doc, DocFault};
use bw_lang::{GapId, Memory, Name, TemplateId, Text};
use bw_page::Sheet;
use bw_types::Typed;
use case_files::Fault;
use std::alloc::{AllocError, Global};

/// The longest text that a gap is filled with.
const MAX_TEXT: usize = 16_384;

/// A document that shares its parts, and the same one as a plain tree.
#[derive(Drop)]
pub struct Both {
    doc: Doc,
    plain: Plain,
}

/// Why there is no such document.
#[derive(Drop)]
pub enum Refusal {
    /// It is over a limit.
    Limit(DocFault),
    /// The two ways to make it give something else.
    Differs,
    /// It can't be tried.
    Fault(Fault),
}

impl From<Fault> for Refusal {
    fn from(fault: Fault) -> Refusal {
        Refusal::Fault(fault)
    }
}

impl Both {
    /// The template of that name.
    pub fn constant(typed: &Typed, name: &str) -> Result<Both, Fault> {
        let number = typed.template(name).ok_or(Fault::Malformed)?;
        let template = typed.template_at(number).ok_or(Fault::Malformed)?;
        paired(Doc::constant(typed, number)?, Plain::constant(template))
    }

    pub fn copy(&self) -> Result<Both, Fault> {
        paired(self.doc.copy()?, self.plain.copy())
    }

    pub fn plug(&self, gap: GapId, other: &Both) -> Result<Both, Refusal> {
        joined(
            self.doc.plug(gap, &other.doc),
            self.plain.plug(gap, &other.plain),
        )
    }

    pub fn fill(&self, gap: GapId, text: &str) -> Result<Both, Refusal> {
        if text.len() > MAX_TEXT {
            return Err(Refusal::Fault(Fault::Malformed));
        }
        joined(self.doc.plug_text(gap, text), self.plain.fill(gap, text))
    }

    /// Weight, depth and nest.
    pub fn measure(&self, alloc: Global) -> Result<String, AllocError> {
        let measure = self.doc.measure();
        if measure != self.plain.measure {
            return String::from_str(alloc, "differs");
        }
        let (weight, depth, nest) = (measure.weight, measure.depth, measure.nest);
        format!(in alloc; "weight {weight} depth {depth} nest {nest}")
    }

    /// How many gaps of that number are open, and how many elements stand around one at most.
    pub fn gaps(&self, alloc: Global, gap: GapId) -> Result<String, AllocError> {
        let gaps = self.plain.gaps(gap);
        if gaps.count != self.doc.count(gap) || gaps.around != self.doc.around(gap) {
            return String::from_str(alloc, "differs");
        }
        format!(in alloc; "{} open with {} around", gaps.count, gaps.around)
    }

    /// How many bytes it prints to.
    pub fn length(&self, alloc: Global) -> Result<String, Fault> {
        let length = self.doc.length()?;
        let sheet = Sheet::of(alloc, &self.plain.tree)?;
        let is_same = sheet.length() == length;
        drop(sheet);
        if !is_same {
            return Ok(String::from_str(alloc, "differs")?);
        }
        Ok(format!(in alloc; "{length} bytes")?)
    }

    /// Its page as a session's last one.
    pub fn exit(&self, alloc: Global, title: &str) -> Result<String, Fault> {
        let title = Name::of(alloc, title)?;
        let shown = self.shown_page(alloc, &title, None);
        drop(title);
        shown
    }

    /// Its page in a form with this target.
    pub fn show(&self, alloc: Global, title: &str, target: &str) -> Result<String, Fault> {
        let title = Name::of(alloc, title)?;
        let shown = self.show_titled(alloc, &title, target);
        drop(title);
        shown
    }

    /// Its page of this title in a form with this target.
    fn show_titled(&self, alloc: Global, title: &Name, target: &str) -> Result<String, Fault> {
        let target = Text::of(alloc, target)?;
        let shown = self.shown_page(alloc, title, Some(&target));
        drop(target);
        shown
    }

    /// Its page, as a session's last one or in a form.
    fn shown_page(
        &self,
        alloc: Global,
        title: &Name,
        target: Option<&Text>,
    ) -> Result<String, Fault> {
        let (sheet, page) = self.pages(alloc, title, target)?;
        let shown = shown(alloc, sheet.as_bytes(), &page);
        drop(sheet);
        drop(page);
        shown
    }

    /// The pages of its two sides.
    fn pages(
        &self,
        alloc: Global,
        title: &Name,
        target: Option<&Text>,
    ) -> Result<(Sheet, Sheet), Fault> {
        let page = self.plain.page(alloc, title, target)?;
        match self.doc.sheet(title, target) {
            Ok(sheet) => Ok((sheet, page)),
            Err(memory) => {
                drop(page);
                Err(Fault::from(memory))
            }
        }
    }

    /// Whether its two sides have the same measure, as many gaps of that number, and pages of the same bytes.
    pub fn is_same(&self, alloc: Global, gap: GapId) -> Result<bool, Fault> {
        let title = Name::of(alloc, "Same")?;
        let has_same_page = self.has_same_page(alloc, &title);
        drop(title);
        Ok(has_same_page? && self.has_same_numbers(gap))
    }

    /// Whether its two sides have the same measure, and as many gaps of that number.
    fn has_same_numbers(&self, gap: GapId) -> bool {
        let gaps = self.plain.gaps(gap);
        self.doc.measure() == self.plain.measure
            && self.doc.count(gap) == gaps.count
            && self.doc.around(gap) == gaps.around
    }

    /// Whether the pages of its two sides have the same bytes.
    fn has_same_page(&self, alloc: Global, title: &Name) -> Result<bool, Fault> {
        let (sheet, page) = self.pages(alloc, title, None)?;
        let is_same = sheet.as_bytes() == page.as_bytes();
        drop(sheet);
        drop(page);
        Ok(is_same)
    }
}

/// A document of these two sides.
fn paired(doc: Doc, plain: Result<Plain, Memory>) -> Result<Both, Fault> {
    match plain {
        Ok(plain) => Ok(Both { doc, plain }),
        Err(memory) => {
            drop(doc);
            Err(Fault::from(memory))
        }
    }
}

/// A document where both ways give one, or the limit where both give the same.
fn joined(doc: Result<Doc, DocFault>, plain: Result<Plain, DocFault>) -> Result<Both, Refusal> {
    match doc {
        Ok(doc) => match plain {
            Ok(plain) => Ok(Both { doc, plain }),
            Err(fault) => {
                drop(doc);
                Err(why_refused(fault, None))
            }
        },
        Err(fault) => match plain {
            Ok(plain) => {
                drop(plain);
                Err(why_refused(fault, None))
            }
            Err(other) => Err(why_refused(fault, Some(other))),
        },
    }
}

/// Why there is no document, where one way gave this fault.
fn why_refused(fault: DocFault, other: Option<DocFault>) -> Refusal {
    if fault == DocFault::Memory || other == Some(DocFault::Memory) {
        return Refusal::Fault(Fault::Memory);
    }
    if other == Some(fault) {
        Refusal::Limit(fault)
    } else {
        Refusal::Differs
    }
}

/// How many bytes a page has, and these, where both ways give the same.
fn shown(alloc: Global, bytes: &[u8], page: &Sheet) -> Result<String, Fault> {
    if bytes != page.as_bytes() {
        return Ok(String::from_str(alloc, "differs")?);
    }
    let length = page.length();
    let text = String::from_utf8_lossy(alloc, bytes)?;
    Ok(format!(in alloc; "{length} bytes {text}")?)
}
