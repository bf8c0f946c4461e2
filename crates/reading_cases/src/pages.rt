//! Cases of bytes that are a page or none. A case has the line
//!
//! - `text PARTS`: the bytes
//!
//! and wants, where they are a page,
//!
//! - `items PARTS`: what it is read as, written as for insides of templates
//! - `prints PARTS`: what this prints to, which is read as the same again; the bytes
//!
//! and else `no page`.

use crate::templates::shown_items;
use bw_lang::{Items, Tree};
use bw_page::Sheet;
use bw_read::{PageFault, read_page};
use case_files::{Case, Fault, Line, Texts, Verdict, escaped};
use std::alloc::{AllocError, Global};

/// The lines of a case: the bytes, and what is wanted of them, in parts.
#[derive(Clone, Copy)]
struct PageCase<'a> {
    text: &'a str,
    items: Option<&'a str>,
    prints: Option<&'a str>,
}

/// Tries bytes.
pub fn try_case(alloc: Global, texts: &Texts<'_>, case: &Case<'_>) -> Result<Verdict, Fault> {
    let page_case = PageCase::of(case)?;
    let text = texts.join(alloc, page_case.text)?;
    let got = got(alloc, &text)?;
    Ok(Verdict::of(page_case.wanted(alloc, texts)?, got))
}

impl<'a> PageCase<'a> {
    /// The lines of this case.
    fn of(case: &Case<'a>) -> Result<PageCase<'a>, Fault> {
        let mut page_case = PageCase {
            text: "",
            items: None,
            prints: None,
        };
        for line in &case.lines {
            page_case.take(*line)?;
        }
        Ok(page_case)
    }

    /// Takes the next line.
    fn take(&mut self, line: Line<'a>) -> Result<(), Fault> {
        match line.key {
            "text" => self.text = line.value,
            "items" => self.items = Some(line.value),
            "prints" => self.prints = Some(line.value),
            _ => {
                if line.text != "no page" {
                    return Err(Fault::Malformed);
                }
            }
        }
        Ok(())
    }

    /// What is wanted.
    fn wanted(&self, alloc: Global, texts: &Texts<'_>) -> Result<String, Fault> {
        let Some(items) = self.items else {
            return Ok(String::from_str(alloc, "no page")?);
        };
        let items = texts.join_escaped(alloc, items)?;
        let prints = texts.join_escaped(alloc, self.prints.unwrap_or(self.text))?;
        Ok(in_a_row(alloc, &items, &prints, &items)?)
    }
}

/// The items of a page, what it prints to, and what this is read as.
fn in_a_row(alloc: Global, items: &str, prints: &str, again: &str) -> Result<String, AllocError> {
    let mut row = String::from_str(alloc, items)?;
    row.push_str("; prints ")?;
    row.push_str(prints)?;
    row.push_str("; again ")?;
    row.push_str(again)?;
    Ok(row)
}

/// What comes of bytes.
fn got(alloc: Global, bytes: &[u8]) -> Result<String, Fault> {
    match read_page(alloc, bytes) {
        Ok(page) => {
            let shown = shown_twice(alloc, &page);
            drop(page);
            shown
        }
        Err(fault) => shown_page(alloc, Err(fault)),
    }
}

/// A page, what it prints to, and what this is read as.
fn shown_twice(alloc: Global, page: &Tree) -> Result<String, Fault> {
    let sheet = Sheet::of(alloc, page)?;
    let shown = shown_again(alloc, &page.items, sheet.as_bytes());
    drop(sheet);
    shown
}

/// Items, the bytes that they print to, and what these are read as.
fn shown_again(alloc: Global, items: &Items, bytes: &[u8]) -> Result<String, Fault> {
    let again = shown_page(alloc, read_page(alloc, bytes))?;
    let items = shown_items(alloc, items)?;
    let prints = escaped(alloc, bytes)?;
    Ok(in_a_row(alloc, &items, &prints, &again)?)
}

fn shown_page(alloc: Global, page: Result<Tree, PageFault>) -> Result<String, Fault> {
    match page {
        Ok(page) => {
            let shown = shown_items(alloc, &page.items);
            drop(page);
            Ok(shown?)
        }
        Err(PageFault::NotAPage) => Ok(String::from_str(alloc, "no page")?),
        Err(PageFault::Memory) => Err(Fault::Memory),
    }
}
