//! Cases of insides of templates that become items. A case has the lines
//!
//! - `text PARTS`: the inside
//! - `most N`: how many elements may stand inside one another where no gap is allowed; 64
//!
//! and wants
//!
//! - `items PARTS` or `fault WORDS`: what it is read as with gaps, or why it isn't read
//! - `gaps NAME ..`: the names of its gaps, in the order of their numbers; none
//! - `closed_items PARTS` or `closed_fault WORDS`: the same as the first where no gap is allowed; the same
//! - `left PARTS`: what is left of the items without the gaps; the items
//!
//! Items are written one behind the other, parted by blanks: a text as `'TEXT'`, a gap as `<NUMBER>`, and an element
//! as `(TAG NAME='VALUE' NAME=<NUMBER> ITEMS)`. The faults are `malformed`, `repeated attribute`, `mismatched` and
//! `nesting`.

use bw_lang::limits::MAX_TEMPLATE_NEST;
use bw_lang::{Attr, AttrValue, Attrs, GapId, GapNames, Item, Items, Text, Tree};
use bw_tmpl::{TmplFault, read_closed, read_template};
use case_files::{Case, Fault, Line, Texts, Verdict, escaped};
use std::alloc::{AllocError, Global};

/// What a text is to be read as.
#[derive(Clone, Copy)]
enum Outcome<'a> {
    /// These items, in parts.
    Items(&'a str),
    /// A fault of these words.
    Fault(&'a str),
}

impl Outcome<'_> {
    /// Puts it behind other words.
    fn put(&self, alloc: Global, texts: &Texts<'_>, words: &mut String) -> Result<(), Fault> {
        match self {
            Outcome::Items(parts) => words.push_str(&texts.join_escaped(alloc, parts)?)?,
            Outcome::Fault(fault) => words.push_str(fault)?,
        }
        Ok(())
    }
}

/// The lines of a case: an inside of a template, in parts, and what is wanted of it.
#[derive(Clone, Copy)]
struct TemplateCase<'a> {
    text: &'a str,
    most: u32,
    items: Outcome<'a>,
    gaps: &'a str,
    closed: Option<Outcome<'a>>,
    left: Option<Outcome<'a>>,
}

/// Tries an inside of a template.
pub fn try_case(alloc: Global, texts: &Texts<'_>, case: &Case<'_>) -> Result<Verdict, Fault> {
    let template_case = TemplateCase::of(case)?;
    let text = texts.join(alloc, template_case.text)?;
    let got = template_case.got(alloc, &text)?;
    Ok(Verdict::of(template_case.wanted(alloc, texts)?, got))
}

impl<'a> TemplateCase<'a> {
    /// The lines of this case.
    fn of(case: &Case<'a>) -> Result<TemplateCase<'a>, Fault> {
        let mut template_case = TemplateCase {
            text: "",
            most: MAX_TEMPLATE_NEST,
            items: Outcome::Items(""),
            gaps: "",
            closed: None,
            left: None,
        };
        for line in &case.lines {
            template_case.take(*line)?;
        }
        Ok(template_case)
    }

    /// Takes the next line.
    fn take(&mut self, line: Line<'a>) -> Result<(), Fault> {
        match line.key {
            "text" => self.text = line.value,
            "most" => self.most = line.value.parse()?,
            "items" => self.items = Outcome::Items(line.value),
            "fault" => self.items = Outcome::Fault(line.value),
            "gaps" => self.gaps = line.value,
            "closed_items" => self.closed = Some(Outcome::Items(line.value)),
            "closed_fault" => self.closed = Some(Outcome::Fault(line.value)),
            "left" => self.left = Some(Outcome::Items(line.value)),
            _ => return Err(Fault::Malformed),
        }
        Ok(())
    }

    /// What is wanted.
    fn wanted(&self, alloc: Global, texts: &Texts<'_>) -> Result<String, Fault> {
        let mut wanted = String::new(alloc);
        self.items.put(alloc, texts, &mut wanted)?;
        self.put_gaps(&mut wanted)?;
        wanted.push_str("; left ")?;
        let left = self.left.unwrap_or(self.items);
        left.put(alloc, texts, &mut wanted)?;
        wanted.push_str("; closed ")?;
        let closed = self.closed.unwrap_or(self.items);
        closed.put(alloc, texts, &mut wanted)?;
        Ok(wanted)
    }

    /// Puts the gaps that are wanted behind other words.
    fn put_gaps(&self, words: &mut String) -> Result<(), AllocError> {
        let count = self.gaps.split_whitespace().count();
        write!(words, "; {count} gaps")?;
        for (number, name) in self.gaps.split_whitespace().enumerate() {
            write!(words, " {name} {number}")?;
        }
        Ok(())
    }

    /// What comes.
    fn got(&self, alloc: Global, text: &[u8]) -> Result<String, Fault> {
        let mut got = self.open(alloc, text)?;
        let closed = shown_closed(alloc, text, self.most)?;
        got.push_str("; closed ")?;
        got.push_str(&closed)?;
        Ok(got)
    }

    /// What comes where gaps are allowed.
    fn open(&self, alloc: Global, text: &[u8]) -> Result<String, Fault> {
        let mut names = GapNames::new(alloc);
        let shown = self.open_over(alloc, text, &mut names);
        drop(names);
        shown
    }

    /// What comes where gaps are allowed, behind gaps of these names.
    fn open_over(&self, alloc: Global, text: &[u8], names: &mut GapNames) -> Result<String, Fault> {
        let (mut shown, left) = shown_open(alloc, text, names)?;
        self.put_numbers(names, &mut shown)?;
        shown.push_str("; left ")?;
        shown.push_str(&left)?;
        Ok(shown)
    }

    /// Puts how many gaps there are, and the numbers of those that are wanted, behind other words.
    fn put_numbers(&self, names: &GapNames, words: &mut String) -> Result<(), AllocError> {
        let count = names.len();
        write!(words, "; {count} gaps")?;
        for name in self.gaps.split_whitespace() {
            let number = names.number(name).number();
            write!(words, " {name} {number}")?;
        }
        Ok(())
    }
}

/// The items that the text reads as, and what is left of them without their gaps.
fn shown_open(alloc: Global, text: &[u8], names: &mut GapNames) -> Result<(String, String), Fault> {
    match read_template(alloc, text, names) {
        Ok(items) => {
            let tree = Tree { items };
            let shown = shown_both(alloc, &tree);
            drop(tree);
            shown
        }
        Err(fault) => Ok((shown_fault(alloc, fault)?, shown_fault(alloc, fault)?)),
    }
}

fn shown_both(alloc: Global, tree: &Tree) -> Result<(String, String), Fault> {
    let left = tree.close()?;
    let left_items = shown_items(alloc, &left.items);
    drop(left);
    let left_items = left_items?;
    Ok((shown_items(alloc, &tree.items)?, left_items))
}

/// The items that the text reads as where no gap is allowed.
fn shown_closed(alloc: Global, text: &[u8], most: u32) -> Result<String, AllocError> {
    match read_closed(alloc, text, most) {
        Ok(items) => {
            let shown = shown_items(alloc, &items);
            drop(items);
            shown
        }
        Err(fault) => shown_fault(alloc, fault),
    }
}

fn shown_fault(alloc: Global, fault: TmplFault) -> Result<String, AllocError> {
    let words = match fault {
        TmplFault::Malformed => "malformed",
        TmplFault::RepeatedAttribute => "repeated attribute",
        TmplFault::Mismatched => "mismatched",
        TmplFault::Nesting => "nesting",
        TmplFault::Memory => "out of memory",
    };
    String::from_str(alloc, words)
}

/// Items one behind the other, as the cases have them.
pub fn shown_items(alloc: Global, items: &Items) -> Result<String, AllocError> {
    let mut out = String::new(alloc);
    write_items(items, &mut out)?;
    escaped(alloc, out.trim().as_bytes())
}

/// Writes items, each behind a blank.
#[tactic(auto, using(bw_lang::proofs::Forests::size_at_read))]
#[cycle(write)]
fn write_items(items: &Items, out: &mut String) -> Result<(), AllocError> {
    for item in items.as_slice() {
        write_item(item, out)?;
    }
    Ok(())
}

#[cycle(write)]
fn write_item(item: &Item, out: &mut String) -> Result<(), AllocError> {
    out.push(' ')?;
    match item {
        Item::Text(text) => write_quoted(text, out),
        Item::Gap(gap) => write_gap(*gap, out),
        Item::Element(element) => {
            out.push('(')?;
            out.push_str(element.tag.as_str())?;
            write_attrs(&element.attrs, out)?;
            write_items(&element.items, out)?;
            out.push(')')
        }
    }
}

/// Writes attributes, each behind a blank.
fn write_attrs(attrs: &Attrs, out: &mut String) -> Result<(), AllocError> {
    for attr in attrs.as_slice() {
        write_attr(attr, out)?;
    }
    Ok(())
}

fn write_attr(attr: &Attr, out: &mut String) -> Result<(), AllocError> {
    out.push(' ')?;
    out.push_str(attr.name.as_str())?;
    out.push('=')?;
    match &attr.value {
        AttrValue::Fixed(value) => write_quoted(value, out),
        AttrValue::Hole(gap) => write_gap(*gap, out),
    }
}

fn write_quoted(text: &Text, out: &mut String) -> Result<(), AllocError> {
    out.push('\'')?;
    out.push_str(text.as_str())?;
    out.push('\'')
}

fn write_gap(gap: GapId, out: &mut String) -> Result<(), AllocError> {
    let number = gap.number();
    write!(out, "<{number}>")
}
