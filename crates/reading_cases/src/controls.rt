//! Cases of controls in templates. A case has the line `text PARTS`, the inside of a template that stands in no
//! service, and wants the line `fields NAME KIND, ..`, the names and kinds of its fields in order, or `fields none`.

use bw_lang::{FieldKind, GapNames, Tree};
use bw_page::{FieldUse, fields};
use bw_tmpl::read_template;
use case_files::{Case, Fault, Texts, Verdict};
use std::alloc::{AllocError, Global};

/// Tries a template.
pub fn try_case(alloc: Global, texts: &Texts<'_>, case: &Case<'_>) -> Result<Verdict, Fault> {
    let mut text = Vec::new(alloc);
    let mut wanted = String::new(alloc);
    for line in &case.lines {
        match line.key {
            "text" => text = texts.join(alloc, line.value)?,
            "fields" => wanted = String::from_str(alloc, line.value)?,
            _ => return Err(Fault::Malformed),
        }
    }
    Ok(Verdict::of(wanted, fields_of(alloc, &text)?))
}

/// The fields of the template.
fn fields_of(alloc: Global, text: &[u8]) -> Result<String, Fault> {
    let mut names = GapNames::new(alloc);
    let read = read_template(alloc, text, &mut names);
    drop(names);
    match read {
        Ok(items) => {
            let tree = Tree { items };
            let shown = fields_of_tree(alloc, &tree);
            drop(tree);
            shown
        }
        Err(_) => Err(Fault::Malformed),
    }
}

/// The fields of what the template reads as.
fn fields_of_tree(alloc: Global, tree: &Tree) -> Result<String, Fault> {
    let list = fields(tree)?;
    let shown = shown_fields(alloc, list.as_slice());
    drop(list);
    Ok(shown?)
}

fn shown_fields(alloc: Global, list: &[FieldUse]) -> Result<String, AllocError> {
    if list.is_empty() {
        return String::from_str(alloc, "none");
    }
    let mut shown = String::new(alloc);
    for field in list {
        if !shown.is_empty() {
            shown.push_str(", ")?;
        }
        shown.push_str(field.name.as_str())?;
        shown.push_str(kind_word(field.kind))?;
    }
    Ok(shown)
}

/// The word of a kind, behind a blank.
fn kind_word(kind: FieldKind) -> &'static str {
    match kind {
        FieldKind::Single => " single",
        FieldKind::Choice => " choice",
        FieldKind::Many => " many",
    }
}
