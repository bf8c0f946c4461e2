//! Items that are put behind others, and documents that begin as others.
ghost use Rattle.std.specs.Prelude.{◌≡◌, if◌then◌else◌, OnOk};
ghost use Rattle.bw_lang.specs.Document.Documents.{append};
ghost use Rattle.bw_lang.specs.Document.Forest.{none, element as node, text as words};

use crate::aim::Made;
use bw_lang::{Element, Item, Items, Memory, Text};

/// Puts a text behind the others.
pub fn put_text(text: &Text, out: &mut Items) -> Result<(), Memory>
    ensures { OnOk result (out.new ≡ append out.old (words text.now none)) }
{
    out.push(Item::Text(text.copy()?))?;
    Ok(())
}

/// Puts an element with these attributes and items behind the others.
pub fn put_element(element: &Element, made: Made, out: &mut Items) -> Result<(), Memory>
    ensures { OnOk result (out.new ≡ append out.old (node element.now.tag made.attrs made.items none)) }
{
    let Ok(tag) = element.tag.copy() else {
        drop(made);
        return Err(Memory);
    };
    let Made { attrs, items } = made;
    out.push(Item::Element(Element { tag, attrs, items }))?;
    Ok(())
}

/// The other document, or this one where it is the same.
pub fn rebase(is_same: bool, base: &Items, own: &mut Items) -> Result<(), Memory>
    ensures { OnOk result (own.new ≡ (if is_same then own.old else base.now)) }
{
    if !is_same {
        *own = base.copy()?;
    }
    Ok(())
}

/// The first of two lists of items, or the second.
pub fn either<'x>(is_first: bool, first: &'x Items, second: &'x Items) -> &'x Items
    ensures { result.now ≡ (if is_first then first.now else second.now) }
{
    if is_first { first } else { second }
}
