//! The wrappers that documents are plugged into to become pages.
ghost use Rattle.std.specs.Prelude.{◌≡◌, ◌∷◌, ◌<◌, ◌-◌, ◌^◌, [], codes, length, IfOk};
ghost use Rattle.bw_lang.specs.Document.Forest.{none};
ghost use Rattle.bw_lang.specs.Document.Forest as document;
ghost use Rattle.bw_lang.specs.Document.View.{before};
ghost use Rattle.bw_lang.specs.Document.Wrappers as spec;

use crate::items::{Attr, AttrValue, Attrs, Element, Item, Items};
use crate::names::GapNames;
use crate::text::{Memory, Name, Text};
use std::alloc::Global;

/// The items of the wrapper of shown pages, for a service whose gaps have these names: a form that is sent by POST
/// (HTML 4.01, section 17.3), with the gaps `title`, `target` and `document`.
pub fn show_wrapper(alloc: Global, gaps: &GapNames) -> Result<Items, Memory>
    requires { length gaps.now < 2 ^ 32 - 3 }
    ensures { IfOk result (λ items. items ≡ spec.show_wrapper (length gaps.now)) }
{
    let document = Items::one(alloc, Item::Gap(gaps.document()))?;
    let form = form(alloc, AttrValue::Hole(gaps.target()), document)?;
    page(alloc, Item::Gap(gaps.title()), Items::one(alloc, form)?)
}

/// The items of the wrapper of a session's last page, with the gaps `title` and `document`.
pub fn exit_wrapper(alloc: Global, gaps: &GapNames) -> Result<Items, Memory>
    requires { length gaps.now < 2 ^ 32 - 3 }
    ensures { IfOk result (λ items. items ≡ spec.exit_wrapper (length gaps.now)) }
{
    let document = Items::one(alloc, Item::Gap(gaps.document()))?;
    page(alloc, Item::Gap(gaps.title()), document)
}

/// A whole page with this as its title, and these items in its body.
pub fn page(alloc: Global, title: Item, body: Items) -> Result<Items, Memory>
    ensures { IfOk result (λ items. items ≡ spec.page (before title none) body) }
{
    let mut inside = Items::one(alloc, head(alloc, title)?)?;
    inside.push(plain(alloc, "body", body)?)?;
    let html = plain(alloc, "html", inside)?;
    Items::one(alloc, html)
}

/// The form of a shown page: the items, and behind them the button.
pub fn form(alloc: Global, target: AttrValue, mut items: Items) -> Result<Item, Memory>
    ensures { IfOk result (λ item. before item none ≡ spec.form target items) }
{
    items.push(button(alloc)?)?;
    let action = attr(alloc, "action", target)?;
    let attrs = two_attrs(alloc, action, fixed(alloc, "method", "post")?)?;
    element(alloc, "form", attrs, items)
}

/// The head of a page, with its title.
fn head(alloc: Global, title: Item) -> Result<Item, Memory>
    ensures { IfOk result (λ item. before item none ≡ spec.plain (codes "head") (spec.plain (codes "title") (before title none))) }
{
    let title = plain(alloc, "title", Items::one(alloc, title)?)?;
    plain(alloc, "head", Items::one(alloc, title)?)
}

/// The button at the end of a form.
fn button(alloc: Global) -> Result<Item, Memory>
    ensures { IfOk result (λ item. before item none ≡ spec.button) }
{
    let kind = fixed(alloc, "type", "submit")?;
    let attrs = two_attrs(alloc, kind, fixed(alloc, "value", "Continue")?)?;
    let input = element(alloc, "input", attrs, Items::new(alloc))?;
    plain(alloc, "p", Items::one(alloc, input)?)
}

/// An element without attributes.
fn plain(alloc: Global, tag: &str, items: Items) -> Result<Item, Memory>
    ensures { IfOk result (λ item. before item none ≡ spec.plain tag.now items) }
{
    element(alloc, tag, Attrs::new(alloc), items)
}

/// An element with these attributes.
fn element(alloc: Global, tag: &str, attrs: Attrs, items: Items) -> Result<Item, Memory>
    ensures { IfOk result (λ item. before item none ≡ document.element tag.now attrs items none) }
{
    Ok(Item::Element(Element {
        tag: Name::of(alloc, tag)?,
        attrs,
        items,
    }))
}

/// An attribute with a fixed value.
fn fixed(alloc: Global, name: &str, value: &str) -> Result<Attr, Memory>
    ensures { IfOk result (λ a. a ≡ spec.attr name.now (AttrValue.Fixed value.now)) }
{
    attr(alloc, name, AttrValue::Fixed(Text::of(alloc, value)?))
}

/// An attribute with this value.
fn attr(alloc: Global, name: &str, value: AttrValue) -> Result<Attr, Memory>
    ensures { IfOk result (λ a. a ≡ spec.attr name.now value) }
{
    Ok(Attr {
        name: Name::of(alloc, name)?,
        value,
    })
}

/// The attributes of an element that has two.
fn two_attrs(alloc: Global, first: Attr, second: Attr) -> Result<Attrs, Memory>
    ensures { IfOk result (λ attrs. attrs ≡ first ∷ second ∷ []) }
{
    let mut attrs = Attrs::new(alloc);
    attrs.push(first)?;
    attrs.push(second)?;
    Ok(attrs)
}
