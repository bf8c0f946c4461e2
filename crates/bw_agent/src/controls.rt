//! The controls of a form are listed, with what they may send.
ghost use Rattle.std.specs.Prelude.{◌≡◌, ◌++◌, IfOk, OnOk, string_bytes, codes};
ghost use Rattle.bw_lang.specs.Template.Controls.{fixed};
ghost use Rattle.bw_lang.specs.Document.Forest.{none};
ghost use Rattle.bw_lang.specs.Document.View.{before};
ghost use Rattle.bw_agent.specs.Controls as spec;

use crate::control::{Control, Controls, Offer, Offers};
use bw_lang::{Attrs, Element, Item, Items, Memory, Text};
use std::alloc::Global;

/// The controls among the items that have a field, at all levels, in pre-order.
pub fn controls_in(alloc: Global, items: &Items) -> Result<Controls, Memory>
    ensures { IfOk result (λ c. c ≡ spec.controls items.now) }
{
    let mut controls = Controls::new(alloc);
    put_controls(alloc, items, &mut controls)?;
    Ok(controls)
}

/// Puts the controls among the items behind the others.
#[tactic(auto, using(crate::proofs::Listed::list_steps))]
#[cycle(controls)]
fn put_controls(alloc: Global, items: &Items, controls: &mut Controls) -> Result<(), Memory>
    ensures { OnOk result (controls.new ≡ controls.old ++ spec.controls items.now) }
{
    for item in items.as_slice() {
        put_controls_of(alloc, item, controls)?;
    }
    Ok(())
}

#[tactic(auto, using(crate::proofs::Listed::list_steps))]
#[cycle(controls)]
fn put_controls_of(alloc: Global, item: &Item, controls: &mut Controls) -> Result<(), Memory>
    ensures { OnOk result (controls.new ≡ controls.old ++ spec.controls (before item.now none)) }
{
    match item {
        Item::Element(element) => {
            put_control(alloc, element, controls)?;
            put_controls(alloc, &element.items, controls)
        }
        Item::Text(_) | Item::Gap(_) => Ok(()),
    }
}

/// Puts the control that the element is behind the others, where it is one with a field.
fn put_control(alloc: Global, element: &Element, controls: &mut Controls) -> Result<(), Memory>
    ensures { OnOk result (controls.new ≡ controls.old ++ spec.control_of element.now.tag element.now.attrs element.now.items) }
{
    match (element.control_name(), element.field_kind()) {
        (Some(name), Some(kind)) => controls.push(Control {
            name: name.copy()?,
            kind,
            offers: offers_of(alloc, element)?,
        }),
        _ => Ok(()),
    }
}

/// What the control that the element is may send.
fn offers_of(alloc: Global, element: &Element) -> Result<Offers, Memory>
    ensures { IfOk result (λ o. o ≡ spec.offers_of element.now.tag element.now.attrs element.now.items) }
{
    let mut offers = Offers::new(alloc);
    match element.tag.as_str() {
        "input" => offers.push(input_offer(alloc, &element.attrs)?)?,
        "select" => put_options(alloc, &element.items, &mut offers)?,
        _ => offers.push(area_offer(alloc, &element.items)?)?,
    }
    Ok(offers)
}

/// What an input may send.
fn input_offer(alloc: Global, attrs: &Attrs) -> Result<Offer, Memory>
    ensures { IfOk result (λ o. o ≡ spec.input_offer attrs.now) }
{
    let value = match attrs.fixed("value") {
        Some(value) => value.copy()?,
        None => Text::of(alloc, value_of_type(attrs))?,
    };
    Ok(Offer {
        value,
        chosen: has(attrs, "checked"),
    })
}

/// What an input sends that has no value.
fn value_of_type(attrs: &Attrs) -> &'static str
    ensures { result.now ≡ spec.value_of_type (fixed (codes "type") attrs.now) }
{
    match attrs.fixed("type") {
        None => "",
        Some(kind) => match kind.as_str() {
            "radio" | "checkbox" => "on",
            _ => "",
        },
    }
}

/// What a text area sends.
fn area_offer(alloc: Global, items: &Items) -> Result<Offer, Memory>
    ensures { IfOk result (λ o. o ≡ spec.area_offer items.now) }
{
    Ok(Offer {
        value: text_in(alloc, items)?,
        chosen: true,
    })
}

/// Whether there is an attribute of that name.
pub fn has(attrs: &Attrs, name: &str) -> bool
    ensures { result ≡ spec.has name.now attrs.now }
{
    attrs.fixed(name).is_some()
}

/// Puts the options among the items behind the others.
#[tactic(auto, using(crate::proofs::Listed::list_steps))]
#[cycle(options)]
fn put_options(alloc: Global, items: &Items, options: &mut Offers) -> Result<(), Memory>
    ensures { OnOk result (options.new ≡ options.old ++ spec.options items.now) }
{
    for item in items.as_slice() {
        put_options_of(alloc, item, options)?;
    }
    Ok(())
}

#[tactic(auto, using(crate::proofs::Listed::list_steps))]
#[cycle(options)]
fn put_options_of(alloc: Global, item: &Item, options: &mut Offers) -> Result<(), Memory>
    ensures { OnOk result (options.new ≡ options.old ++ spec.options (before item.now none)) }
{
    match item {
        Item::Element(element) => {
            put_option(alloc, element, options)?;
            put_options(alloc, &element.items, options)
        }
        Item::Text(_) | Item::Gap(_) => Ok(()),
    }
}

/// Puts what the option that the element is may send behind the others, where it is one.
fn put_option(alloc: Global, element: &Element, options: &mut Offers) -> Result<(), Memory>
    ensures { OnOk result (options.new ≡ options.old ++ spec.option_of element.now.tag element.now.attrs element.now.items) }
{
    if element.tag.as_str() == "option" {
        let value = match element.attrs.fixed("value") {
            Some(value) => value.copy()?,
            None => text_in(alloc, &element.items)?,
        };
        options.push(Offer {
            value,
            chosen: has(&element.attrs, "selected"),
        })?;
    }
    Ok(())
}

/// All text among the items, at all levels, in order.
fn text_in(alloc: Global, items: &Items) -> Result<Text, Memory>
    ensures { IfOk result (λ t. t ≡ spec.text_in items.now) }
{
    let mut text = String::new(alloc);
    put_text(items, &mut text)?;
    Ok(Text::from_string(text))
}

/// Puts the text among the items behind the other text.
#[tactic(auto, using(crate::proofs::Listed::list_steps))]
#[cycle(text)]
fn put_text(items: &Items, text: &mut String) -> Result<(), Memory>
    ensures { OnOk result (string_bytes text.new ≡ string_bytes text.old ++ spec.text_in items.now) }
{
    for item in items.as_slice() {
        put_text_of(item, text)?;
    }
    Ok(())
}

#[tactic(auto, using(crate::proofs::Listed::list_steps))]
#[cycle(text)]
fn put_text_of(item: &Item, text: &mut String) -> Result<(), Memory>
    ensures { OnOk result (string_bytes text.new ≡ string_bytes text.old ++ spec.text_in (before item.now none)) }
{
    match item {
        Item::Text(more) => {
            text.push_str(more.as_str())?;
            Ok(())
        }
        Item::Element(element) => put_text(&element.items, text),
        Item::Gap(_) => Ok(()),
    }
}
