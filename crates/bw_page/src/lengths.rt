//! The length of a printed document.
ghost use Rattle.std.specs.Prelude.{◌≡◌, ◌^◌, ◌<◌, length};
ghost use Rattle.bw_lang.specs.Document.Forest.{none};
ghost use Rattle.bw_lang.specs.Document.View.{before};
ghost use Rattle.bw_lang.specs.Template.Markup.{escaped_byte, escaped};
ghost use Rattle.bw_lang.specs.Document.Print as spec;

use bw_lang::{Attr, AttrValue, Attrs, Item, Items, Tree, is_void};

/// The number of bytes that a document prints to, open gaps left out. It takes no memory.
pub fn length(tree: &Tree) -> u64
    requires { length (spec.print tree.now.items) < 2 ^ 64 }
    ensures { result ≡ length (spec.print tree.now.items) }
{
    items_length(&tree.items)
}

#[tactic(auto, using(crate::proofs::Printed::length_steps))]
#[cycle(length)]
fn items_length(items: &Items) -> u64
    requires { length (spec.print items.now) < 2 ^ 64 }
    ensures { result ≡ length (spec.print items.now) }
{
    let mut total = 0;
    for item in items.as_slice() {
        total += item_length(item);
    }
    total
}

#[tactic(auto, using(crate::proofs::Printed::length_steps))]
#[cycle(length)]
fn item_length(item: &Item) -> u64
    requires { length (spec.print (before item.now none)) < 2 ^ 64 }
    ensures { result ≡ length (spec.print (before item.now none)) }
{
    match item {
        Item::Text(text) => text_length(text.as_bytes()),
        Item::Element(element) => {
            let tag = element.tag.as_bytes().len() as u64;
            let start = 1 + tag + attrs_length(&element.attrs);
            if is_void(&element.tag) {
                return start + 2;
            }
            start + 1 + items_length(&element.items) + 3 + tag
        }
        Item::Gap(_) => 0,
    }
}

fn byte_length(byte: u8) -> u64
    ensures { result ≡ length (escaped_byte byte) }
{
    match byte {
        b'&' => 5,
        b'<' | b'>' => 4,
        b'"' => 6,
        _ => 1,
    }
}

#[tactic(auto, using(crate::proofs::Printed::length_steps))]
fn text_length(text: &[u8]) -> u64
    requires { length (escaped text.now) < 2 ^ 64 }
    ensures { result ≡ length (escaped text.now) }
{
    let mut total = 0;
    for byte in text {
        total += byte_length(*byte);
    }
    total
}

#[tactic(auto, using(crate::proofs::Printed::length_steps))]
fn attr_length(attr: &Attr) -> u64
    requires { length (spec.printed_attr attr.now.name attr.now.value) < 2 ^ 64 }
    ensures { result ≡ length (spec.printed_attr attr.now.name attr.now.value) }
{
    match &attr.value {
        AttrValue::Hole(_) => 0,
        AttrValue::Fixed(value) => {
            1 + attr.name.as_bytes().len() as u64 + 2 + text_length(value.as_bytes()) + 1
        }
    }
}

#[tactic(auto, using(crate::proofs::Printed::length_steps))]
fn attrs_length(attrs: &Attrs) -> u64
    requires { length (spec.printed_attrs attrs.now) < 2 ^ 64 }
    ensures { result ≡ length (spec.printed_attrs attrs.now) }
{
    let mut total = 0;
    for attr in attrs.as_slice() {
        total += attr_length(attr);
    }
    total
}
