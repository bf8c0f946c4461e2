//! Printing of documents.
ghost use Rattle.bw_lang.specs.Document.Forest.{none};
ghost use Rattle.bw_lang.specs.Document.View.{before};
ghost use Rattle.bw_lang.specs.Template.Markup.{escaped_byte, escaped};
ghost use Rattle.bw_lang.specs.Document.Print as spec;
ghost use Rattle.bw_out.specs.Sends.{Sends};

use bw_lang::{Attr, AttrValue, Attrs, Item, Items, Name, Tree, is_void};
use bw_out::{Sink, WriteFault, write_all, write_parts};

/// Prints a document: texts and values with references for `&`, `<`, `>` and `"`, the elements without an end
/// tag as one tag, and each other element with both its tags (HTML 4.01, sections 3.2 and 5.3). Open gaps, and
/// attributes whose value is one, are left out. It takes no memory. After a fault, which comes only where the
/// sink's count rose, a first part of the bytes is written.
pub fn print<W: Sink>(tree: &Tree, sink: &mut W) -> Result<(), WriteFault>
    ensures { Sends W.Channel sink.old sink.new (spec.print tree.now.items) result }
{
    print_items(&tree.items, sink)
}

#[tactic(auto, using(crate::proofs::Printed::print_steps))]
#[cycle(print)]
fn print_items<W: Sink>(items: &Items, sink: &mut W) -> Result<(), WriteFault>
    ensures { Sends W.Channel sink.old sink.new (spec.print items.now) result }
{
    for item in items.as_slice() {
        print_item(item, sink)?;
    }
    Ok(())
}

#[tactic(auto, using(crate::proofs::Printed::print_steps))]
#[cycle(print)]
fn print_item<W: Sink>(item: &Item, sink: &mut W) -> Result<(), WriteFault>
    ensures { Sends W.Channel sink.old sink.new (spec.print (before item.now none)) result }
{
    match item {
        Item::Text(text) => print_text(text.as_str(), sink),
        Item::Element(element) => {
            print_start(&element.tag, &element.attrs, sink)?;
            if is_void(&element.tag) {
                return write_all(sink, b"/>");
            }
            write_all(sink, b">")?;
            print_items(&element.items, sink)?;
            print_end(&element.tag, sink)
        }
        Item::Gap(_) => Ok(()),
    }
}

fn print_start<W: Sink>(tag: &Name, attrs: &Attrs, sink: &mut W) -> Result<(), WriteFault>
    ensures { Sends W.Channel sink.old sink.new (spec.printed_start tag.now attrs.now) result }
{
    write_parts(sink, &[b"<", tag.as_bytes()])?;
    print_attrs(attrs, sink)
}

fn print_attrs<W: Sink>(attrs: &Attrs, sink: &mut W) -> Result<(), WriteFault>
    ensures { Sends W.Channel sink.old sink.new (spec.printed_attrs attrs.now) result }
{
    for attr in attrs.as_slice() {
        print_attr(attr, sink)?;
    }
    Ok(())
}

fn print_attr<W: Sink>(attr: &Attr, sink: &mut W) -> Result<(), WriteFault>
    ensures { Sends W.Channel sink.old sink.new (spec.printed_attr attr.now.name attr.now.value) result }
{
    match &attr.value {
        AttrValue::Hole(_) => Ok(()),
        AttrValue::Fixed(value) => {
            write_parts(sink, &[b" ", attr.name.as_bytes(), b"=\""])?;
            print_text(value.as_str(), sink)?;
            write_all(sink, b"\"")
        }
    }
}

fn print_end<W: Sink>(tag: &Name, sink: &mut W) -> Result<(), WriteFault>
    ensures { Sends W.Channel sink.old sink.new (spec.printed_end tag.now) result }
{
    write_parts(sink, &[b"</", tag.as_bytes(), b">"])
}

fn print_byte<W: Sink>(byte: u8, sink: &mut W) -> Result<(), WriteFault>
    ensures { Sends W.Channel sink.old sink.new (escaped_byte byte) result }
{
    match byte {
        b'&' => write_all(sink, b"&amp;"),
        b'<' => write_all(sink, b"&lt;"),
        b'>' => write_all(sink, b"&gt;"),
        b'"' => write_all(sink, b"&quot;"),
        _ => write_all(sink, &[byte]),
    }
}

fn print_text<W: Sink>(text: &str, sink: &mut W) -> Result<(), WriteFault>
    ensures { Sends W.Channel sink.old sink.new (escaped text.now) result }
{
    for byte in text.as_bytes() {
        print_byte(*byte, sink)?;
    }
    Ok(())
}
