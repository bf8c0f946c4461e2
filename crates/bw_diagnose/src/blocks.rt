//! What is shown behind the line of a refusal.
ghost use Rattle.std.specs.Prelude.{◌≡◌, ◌++◌, OnOk, IfOk, take, drop, ◌+◌, ◌-◌};
ghost use Rattle.bw_diagnose.specs.Blocks as spec;
ghost use Rattle.bw_diagnose.specs.Known.{IsLent};
ghost use Rattle.bw_hints.specs.Hints as hints;

use crate::aim::Aim;
use crate::known::Tokened;
use crate::marks::Marks;
use crate::meant::meant;
use crate::places::{fault_element, fault_place, name_place};
use crate::templates::syntax_shown;
use bw_excerpt::{Paper, Place, digits, push_excerpt, push_note, readable, spot_of, start_in};
use bw_faults::Fault;
use bw_hints::{
    facts_mend, facts_what, fault_mend, points_mend, points_what, push_fault_what,
    push_meant_words, push_type_what, syntax_mend, syntax_what, type_mend,
};
use bw_lang::{Bytes, Memory};
use bw_syntax::{SyntaxFault, Told};
use bw_types::TypeFault;
use std::alloc::Global;

/// The places that are shown: one, and perhaps another.
#[derive(Clone, Copy)]
struct Places {
    first: Place,
    second: Option<Place>,
}

/// The digits of the number of a place's line.
fn line_digits(text: &[u8], at: Place) -> usize
    ensures { result ≡ spec.line_digits text.now at }
{
    digits(spot_of(text, start_in(text, at)).line)
}

/// The digits of the greater line number.
fn widest(text: &[u8], places: Places) -> usize
    ensures { result ≡ spec.widest text.now places.first places.second }
{
    match places.second {
        Some(second) => line_digits(text, places.first).max(line_digits(text, second)),
        None => line_digits(text, places.first),
    }
}

/// The lines of a second place.
fn push_second(
    out: &mut Vec<u8>,
    wide: usize,
    paper: Paper<'_>,
    second: Option<Place>,
) -> Result<(), Memory>
    ensures { OnOk result (out.new.items ≡ out.old.items ++ spec.second_excerpt wide paper.entry.name.now paper.entry.text.now second) }
{
    match second {
        Some(at) => push_excerpt(out, wide, b"::: ", paper, at),
        None => Ok(()),
    }
}

/// The places, what is wrong and how it is mended.
fn push_block(
    out: &mut Vec<u8>,
    paper: Paper<'_>,
    places: Places,
    what: &[u8],
    mend: &[u8],
) -> Result<(), Memory>
    ensures { OnOk result (out.new.items ≡ out.old.items
        ++ spec.block paper.entry.name.now paper.entry.text.now places.first places.second what.now mend.now) }
{
    let wide = widest(paper.text, places);
    push_excerpt(out, wide, b"--> ", paper, places.first)?;
    push_second(out, wide, paper, places.second)?;
    push_note(out, wide, what)?;
    push_note(out, wide, mend)
}

/// The block of a text that is read as no service, behind what is there. Where the fault is about tokens, those of the text
/// are lent.
pub fn push_syntax_block(
    out: &mut Vec<u8>,
    alloc: Global,
    paper: Paper<'_>,
    told: &Told,
    fault: &SyntaxFault,
) -> Result<(), Memory>
    requires { IsLent paper.text.now told.now fault.now }
    ensures { OnOk result (out.new.items ≡ out.old.items ++ spec.syntax_block paper.entry.name.now paper.entry.text.now fault.now) }
{
    let found = syntax_shown(alloc, paper.text, told, fault)?;
    let text = readable(alloc, paper.text)?;
    let shown = Paper {
        name: paper.name,
        text: &text,
    };
    let places = Places {
        first: found.first,
        second: found.second,
    };
    push_block(
        out,
        shown,
        places,
        syntax_what(fault),
        syntax_mend(fault, found.expected),
    )
}

/// The name that may be meant, in a margin of this width.
fn push_meant(
    out: &mut Vec<u8>,
    alloc: Global,
    wide: usize,
    name: &Option<Bytes>,
) -> Result<(), Memory>
    ensures { OnOk result (out.new.items ≡ out.old.items ++ spec.meant_note wide name.now) }
{
    match name {
        Some(name) => {
            let mut words = Vec::new(alloc);
            push_meant_words(&mut words, name.as_slice())?;
            push_note(out, wide, &words)
        }
        None => Ok(()),
    }
}

/// The block of a service that isn't well typed, behind what is there; this is known of its first test that fails. Where a
/// name is unknown, one that is near may be meant.
pub fn push_type_block(
    out: &mut Vec<u8>,
    alloc: Global,
    paper: Paper<'_>,
    aim: &Aim,
    fault: &TypeFault,
) -> Result<(), Memory>
    ensures { OnOk result (out.new.items ≡ out.old.items ++ spec.aimed_block paper.entry.name.now paper.entry.text.now aim.now fault.now) }
{
    let mut what = Vec::new(alloc);
    push_type_what(&mut what, fault)?;
    let name_meant = meant(alloc, &aim.names, fault)?;
    let places = Places {
        first: aim.place,
        second: None,
    };
    push_block(out, paper, places, &what, type_mend(fault, aim.role))?;
    push_meant(out, alloc, widest(paper.text, places), &name_meant)
}

/// The tag of an element of the wrapper of pages.
fn wrapper_tag(element: u32) -> &'static [u8]
    ensures { result.now ≡ spec.wrapper_tag element }
{
    if element == 1 {
        b"html"
    } else if element == 2 {
        b"head"
    } else if element == 3 {
        b"title"
    } else if element == 4 {
        b"body"
    } else if element == 5 {
        b"form"
    } else if element == 6 {
        b"p"
    } else {
        b"input"
    }
}

/// The tag of an element, by its start tag.
fn tag_name<'a>(text: &'a [u8], element: u32, at: Option<Place>) -> &'a [u8]
    ensures { result.now ≡ spec.tag_name text.entry.now element at }
{
    match at {
        Some(place) => behind_bracket(text, place),
        None => wrapper_tag(element),
    }
}

/// The bytes of a place behind its first.
fn behind_bracket<'a>(text: &'a [u8], place: Place) -> &'a [u8]
    ensures { result.now ≡ take (place.to - (place.from + 1)) (drop (place.from + 1) text.entry.now) }
{
    match text.get(place.from.saturating_add(1)..) {
        Some(behind) => {
            let count = place.to.saturating_sub(place.from.saturating_add(1));
            &behind[..count.min(behind.len())]
        }
        None => &[],
    }
}

/// What is wrong where a service has this fault, which is about the element of this start tag.
fn fault_words(
    alloc: Global,
    told: &Tokened<'_>,
    fault: &Fault,
    element: Option<Place>,
) -> Result<Vec<u8>, Memory>
    ensures { IfOk result (λ words. words.items ≡ hints.fault_what fault.now.number fault.now.detail
        (spec.tag_name told.now.text.now fault.now.place element)) }
{
    let tag = tag_name(told.text, fault.place, element);
    let mut words = Vec::new(alloc);
    push_fault_what(&mut words, fault.number, fault.detail.as_bytes(), tag)?;
    Ok(words)
}

/// The block of a fault of a service, behind what is there; its statements and templates stand there.
pub fn push_fault_block(
    out: &mut Vec<u8>,
    alloc: Global,
    name: &[u8],
    told: &Tokened<'_>,
    marks: &Marks,
    fault: &Fault,
) -> Result<(), Memory>
    ensures { OnOk result (out.new.items ≡ out.old.items ++ spec.marked_block name.now told.now.text.now marks.now fault.now) }
{
    let element = fault_element(told, &marks.insides, fault);
    let what = fault_words(alloc, told, fault, element)?;
    let paper = Paper {
        name,
        text: told.text,
    };
    let places = Places {
        first: fault_place(told, &marks.statements, fault),
        second: element,
    };
    push_block(out, paper, places, &what, fault_mend(fault.number))
}

/// The block of a service that has too many points, behind what is there.
pub fn push_points_block(out: &mut Vec<u8>, name: &[u8], told: &Tokened<'_>) -> Result<(), Memory>
    ensures { OnOk result (out.new.items ≡ out.old.items ++ spec.points_block name.now told.now.text.now) }
{
    let paper = Paper {
        name,
        text: told.text,
    };
    let places = Places {
        first: name_place(told),
        second: None,
    };
    push_block(out, paper, places, points_what(), points_mend())
}

/// The block of a service whose analysis has too many facts, behind what is there.
pub fn push_facts_block(out: &mut Vec<u8>, name: &[u8], told: &Tokened<'_>) -> Result<(), Memory>
    ensures { OnOk result (out.new.items ≡ out.old.items ++ spec.facts_block name.now told.now.text.now) }
{
    let paper = Paper {
        name,
        text: told.text,
    };
    let places = Places {
        first: name_place(told),
        second: None,
    };
    push_block(out, paper, places, facts_what(), facts_mend())
}
