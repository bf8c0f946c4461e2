//! Which tag of a template doesn't pair, or stands too deep.
ghost use Rattle.std.specs.Prelude.{◌≡◌, IfOk, OnOk};
ghost use Rattle.bw_lang.specs.Template.Markup.{is_void as is_void_tag};
ghost use Rattle.bw_places.specs.Tags.{begins_tag as begins_tag_spec};
ghost use Rattle.bw_diagnose.specs.Pairing as spec;

use crate::gaps::{Part, part_behind};
use crate::tags::{rest, word_length};
use bw_lang::Memory;
use bw_lang::limits::MAX_TEMPLATE_NEST;
use bw_tmpl::TmplFault;
use std::alloc::Global;

/// A tag that is refused, and one that it has to do with, each by the place of its `<`.
#[derive(Clone, Copy)]
pub struct Pair {
    pub first: usize,
    pub second: Option<usize>,
}

/// The name behind so many bytes.
fn name_in(count: usize, bytes: &[u8]) -> &[u8]
    ensures { result.now ≡ spec.name_in count bytes.now }
{
    let behind = rest(bytes, count);
    &behind[..word_length(behind)]
}

/// Whether an element of this tag has no end tag.
fn is_void(tag: &[u8]) -> bool
    ensures { result ≡ is_void_tag tag.now }
{
    tag == b"br".as_slice()
        || tag == b"hr".as_slice()
        || tag == b"img".as_slice()
        || tag == b"input".as_slice()
        || tag == b"meta".as_slice()
        || tag == b"link".as_slice()
}

fn is_outside(part: Part) -> bool
    ensures { result ≡ spec.is_outside part }
{
    matches!(part, Part::Outside)
}

/// Whether a tag's name and its attributes end in front of the first byte.
fn ends_name(part: Part, here: &[u8]) -> bool
    ensures { result ≡ spec.ends_name part here.now }
{
    match part {
        Part::Tag => match here {
            [first, ..] => *first == b'/' || *first == b'>',
            [] => false,
        },
        Part::Outside | Part::Quoted(_) => false,
    }
}

/// Whether a tag ends with the first byte.
fn ends_tag(part: Part, here: &[u8]) -> bool
    ensures { result ≡ spec.ends_tag part here.now }
{
    match part {
        Part::Tag => match here {
            [first, ..] => *first == b'>',
            [] => false,
        },
        Part::Outside | Part::Quoted(_) => false,
    }
}

/// Whether the bytes begin with `<` and a letter of a tag's name.
fn begins_tag(here: &[u8]) -> bool
    ensures { result ≡ begins_tag_spec here.now }
{
    match here {
        [first, second, ..] => *first == b'<' && second.is_ascii_lowercase(),
        _ => false,
    }
}

/// Whether they begin with `</`.
fn is_end(here: &[u8]) -> bool
    ensures { result ≡ spec.is_end here.now }
{
    match here {
        [first, second, ..] => *first == b'<' && *second == b'/',
        _ => false,
    }
}

fn begins_start(part: Part, here: &[u8]) -> bool
    ensures { result ≡ spec.begins_start part here.now }
{
    is_outside(part) && begins_tag(here)
}

fn begins_end(part: Part, here: &[u8]) -> bool
    ensures { result ≡ spec.begins_end part here.now }
{
    is_outside(part) && is_end(here)
}

/// The start tag of the innermost element that is open.
fn innermost(around: &[usize]) -> Option<usize>
    ensures { result ≡ spec.innermost around.now }
{
    around.last().copied()
}

/// Whether the end tag here has the name of the start tag there.
fn closes(inside: &[u8], tag: Option<usize>, here: &[u8]) -> bool
    ensures { result ≡ spec.closes inside.now tag here.now }
{
    match tag {
        Some(at) => name_in(1, rest(inside, at)) == name_in(2, here),
        None => false,
    }
}

/// The start tag that the next byte stands in, up to its `/` or `>`.
fn tag_behind(part: Part, tag: Option<usize>, at: usize, here: &[u8]) -> Option<usize>
    ensures { result ≡ spec.tag_behind part tag at here.now }
{
    if begins_start(part, here) {
        Some(at)
    } else if ends_name(part, here) {
        None
    } else {
        tag
    }
}

/// One more element that is open, where an end tag is to follow this start tag.
fn push_opened(around: &mut Vec<usize>, inside: &[u8], tag: Option<usize>) -> Result<(), Memory>
    ensures { OnOk result (around.new.items ≡ spec.opened inside.now tag around.old.items) }
{
    match tag {
        Some(at) => {
            if !is_void(name_in(1, rest(inside, at))) {
                around.push(at)?;
            }
            Ok(())
        }
        None => Ok(()),
    }
}

/// The elements that are open behind the first byte.
fn step_open(
    around: &mut Vec<usize>,
    inside: &[u8],
    part: Part,
    tag: Option<usize>,
    here: &[u8],
) -> Result<(), Memory>
    ensures { OnOk result (around.new.items ≡ spec.open_behind inside.now part tag around.old.items here.now) }
{
    if begins_end(part, here) {
        around.truncate(around.len().saturating_sub(1));
        Ok(())
    } else if ends_tag(part, here) {
        push_opened(around, inside, tag)
    } else {
        Ok(())
    }
}

/// Whether a tag is refused here: an end tag that doesn't close the innermost element, or a start tag in as many elements as
/// there may be.
fn is_refused(fault: TmplFault, inside: &[u8], part: Part, around: &[usize], here: &[u8]) -> bool
    ensures { result ≡ spec.is_refused fault inside.now part around.now here.now }
{
    match fault {
        TmplFault::Mismatched => {
            begins_end(part, here) && !closes(inside, innermost(around), here)
        }
        TmplFault::Nesting => {
            begins_start(part, here) && MAX_TEMPLATE_NEST as usize <= around.len()
        }
        TmplFault::Malformed | TmplFault::RepeatedAttribute | TmplFault::Memory => false,
    }
}

/// The tag at this place, and with an end tag the start tag of the innermost element.
fn pair_at(fault: TmplFault, around: &[usize], at: usize) -> Pair
    ensures { result ≡ spec.pair_at fault around.now at }
{
    match fault {
        TmplFault::Mismatched => Pair {
            first: at,
            second: innermost(around),
        },
        _ => Pair {
            first: at,
            second: None,
        },
    }
}

/// The innermost element that is still open at the end.
fn never_closed(fault: TmplFault, around: &[usize]) -> Option<Pair>
    ensures { result ≡ spec.never_closed fault around.now }
{
    match fault {
        TmplFault::Mismatched => match innermost(around) {
            Some(first) => Some(Pair {
                first,
                second: None,
            }),
            None => None,
        },
        _ => None,
    }
}

/// The first tag of the inside of a template that is refused for not pairing (`Mismatched`), or for standing in too many
/// elements (`Nesting`).
#[tactic(auto, using(crate::proofs::Walked::refused_step))]
pub fn refused_in(alloc: Global, fault: TmplFault, inside: &[u8]) -> Result<Option<Pair>, Memory>
    ensures { IfOk result (λ pair. pair ≡ spec.refused_in fault inside.now) }
{
    let mut part = Part::Outside;
    let mut tag = None;
    let mut around = Vec::new(alloc);
    for (at, &byte) in inside.iter().enumerate() {
        let here = rest(inside, at);
        if is_refused(fault, inside, part, &around, here) {
            return Ok(Some(pair_at(fault, &around, at)));
        }
        step_open(&mut around, inside, part, tag, here)?;
        tag = tag_behind(part, tag, at, here);
        part = part_behind(part, byte);
    }
    Ok(never_closed(fault, &around))
}
