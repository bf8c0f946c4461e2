//! Attributes, tags and pieces at the front of bytes.
ghost use Rattle.std.specs.Prelude.{◌≡◌, IfOk};
ghost use Rattle.bw_lang.specs.Text.Bytes.{is_blank};
ghost use Rattle.bw_lang.specs.Template.MarkupNames.{begins};
ghost use Rattle.bw_tmpl.specs.Steps.Reading as spec;
ghost use Rattle.bw_tmpl.specs.Steps.Reading.{attr_at, piece_at};

use crate::chars::{chars_at, checked, name_at, past_blanks};
use crate::fault::TmplFault;
use bw_lang::pieces::{NameClass, Piece, RawAttr, RawAttrs, RawValue, Tag};
use bw_lang::{Memory, is_blank};
use std::alloc::Global;

/// A value up to its quote, behind the first quote, and the bytes behind it.
#[tactic(auto, unfolding(crate::specs::Steps::Reading::quoted_at))]
fn quoted_at(alloc: Global, quote: u8, bytes: &[u8]) -> Result<(RawValue, &[u8]), TmplFault>
    ensures { spec.Gives (λ x. (x.0, x.1.now)) result (spec.quoted_at quote bytes.now) }
{
    let (text, after) = chars_at(alloc, quote, bytes)?;
    let value = checked(text)?;
    let front = [quote];
    match after.strip_prefix(&front) {
        Some(rest) => Ok((RawValue::Fixed(value), rest)),
        None => Err(TmplFault::Malformed),
    }
}

/// The name of a gap up to `]`, behind `[`, and the bytes behind it.
#[tactic(auto, unfolding(crate::specs::Steps::Reading::hole_at))]
fn hole_at(alloc: Global, bytes: &[u8]) -> Result<(RawValue, &[u8]), TmplFault>
    ensures { spec.Gives (λ x. (x.0, x.1.now)) result (spec.hole_at bytes.now) }
{
    let (name, after) = name_at(alloc, NameClass::Word, bytes)?;
    match after.strip_prefix(b"]") {
        Some(rest) => Ok((RawValue::Hole(name), rest)),
        None => Err(TmplFault::Malformed),
    }
}

/// A value, or a gap in its place, and the bytes behind it.
#[tactic(auto, unfolding(crate::specs::Steps::Reading::value_at))]
fn value_at(alloc: Global, bytes: &[u8]) -> Result<(RawValue, &[u8]), TmplFault>
    ensures { spec.Gives (λ x. (x.0, x.1.now)) result (spec.value_at bytes.now) }
{
    if let Some(rest) = bytes.strip_prefix(b"\"") {
        return quoted_at(alloc, b'"', rest);
    }
    if let Some(rest) = bytes.strip_prefix(b"'") {
        return quoted_at(alloc, b'\'', rest);
    }
    if let Some(rest) = bytes.strip_prefix(b"[") {
        return hole_at(alloc, rest);
    }
    Err(TmplFault::Malformed)
}

/// Whether the bytes begin with a blank.
fn begins_blank(bytes: &[u8]) -> bool
    ensures { result ≡ begins is_blank bytes.now }
{
    match bytes {
        [] => false,
        [first, ..] => is_blank(*first),
    }
}

/// An attribute with the blanks in front of it, and the bytes behind it.
#[tactic(auto, unfolding(crate::specs::Steps::Reading::attr_at))]
fn attr_at(alloc: Global, bytes: &[u8]) -> Result<(RawAttr, &[u8]), TmplFault>
    ensures { spec.Gives (λ x. (x.0, x.1.now)) result (spec.attr_at bytes.now) }
{
    if !begins_blank(bytes) {
        return Err(TmplFault::Malformed);
    }
    let (name, after) = name_at(alloc, NameClass::Attr, past_blanks(bytes))?;
    let Some(behind) = after.strip_prefix(b"=") else {
        return Err(TmplFault::Malformed);
    };
    let (value, rest) = value_at(alloc, behind)?;
    Ok((RawAttr { name, value }, rest))
}

/// A content gap, behind `<[`, and the bytes behind it.
#[tactic(auto, unfolding(crate::specs::Steps::Reading::gap_at))]
fn gap_at(alloc: Global, bytes: &[u8]) -> Result<(Piece, &[u8]), TmplFault>
    ensures { spec.Gives (λ x. (x.0, x.1.now)) result (spec.gap_at bytes.now) }
{
    let (name, after) = name_at(alloc, NameClass::Word, bytes)?;
    match after.strip_prefix(b"]>") {
        Some(rest) => Ok((Piece::Gap(name), rest)),
        None => Err(TmplFault::Malformed),
    }
}

/// An end tag, behind `</`, and the bytes behind it.
#[tactic(auto, unfolding(crate::specs::Steps::Reading::end_at))]
fn end_at(alloc: Global, bytes: &[u8]) -> Result<(Piece, &[u8]), TmplFault>
    ensures { spec.Gives (λ x. (x.0, x.1.now)) result (spec.end_at bytes.now) }
{
    let (name, after) = name_at(alloc, NameClass::Tag, bytes)?;
    match past_blanks(after).strip_prefix(b">") {
        Some(rest) => Ok((Piece::End(name), rest)),
        None => Err(TmplFault::Malformed),
    }
}

/// A text, as long as it can be, and the bytes behind it.
#[tactic(auto, unfolding(crate::specs::Steps::Reading::text_at))]
fn text_at(alloc: Global, bytes: &[u8]) -> Result<(Piece, &[u8]), TmplFault>
    ensures { spec.Gives (λ x. (x.0, x.1.now)) result (spec.text_at bytes.now) }
{
    let (text, rest) = chars_at(alloc, b'<', bytes)?;
    if text.as_slice().is_empty() {
        return Err(TmplFault::Malformed);
    }
    let text = checked(text)?;
    Ok((Piece::Text(text), rest))
}

/// The attributes at the front, and the bytes behind them.
fn attrs_at(alloc: Global, bytes: &[u8]) -> Result<(Vec<RawAttr>, &[u8]), Memory>
    ensures { IfOk result (λ x. spec.each attr_at bytes.now ≡ (x.0.items, x.1.now)) }
{
    let mut attrs = Vec::new(alloc);
    let mut rest = bytes;
    'attrs: loop {
        match attr_at(alloc, rest) {
            Ok((attr, after)) => {
                attrs.push(attr)?;
                rest = after;
            }
            Err(TmplFault::Malformed) => return Ok((attrs, rest)),
            Err(_) => return Err(Memory),
        }
    }
}

/// A tag's name, its attributes and the blanks behind them, and the bytes behind these.
#[tactic(auto, unfolding(crate::specs::Steps::Reading::tag_at))]
fn tag_at(alloc: Global, bytes: &[u8]) -> Result<(Tag, &[u8]), TmplFault>
    ensures { spec.Gives (λ x. (x.0, x.1.now)) result (spec.tag_at bytes.now) }
{
    let (name, after) = name_at(alloc, NameClass::Tag, bytes)?;
    let (list, behind) = attrs_at(alloc, after)?;
    let attrs = RawAttrs::from_vec(list);
    Ok((Tag { name, attrs }, past_blanks(behind)))
}

/// A start tag or a whole tag, behind `<`, and the bytes behind it.
#[tactic(auto, unfolding(crate::specs::Steps::Reading::whole_at))]
fn whole_at(alloc: Global, bytes: &[u8]) -> Result<(Piece, &[u8]), TmplFault>
    ensures { spec.Gives (λ x. (x.0, x.1.now)) result (spec.whole_at bytes.now) }
{
    let (tag, after) = tag_at(alloc, bytes)?;
    if let Some(rest) = after.strip_prefix(b"/>") {
        return Ok((Piece::Whole(tag), rest));
    }
    if let Some(rest) = after.strip_prefix(b">") {
        return Ok((Piece::Start(tag), rest));
    }
    Err(TmplFault::Malformed)
}

/// The piece at the front, and the bytes behind it.
#[tactic(auto, unfolding(crate::specs::Steps::Reading::piece_at))]
pub fn next_piece(alloc: Global, bytes: &[u8]) -> Result<(Piece, &[u8]), TmplFault>
    ensures { spec.Gives (λ x. (x.0, x.1.now)) result (piece_at bytes.now) }
{
    if let Some(rest) = bytes.strip_prefix(b"<[") {
        return gap_at(alloc, rest);
    }
    if let Some(rest) = bytes.strip_prefix(b"</") {
        return end_at(alloc, rest);
    }
    if let Some(rest) = bytes.strip_prefix(b"<") {
        return whole_at(alloc, rest);
    }
    text_at(alloc, bytes)
}

/// The pieces at the front, and the bytes behind them.
fn pieces_at(alloc: Global, bytes: &[u8]) -> Result<(Vec<Piece>, &[u8]), Memory>
    ensures { IfOk result (λ x. spec.each piece_at bytes.now ≡ (x.0.items, x.1.now)) }
{
    let mut pieces = Vec::new(alloc);
    let mut rest = bytes;
    'pieces: loop {
        match next_piece(alloc, rest) {
            Ok((piece, after)) => {
                pieces.push(piece)?;
                rest = after;
            }
            Err(TmplFault::Malformed) => return Ok((pieces, rest)),
            Err(_) => return Err(Memory),
        }
    }
}

/// The pieces of all of the bytes.
#[tactic(auto, unfolding(crate::specs::Steps::Reading::pieces_of))]
pub fn pieces_of(alloc: Global, bytes: &[u8]) -> Result<Vec<Piece>, TmplFault>
    ensures { spec.Gives (λ x. x.items) result (spec.pieces_of bytes.now) }
{
    let (pieces, rest) = pieces_at(alloc, bytes)?;
    if rest.is_empty() {
        Ok(pieces)
    } else {
        Err(TmplFault::Malformed)
    }
}
