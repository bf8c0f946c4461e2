//! The lines that show a place of a text.
ghost use Rattle.std.specs.Prelude.{◌≡◌, ◌≤◌, ◌-◌, ◌++◌, map, length, take, drop, decimal, codes, OnOk, IfOk};
ghost use Rattle.std.proofs.Math.ListN.{replicate};
ghost use Rattle.bw_excerpt.specs.Columns as spec;
ghost use Rattle.bw_excerpt.specs.Excerpts as lines;

use crate::columns::{
    Spot, behind_columns, columns, first_columns, first_line, last_line, spot_of,
};
use bw_lang::Memory;
use itoa::Buffer;
use std::alloc::Global;
use std::str;

/// The greatest number of columns in front of a place with which a line is shown from its beginning.
pub const MAX_FRONT: usize = 72;

/// Of a longer front so many columns are shown, the last ones.
pub const KEPT_FRONT: usize = 20;

/// So many columns of a line are shown at most, but for the dots where it is cut.
pub const MAX_WIDTH: usize = 96;

/// So many columns of a line of words are shown at most.
pub const MAX_WORDS: usize = 110;

/// A file: its name, and its text.
#[derive(Clone, Copy)]
pub struct Paper<'a> {
    pub name: &'a [u8],
    pub text: &'a [u8],
}

/// Bytes of a text: from this one on, and in front of that one. They are counted from 0.
#[derive(Clone, Copy, PartialEq, Eq)]
pub struct Place {
    pub from: usize,
    pub to: usize,
}

/// A byte as it prints: a control as a space.
fn shown(byte: u8) -> u8
    ensures { result ≡ lines.shown byte }
{
    if byte < 32 {
        b' '
    } else if byte == 127 {
        b' '
    } else {
        byte
    }
}

/// A byte of a text that isn't UTF-8.
fn plain(byte: u8) -> u8
    ensures { result ≡ lines.plain byte }
{
    if byte < 128 { byte } else { b'?' }
}

/// The text as it can be shown: each byte from 128 on is a `?` where the text isn't UTF-8.
pub fn readable(alloc: Global, text: &[u8]) -> Result<Vec<u8>, Memory>
    ensures { IfOk result (λ out. out.items ≡ lines.readable text.now) }
{
    match str::from_utf8(text) {
        Ok(_) => Ok(text.to_vec(alloc)?),
        Err(_) => plain_text(alloc, text),
    }
}

/// The text with a `?` for each byte from 128 on.
fn plain_text(alloc: Global, text: &[u8]) -> Result<Vec<u8>, Memory>
    ensures { IfOk result (λ out. out.items ≡ map lines.plain text.now) }
{
    let mut out = Vec::new(alloc);
    for &byte in text {
        out.push(plain(byte))?;
    }
    Ok(out)
}

/// Bytes as they print.
fn push_shown(out: &mut Vec<u8>, bytes: &[u8]) -> Result<(), Memory>
    ensures { OnOk result (out.new.items ≡ out.old.items ++ map lines.shown bytes.now) }
{
    for &byte in bytes {
        out.push(shown(byte))?;
    }
    Ok(())
}

/// Words as they are.
fn push_words(out: &mut Vec<u8>, words: &[u8]) -> Result<(), Memory>
    ensures { OnOk result (out.new.items ≡ out.old.items ++ words.now) }
{
    out.extend_from_slice(words)?;
    Ok(())
}

/// The same byte, so many times.
fn push_times(out: &mut Vec<u8>, byte: u8, count: usize) -> Result<(), Memory>
    ensures { OnOk result (out.new.items ≡ out.old.items ++ replicate count byte) }
{
    for _index in 0..count {
        out.push(byte)?;
    }
    Ok(())
}

/// A number.
fn push_number(out: &mut Vec<u8>, number: usize) -> Result<(), Memory>
    ensures { OnOk result (out.new.items ≡ out.old.items ++ decimal number) }
{
    out.extend_from_slice(Buffer::new().format(number).as_bytes())?;
    Ok(())
}

/// How many columns of a line are shown in front of a place.
fn lead_columns(front: &[u8]) -> usize
    ensures count { result ≡ lines.lead_columns front.now }
    ensures few { result ≤ MAX_FRONT }
{
    let count = columns(front);
    if count <= MAX_FRONT {
        count
    } else {
        3 + KEPT_FRONT
    }
}

/// What of a line is shown in front of a place.
fn push_lead(out: &mut Vec<u8>, front: &[u8]) -> Result<(), Memory>
    ensures { OnOk result (out.new.items ≡ out.old.items ++ lines.lead front.now) }
{
    let count = columns(front);
    if count <= MAX_FRONT {
        push_shown(out, front)
    } else {
        push_words(out, b"...")?;
        push_shown(out, behind_columns(count - KEPT_FRONT, front))
    }
}

/// What of a line is shown behind a place, in so many columns.
fn push_trail(out: &mut Vec<u8>, count: usize, back: &[u8]) -> Result<(), Memory>
    ensures { OnOk result (out.new.items ≡ out.old.items ++ lines.trail count back.now) }
{
    push_shown(out, first_columns(count, back))?;
    push_words(out, if count < columns(back) { b"..." } else { b"" })
}

/// The line of a place.
fn push_source(out: &mut Vec<u8>, text: &[u8], from: usize) -> Result<(), Memory>
    requires { from ≤ length text.now }
    ensures { OnOk result (out.new.items ≡ out.old.items ++ lines.source_line text.now from) }
{
    let front = last_line(&text[..from]);
    push_lead(out, front)?;
    push_trail(
        out,
        MAX_WIDTH - lead_columns(front),
        first_line(&text[from..]),
    )
}

/// The marks under the bytes from a place to another.
fn push_marks(out: &mut Vec<u8>, text: &[u8], from: usize, to: usize) -> Result<(), Memory>
    requires order { from ≤ to }
    requires inside { to ≤ length text.now }
    ensures { OnOk result (out.new.items ≡ out.old.items ++ lines.mark_line text.now from to) }
{
    let lead = lead_columns(last_line(&text[..from]));
    let own = columns(first_line(&text[from..to]));
    push_times(out, b' ', lead)?;
    push_times(out, b'^', own.min(MAX_WIDTH - lead).max(1))
}

/// Where it is: `NAME:LINE:COLUMN`.
fn push_place(out: &mut Vec<u8>, name: &[u8], spot: &Spot) -> Result<(), Memory>
    ensures { OnOk result (out.new.items ≡ out.old.items ++ lines.place_name name.now spot.now) }
{
    push_shown(out, name)?;
    push_words(out, b":")?;
    push_number(out, spot.line)?;
    push_words(out, b":")?;
    push_number(out, spot.column)
}

/// How many digits a number has.
pub fn digits(number: usize) -> usize
    ensures { result ≡ length (decimal number) }
{
    Buffer::new().format(number).len()
}

/// The number of a line, in a margin of this width.
fn push_margin(out: &mut Vec<u8>, wide: usize, line: usize) -> Result<(), Memory>
    ensures { OnOk result (out.new.items ≡ out.old.items ++ lines.margin wide line) }
{
    let mut buffer = Buffer::new();
    let digits = buffer.format(line).as_bytes();
    push_times(out, b' ', wide.saturating_sub(digits.len()))?;
    push_words(out, digits)
}

/// The line that says where a place is, behind an arrow.
fn push_place_line(
    out: &mut Vec<u8>,
    wide: usize,
    arrow: &[u8],
    name: &[u8],
    spot: &Spot,
) -> Result<(), Memory>
    ensures { OnOk result (out.new.items ≡ out.old.items ++ lines.place_line wide arrow.now name.now spot.now) }
{
    push_times(out, b' ', wide)?;
    push_words(out, arrow)?;
    push_place(out, name, spot)?;
    push_words(out, b"\n")
}

/// A rule.
fn push_rule(out: &mut Vec<u8>, wide: usize) -> Result<(), Memory>
    ensures { OnOk result (out.new.items ≡ out.old.items ++ lines.rule_line wide) }
{
    push_times(out, b' ', wide)?;
    push_words(out, b" |\n")
}

/// The line of a place, behind its number.
fn push_numbered(
    out: &mut Vec<u8>,
    wide: usize,
    line: usize,
    text: &[u8],
    from: usize,
) -> Result<(), Memory>
    requires { from ≤ length text.now }
    ensures { OnOk result (out.new.items ≡ out.old.items ++ lines.numbered_line wide line text.now from) }
{
    push_margin(out, wide, line)?;
    push_words(out, b" | ")?;
    push_source(out, text, from)?;
    push_words(out, b"\n")
}

/// The marks under it.
fn push_under(
    out: &mut Vec<u8>,
    wide: usize,
    text: &[u8],
    from: usize,
    to: usize,
) -> Result<(), Memory>
    requires order { from ≤ to }
    requires inside { to ≤ length text.now }
    ensures { OnOk result (out.new.items ≡ out.old.items ++ lines.under_line wide text.now from to) }
{
    push_times(out, b' ', wide)?;
    push_words(out, b" | ")?;
    push_marks(out, text, from, to)?;
    push_words(out, b"\n")
}

/// The first byte of a place, within a text.
pub fn start_in(text: &[u8], place: Place) -> usize
    ensures start { result ≡ lines.start_in text.now place }
    ensures inside { result ≤ length text.now }
{
    place.from.min(text.len())
}

/// The byte behind a place, within a text.
fn end_in(text: &[u8], place: Place) -> usize
    ensures end { result ≡ lines.end_in text.now place }
    ensures order { lines.start_in text.now place ≤ result }
    ensures inside { result ≤ length text.now }
{
    place.to.min(text.len()).max(start_in(text, place))
}

/// The four lines that show a place of a file, behind an arrow; `wide` are the digits of the greatest line number that is
/// shown. What of the place is behind the end of the text isn't shown.
pub fn push_excerpt(
    out: &mut Vec<u8>,
    wide: usize,
    arrow: &[u8],
    paper: Paper<'_>,
    place: Place,
) -> Result<(), Memory>
    ensures { OnOk result (out.new.items ≡ out.old.items ++ lines.excerpt wide arrow.now paper.entry.name.now paper.entry.text.now place) }
{
    let from = start_in(paper.text, place);
    let to = end_in(paper.text, place);
    let spot = spot_of(paper.text, from);
    push_place_line(out, wide, arrow, paper.name, &spot)?;
    push_rule(out, wide)?;
    push_numbered(out, wide, spot.line, paper.text, from)?;
    push_under(out, wide, paper.text, from, to)
}

/// Words, cut off where they are too long for a line.
fn push_short(out: &mut Vec<u8>, words: &[u8]) -> Result<(), Memory>
    ensures { OnOk result (out.new.items ≡ out.old.items ++ lines.short words.now) }
{
    if columns(words) <= MAX_WORDS {
        push_shown(out, words)
    } else {
        push_shown(out, first_columns(MAX_WORDS - 3, words))?;
        push_words(out, b"...")
    }
}

/// A line of words.
pub fn push_note(out: &mut Vec<u8>, wide: usize, words: &[u8]) -> Result<(), Memory>
    ensures { OnOk result (out.new.items ≡ out.old.items ++ lines.note wide words.now) }
{
    push_times(out, b' ', wide)?;
    push_words(out, b" = ")?;
    push_short(out, words)?;
    push_words(out, b"\n")
}
