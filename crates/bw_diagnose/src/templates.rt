//! Which bytes of a template that is refused are shown.
ghost use Rattle.std.specs.Prelude.{◌≡◌, ◌≤◌, ◌+◌, length, IfOk, option_map};
ghost use Rattle.bw_lang.specs.declared.limits.TheConstants.{MAX_FILE_BYTES};
ghost use Rattle.bw_diagnose.specs.Known.{IsLent, tokens_in, lexemes_in};
ghost use Rattle.bw_diagnose.specs.Templates as spec;

use crate::attributes::repeated_in;
use crate::finding::word_at;
use crate::known::{Tokened, with_tokens};
use crate::markup::{Stuck, expected_behind, stuck_in};
use crate::pairing::{Pair, refused_in};
use crate::places::syntax_place;
use crate::tags::{rest, token_start};
use bw_excerpt::Place;
use bw_hints::Expected;
use bw_lang::limits::MAX_FILE_BYTES;
use bw_lang::{Lexeme, Memory};
use bw_syntax::{SyntaxFault, Told};
use bw_tmpl::TmplFault;
use std::alloc::Global;

/// The places that are shown: one, and perhaps another; and what is expected at the first, where that is known.
#[derive(Clone, Copy)]
pub struct Shown {
    pub first: Place,
    pub second: Option<Place>,
    pub expected: Option<Expected>,
}

/// How many letters, digits, `_` and `-` stand in front.
fn name_length(bytes: &[u8]) -> usize
    ensures length { result ≡ spec.name_length bytes.now }
    ensures few { result ≤ length bytes.now }
{
    for (index, &byte) in bytes.iter().enumerate() {
        if !(byte.is_ascii_alphanumeric() || (byte == b'_' || byte == b'-')) {
            return index;
        }
    }
    bytes.len()
}

/// How many bytes are marked from `<` on, behind which these stand.
fn less_length(behind: &[u8]) -> usize
    ensures marks { result ≡ spec.less_length behind.now }
    ensures few { result ≤ length behind.now + 1 }
{
    match behind {
        [] => 1,
        [first, more @ ..] => {
            if *first == b'/' {
                2 + name_length(more)
            } else {
                1 + name_length(behind)
            }
        }
    }
}

/// How many bytes are marked at a place: a name; and with `<`, `</` or `&` the name behind it.
fn mark_length(bytes: &[u8]) -> usize
    ensures marks { result ≡ spec.mark_length bytes.now }
    ensures few { result ≤ length bytes.now + 1 }
{
    match bytes {
        [] => 1,
        [first, behind @ ..] => {
            if *first == b'<' {
                less_length(behind)
            } else if *first == b'&' {
                1 + name_length(behind)
            } else {
                name_length(bytes).max(1)
            }
        }
    }
}

/// The bytes that are marked at a place of an inside, whose first byte has the place `start` in the text.
fn marked(start: usize, inside: &[u8], at: usize) -> Place
    requires { start ≤ MAX_FILE_BYTES + 6 }
    ensures { result ≡ spec.marked start inside.now at }
{
    let at = at.min(inside.len());
    let from = start + at;
    Place {
        from,
        to: from + mark_length(rest(inside, at)),
    }
}

/// Where no piece goes on, where that is so.
fn stuck_place(start: usize, inside: &[u8], at: Option<Stuck>) -> Option<Shown>
    requires { start ≤ MAX_FILE_BYTES + 6 }
    ensures { result ≡ spec.stuck_place start inside.now at }
{
    match at {
        Some(stuck) => Some(Shown {
            first: marked(start, inside, stuck.at),
            second: None,
            expected: Some(expected_behind(stuck.stage)),
        }),
        None => None,
    }
}

/// An attribute, where there is one.
fn attr_place(start: usize, inside: &[u8], at: Option<usize>) -> Option<Shown>
    requires { start ≤ MAX_FILE_BYTES + 6 }
    ensures { result ≡ spec.attr_place start inside.now at }
{
    match at {
        Some(at) => Some(Shown {
            first: marked(start, inside, at),
            second: None,
            expected: None,
        }),
        None => None,
    }
}

/// A second place, where there is one.
fn second_place(start: usize, inside: &[u8], at: Option<usize>) -> Option<Place>
    requires { start ≤ MAX_FILE_BYTES + 6 }
    ensures { result ≡ option_map (spec.marked start inside.now) at }
{
    match at {
        Some(at) => Some(marked(start, inside, at)),
        None => None,
    }
}

/// Two tags, or one, where there are any.
fn pair_places(start: usize, inside: &[u8], pair: Option<Pair>) -> Option<Shown>
    requires { start ≤ MAX_FILE_BYTES + 6 }
    ensures { result ≡ spec.pair_places start inside.now pair }
{
    match pair {
        Some(pair) => Some(Shown {
            first: marked(start, inside, pair.first),
            second: second_place(start, inside, pair.second),
            expected: None,
        }),
        None => None,
    }
}

/// What is shown of an inside that is refused for this.
fn shown_in(
    alloc: Global,
    fault: TmplFault,
    start: usize,
    inside: &[u8],
) -> Result<Option<Shown>, Memory>
    requires { start ≤ MAX_FILE_BYTES + 6 }
    ensures { IfOk result (λ shown. shown ≡ spec.shown_in fault start inside.now) }
{
    match fault {
        TmplFault::Malformed => Ok(stuck_place(start, inside, stuck_in(inside))),
        TmplFault::Mismatched | TmplFault::Nesting => {
            let pair = refused_in(alloc, fault, inside)?;
            Ok(pair_places(start, inside, pair))
        }
        TmplFault::RepeatedAttribute => {
            let at = repeated_in(alloc, inside)?;
            Ok(attr_place(start, inside, at))
        }
        TmplFault::Memory => Ok(None),
    }
}

/// What is shown of a token, where it is a template of this name.
fn shown_at(
    alloc: Global,
    fault: TmplFault,
    told: &Tokened<'_>,
    name: &[u8],
    at: usize,
    lexeme: &Lexeme,
) -> Result<Option<Shown>, Memory>
    ensures { IfOk result (λ shown. shown ≡
        spec.shown_at fault (tokens_in told.now.text.now) (lexemes_in told.now.text.now) name.now at lexeme.now) }
{
    match lexeme {
        Lexeme::Template(inside) if word_at(told.lexemes, at.saturating_sub(2), name) => {
            let start = token_start(told.tokens, at) + 6;
            shown_in(alloc, fault, start, inside.as_slice())
        }
        _ => Ok(None),
    }
}

/// What is shown of the first template of this name of which something is shown.
fn shown_of(
    alloc: Global,
    fault: TmplFault,
    told: &Tokened<'_>,
    name: &[u8],
) -> Result<Option<Shown>, Memory>
    ensures { IfOk result (λ shown. shown ≡ spec.shown_among fault (tokens_in told.now.text.now) (lexemes_in told.now.text.now) name.now 0
        (lexemes_in told.now.text.now)) }
{
    for (at, lexeme) in told.lexemes.iter().enumerate() {
        let shown = shown_at(alloc, fault, told, name, at, lexeme)?;
        if shown.is_some() {
            return Ok(shown);
        }
    }
    Ok(None)
}

/// What is shown of a template that is refused.
fn template_shown(
    alloc: Global,
    text: &[u8],
    told: &Told,
    fault: &SyntaxFault,
) -> Result<Option<Shown>, Memory>
    requires { IsLent text.now told.now fault.now }
    ensures { IfOk result (λ shown. shown ≡ spec.template_shown text.now fault.now) }
{
    match fault {
        SyntaxFault::Template(name, fault) => {
            shown_of(alloc, *fault, &with_tokens(text, told), name.as_bytes())
        }
        _ => Ok(None),
    }
}

/// What is shown of a text that is read as no service. Where the fault is about tokens, those of the text are lent.
pub fn syntax_shown(
    alloc: Global,
    text: &[u8],
    told: &Told,
    fault: &SyntaxFault,
) -> Result<Shown, Memory>
    requires { IsLent text.now told.now fault.now }
    ensures { IfOk result (λ shown. shown ≡ spec.syntax_shown text.now fault.now) }
{
    match template_shown(alloc, text, told, fault)? {
        Some(shown) => Ok(shown),
        None => Ok(Shown {
            first: syntax_place(text, told, fault),
            second: None,
            expected: None,
        }),
    }
}
