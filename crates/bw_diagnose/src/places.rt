//! Which bytes of a text a refusal points at.
ghost use Rattle.std.specs.Prelude.{◌≡◌, ◌<◌, ◌+◌, ◌-◌, ◌^◌, slice_get};
ghost use Rattle.bw_diagnose.specs.Places as spec;
ghost use Rattle.bw_diagnose.specs.Known.{IsLent, tokens_in, lexemes_in};
ghost use Rattle.bw_diagnose.specs.Marks.{marked_span, marked_element, marked_place};
ghost use Rattle.bw_diagnose.specs.Walks.{limit_token as limit_token_spec};

use crate::finding::{Wanted, field_in, first_in, gap_in};
use crate::known::{Tokened, with_tokens};
use crate::tags::{hole_there, rest, tag_there, token_start, word_length};
use crate::walk::limit_token;
use bw_blame::Site;
use bw_excerpt::Place;
use bw_faults::Fault;
use bw_lang::limits::MAX_FILE_BYTES;
use bw_lang::{Lexeme, Limit, Token};
use bw_lex::LexFault;
use bw_places::Span;
use bw_syntax::{SyntaxFault, Told};

/// So many bytes.
fn bytes_at(text: &[u8], at: usize, count: usize) -> Place
    requires { count < 2 ^ 63 }
    ensures { result ≡ spec.bytes_at text.now at count }
{
    let from = at.min(text.len());
    Place {
        from,
        to: from + count,
    }
}

/// The word there, or else the one byte.
fn word_there(text: &[u8], at: usize) -> Place
    ensures { result ≡ spec.word_there text.now at }
{
    let length = word_length(rest(text, at.min(text.len())));
    bytes_at(text, at, length.max(1))
}

/// The last byte that is more than a space.
fn last_filled(text: &[u8]) -> usize
    ensures { result ≡ spec.last_filled 0 0 text.now }
{
    let mut last = 0;
    for (index, &byte) in text.iter().enumerate() {
        if byte > b' ' {
            last = index;
        }
    }
    last
}

/// The byte, or at the end of the text the last one that is more than a space.
fn filled(text: &[u8], at: usize) -> usize
    ensures { result ≡ spec.filled text.now at }
{
    if at < text.len() {
        at
    } else {
        last_filled(text)
    }
}

/// What stands behind a token.
fn token_end(tokens: &[Token], at: usize) -> usize
    ensures { result ≡ spec.token_end (slice_get tokens.now at) }
{
    match tokens.get(at) {
        Some(token) => token.end,
        None => 0,
    }
}

/// The bytes of a token.
fn token_place(tokens: &[Token], at: usize) -> Place
    ensures { result ≡ spec.token_place tokens.now at }
{
    Place {
        from: token_start(tokens, at),
        to: token_end(tokens, at),
    }
}

/// The bytes of the tokens from one on, and in front of another.
fn span_place(tokens: &[Token], from: usize, to: usize) -> Place
    ensures { result ≡ spec.span_place tokens.now from to }
{
    Place {
        from: token_start(tokens, from),
        to: token_end(tokens, to.saturating_sub(1)),
    }
}

/// What a lexical fault points at.
fn lex_place(text: &[u8], fault: &LexFault) -> Place
    ensures { result ≡ spec.lex_place text.now fault.now }
{
    match fault {
        LexFault::BadByte(at) => bytes_at(text, *at, 1),
        LexFault::OpenString(at) => Place {
            from: *at,
            to: text.len(),
        },
        LexFault::OpenTemplate(at) => bytes_at(text, *at, 6),
        LexFault::NumberTooBig(at) => word_there(text, *at),
        LexFault::Memory => Place { from: 0, to: 0 },
    }
}

/// The name of the template that has this name; and else the service's name.
fn template_token(lexemes: &[Lexeme], name: &[u8]) -> usize
    ensures { result ≡ spec.template_token lexemes.now name.now }
{
    let all = Span {
        from: 0,
        to: lexemes.len(),
    };
    match first_in(Wanted::Template, lexemes, name, all) {
        Some(at) => at.saturating_sub(2),
        None => 1,
    }
}

/// What a text that is read as no service is refused for.
pub fn syntax_place(text: &[u8], told: &Told, fault: &SyntaxFault) -> Place
    requires { IsLent text.now told.now fault.now }
    ensures { result ≡ spec.syntax_place text.now fault.now }
{
    match fault {
        SyntaxFault::TooLong => bytes_at(text, MAX_FILE_BYTES, 1),
        SyntaxFault::Lex(fault) => lex_place(text, fault),
        SyntaxFault::TooMany(limit, _) => limit_place(&with_tokens(text, told), *limit),
        SyntaxFault::Syntax(at) => word_there(text, filled(text, *at)),
        SyntaxFault::Template(name, _) => template_place(&with_tokens(text, told), name.as_bytes()),
        SyntaxFault::Memory => Place { from: 0, to: 0 },
    }
}

/// Where a limit is passed.
fn limit_place(told: &Tokened<'_>, limit: Limit) -> Place
    ensures { result ≡ spec.token_place (tokens_in told.now.text.now) (limit_token_spec limit (lexemes_in told.now.text.now)) }
{
    told_place(told, limit_token(limit, told.lexemes))
}

/// The name of a template.
fn template_place(told: &Tokened<'_>, name: &[u8]) -> Place
    ensures { result ≡ spec.token_place (tokens_in told.now.text.now) (spec.template_token (lexemes_in told.now.text.now) name.now) }
{
    told_place(told, template_token(told.lexemes, name))
}

/// The bytes of a token of a text.
fn told_place(told: &Tokened<'_>, at: usize) -> Place
    ensures { result ≡ spec.token_place (tokens_in told.now.text.now) at }
{
    token_place(told.tokens, at)
}

/// The service's name.
pub fn name_place(told: &Tokened<'_>) -> Place
    ensures { result ≡ spec.name_place told.now.text.now }
{
    told_place(told, 1)
}

/// What a test is about, in the declaration of these tokens.
pub fn site_place(told: &Tokened<'_>, own: Span, site: Site) -> Place
    requires { own.from < 2 ^ 63 }
    ensures { result ≡ spec.site_place told.now.text.now own site }
{
    let tokens = told.tokens;
    match site {
        Site::Tokens(from, to) => span_place(
            tokens,
            own.from.saturating_add(from),
            own.from.saturating_add(to),
        ),
        Site::Target(at) => token_place(tokens, own.from.saturating_add(at)),
        Site::Literal => span_place(tokens, own.from + 4, own.to.saturating_sub(1)),
        Site::StartTag(number) => tag_there(tokens, told.lexemes, own.from + 3, number),
        Site::Hole(number) => hole_there(tokens, told.lexemes, own.from + 3, number),
    }
}

/// The tokens of a statement, which is counted from 1.
fn statement_span(statements: &[Span], point: u32) -> Span
    ensures { result ≡ marked_span statements.now point }
{
    match statements.get(point.saturating_sub(1) as usize) {
        Some(own) => *own,
        None => Span { from: 1, to: 2 },
    }
}

/// The start tag of the element that a fault is about; wrappers of pages have none.
pub fn fault_element(told: &Tokened<'_>, insides: &[usize], fault: &Fault) -> Option<Place>
    ensures { result ≡ marked_element told.now.text.now insides.now fault.now fault.now.template }
{
    match fault.template {
        Some(template) => match insides.get(template.number() as usize) {
            Some(at) => Some(element_place(told, *at, fault.place)),
            None => None,
        },
        None => None,
    }
}

/// The start tag of an element, which is counted from 1, of the template whose inside is this token.
fn element_place(told: &Tokened<'_>, at: usize, element: u32) -> Place
    ensures { result ≡ spec.tag_there (tokens_in told.now.text.now) (lexemes_in told.now.text.now) at (element - 1) }
{
    let number = element.saturating_sub(1) as usize;
    tag_there(told.tokens, told.lexemes, at, number)
}

/// The field that is received, or the gap that is plugged, which a fault is about; or else the whole statement.
pub fn fault_place(told: &Tokened<'_>, statements: &[Span], fault: &Fault) -> Place
    ensures { result ≡ marked_place told.now.text.now statements.now fault.now }
{
    let own = statement_span(statements, fault.point);
    match named_token(told, own, fault) {
        Some(at) => told_place(told, at),
        None => span_place(told.tokens, own.from, own.to),
    }
}

/// The token of the field or the gap that a fault is about.
fn named_token(told: &Tokened<'_>, own: Span, fault: &Fault) -> Option<usize>
    ensures { result ≡ spec.named_token told.now.text.now own fault.now fault.now.template }
{
    let name = fault.detail.as_bytes();
    if fault.template.is_some() {
        None
    } else if fault.number == 11 {
        gap_in(told.lexemes, name, own)
    } else {
        field_in(told.lexemes, name, own)
    }
}
