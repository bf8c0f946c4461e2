//! Which tokens a fault is about.
ghost use Rattle.std.specs.Prelude.{◌≡◌, ◌<◌, ◌+◌, ◌-◌, ◌^◌, IfSome, slice_get};
ghost use Rattle.bw_diagnose.specs.Finding as spec;

use crate::walk::{is_template, is_word};
use bw_lang::Lexeme;
use bw_places::Span;

/// What is sought among tokens.
#[derive(Clone, Copy)]
pub enum Wanted {
    /// The template of a name.
    Template,
    /// The word in front of what is received.
    Receive,
    /// The name of a field that is received.
    Field,
    /// The name of a gap that is plugged.
    Gap,
}

/// Whether the token of this number is this word.
pub fn word_at(lexemes: &[Lexeme], at: usize, word: &[u8]) -> bool
    ensures { result ≡ spec.word_at lexemes.now at word.now }
{
    match lexemes.get(at) {
        Some(lexeme) => is_word(lexeme, word),
        None => false,
    }
}

/// Whether a token is this sign.
fn is_sign(lexeme: &Lexeme, sign: &[u8]) -> bool
    ensures { result ≡ spec.is_sign sign.now lexeme.now }
{
    match lexeme {
        Lexeme::Sign(own) => own.as_slice() == sign,
        _ => false,
    }
}

/// Whether the token of this number is this sign.
pub fn sign_at(lexemes: &[Lexeme], at: usize, sign: &[u8]) -> bool
    ensures { result ≡ spec.sign_at lexemes.now at sign.now }
{
    match lexemes.get(at) {
        Some(lexeme) => is_sign(lexeme, sign),
        None => false,
    }
}

/// Whether the token of this number is a template.
fn template_at(lexemes: &[Lexeme], at: usize) -> bool
    ensures { result ≡ spec.template_at lexemes.now at }
{
    match lexemes.get(at) {
        Some(lexeme) => is_template(lexeme),
        None => false,
    }
}

/// Whether the token of this number is what is sought, of this name.
fn is_wanted(wanted: Wanted, lexemes: &[Lexeme], name: &[u8], at: usize) -> bool
    requires { at < 2 ^ 64 - 1 }
    ensures { result ≡ spec.is_wanted wanted lexemes.now name.now at }
{
    match wanted {
        Wanted::Template => {
            template_at(lexemes, at) && word_at(lexemes, at.saturating_sub(2), name)
        }
        Wanted::Receive => word_at(lexemes, at, b"receive"),
        Wanted::Field => {
            word_at(lexemes, at, name) && sign_at(lexemes, at.saturating_sub(1), b"=")
        }
        Wanted::Gap => {
            word_at(lexemes, at, name)
                && (sign_at(lexemes, at + 1, b"=")
                    && (sign_at(lexemes, at.saturating_sub(1), b"<[")
                        || sign_at(lexemes, at.saturating_sub(1), b",")))
        }
    }
}

/// The first token that is sought, among these.
#[tactic(auto, using(crate::proofs::Steps::first_step))]
pub fn first_in(wanted: Wanted, lexemes: &[Lexeme], name: &[u8], span: Span) -> Option<usize>
    ensures place { result ≡ spec.first_in wanted lexemes.now name.now span }
    ensures inside { IfSome result (λ at. at < span.to) }
{
    for at in span.from..span.to {
        if is_wanted(wanted, lexemes, name, at) {
            return Some(at);
        }
    }
    None
}

/// Where what is received begins.
fn receive_in(lexemes: &[Lexeme], span: Span) -> Option<usize>
    ensures { result ≡ spec.receive_in lexemes.now span }
{
    first_in(Wanted::Receive, lexemes, b"", span)
}

/// The name of a field that is received, in a statement of these tokens.
pub fn field_in(lexemes: &[Lexeme], name: &[u8], span: Span) -> Option<usize>
    ensures { result ≡ spec.field_in lexemes.now name.now span }
{
    match receive_in(lexemes, span) {
        Some(at) => first_in(
            Wanted::Field,
            lexemes,
            name,
            Span {
                from: at,
                to: span.to,
            },
        ),
        None => None,
    }
}

/// The tokens in front of what is received.
fn shown_in(lexemes: &[Lexeme], span: Span) -> Span
    ensures { result ≡ spec.shown_in span (spec.receive_in lexemes.now span) }
{
    match receive_in(lexemes, span) {
        Some(at) => Span {
            from: span.from,
            to: at,
        },
        None => span,
    }
}

/// The name of a gap that is plugged once among these tokens.
fn gap_among(lexemes: &[Lexeme], name: &[u8], span: Span) -> Option<usize>
    ensures { result ≡ spec.gap_among lexemes.now name.now span }
{
    match first_in(Wanted::Gap, lexemes, name, span) {
        Some(at) => {
            let behind = Span {
                from: at + 1,
                to: span.to,
            };
            match first_in(Wanted::Gap, lexemes, name, behind) {
                Some(_) => None,
                None => Some(at),
            }
        }
        None => None,
    }
}

/// The name of a gap that is plugged once in a statement of these tokens.
pub fn gap_in(lexemes: &[Lexeme], name: &[u8], span: Span) -> Option<usize>
    ensures { result ≡ spec.gap_in lexemes.now name.now span }
{
    gap_among(lexemes, name, shown_in(lexemes, span))
}
