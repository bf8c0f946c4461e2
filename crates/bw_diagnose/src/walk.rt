//! At which token a limit is passed that is counted over all tokens.
ghost use Rattle.std.specs.Prelude.{◌≡◌, ◌≤◌, ◌<◌, ◌+◌, ◌^◌, IfSome, length, slice_get};
ghost use Rattle.bw_diagnose.specs.Walks as spec;

use bw_lang::limits::{
    MAX_FIELDS, MAX_GAPS, MAX_LOCALS, MAX_NAME_BYTES, MAX_NESTING, MAX_SESSIONS, MAX_SHARED,
    MAX_STRETCH, MAX_STRING_BYTES, MAX_TEMPLATE_WEIGHT, MAX_TEMPLATES,
};
use bw_lang::{Lexeme, Limit};
use bw_limits::{depth_behind, ends_stretch};

/// How far a walk over tokens has come.
#[derive(Clone, Copy)]
pub struct Walk {
    /// The brackets that are open.
    pub depth: u64,
    /// What the limit counts.
    pub count: u64,
}

/// Whether a token is this word.
pub fn is_word(lexeme: &Lexeme, word: &[u8]) -> bool
    ensures { result ≡ spec.is_word word.now lexeme.now }
{
    match lexeme {
        Lexeme::Word(own) => own.as_bytes() == word,
        _ => false,
    }
}

/// Whether a token is a template.
pub fn is_template(lexeme: &Lexeme) -> bool
    ensures { result ≡ spec.is_template lexeme.now }
{
    matches!(lexeme, Lexeme::Template(_))
}

/// Whether a local is declared behind the token, where it stands in a session.
fn declares(lexeme: &Lexeme) -> bool
    ensures { result ≡ spec.declares lexeme.now }
{
    is_word(lexeme, b"int")
        || (is_word(lexeme, b"bool")
            || (is_word(lexeme, b"string")
                || (is_word(lexeme, b"html")
                    || (is_word(lexeme, b"strings") || is_word(lexeme, b"foreach")))))
}

/// The bytes of a name.
fn name_length(lexeme: &Lexeme) -> u64
    ensures { result ≡ spec.name_length lexeme.now }
{
    match lexeme {
        Lexeme::Word(own) => own.as_bytes().len() as u64,
        _ => 0,
    }
}

/// The bytes that a string stands for.
fn text_length(lexeme: &Lexeme) -> u64
    ensures { result ≡ spec.text_length lexeme.now }
{
    match lexeme {
        Lexeme::Str(text) => text.as_bytes().len() as u64,
        _ => 0,
    }
}

/// One more, where it is so.
fn one_if(so: bool, count: u64) -> u64
    requires { count < 2 ^ 63 }
    ensures { result ≡ spec.one_if so count }
{
    if so { count + 1 } else { count }
}

/// What the limit counts, behind a token.
fn count_behind(limit: Limit, walk: Walk, lexeme: &Lexeme) -> u64
    requires depth { walk.depth < 2 ^ 63 }
    requires count { walk.count < 2 ^ 63 }
    ensures { result ≡ spec.count_behind limit walk lexeme.now }
{
    match limit {
        Limit::Nesting => depth_behind(walk.depth, lexeme),
        Limit::Stretch => {
            if ends_stretch(lexeme) {
                0
            } else {
                walk.count + 1
            }
        }
        Limit::Templates => one_if(is_template(lexeme), walk.count),
        Limit::Sessions => one_if(is_word(lexeme, b"session"), walk.count),
        Limit::Shared => one_if(is_word(lexeme, b"shared"), walk.count),
        Limit::Locals => {
            if walk.depth < 2 {
                0
            } else {
                one_if(declares(lexeme), walk.count)
            }
        }
        Limit::NameBytes => name_length(lexeme),
        Limit::StringBytes => text_length(lexeme),
        Limit::Gaps | Limit::Fields | Limit::Weight => 0,
    }
}

/// The greatest number that is still read.
fn greatest(limit: Limit) -> u64
    ensures number { result ≡ spec.greatest limit }
    ensures small { result < 2 ^ 32 }
{
    match limit {
        Limit::Nesting => MAX_NESTING,
        Limit::Stretch => MAX_STRETCH,
        Limit::Templates => MAX_TEMPLATES,
        Limit::Sessions => MAX_SESSIONS,
        Limit::Shared => MAX_SHARED,
        Limit::Gaps => MAX_GAPS,
        Limit::Fields => MAX_FIELDS,
        Limit::Locals => MAX_LOCALS,
        Limit::NameBytes => MAX_NAME_BYTES,
        Limit::StringBytes => MAX_STRING_BYTES as u64,
        Limit::Weight => MAX_TEMPLATE_WEIGHT,
    }
}

/// The walk behind a token.
fn walk_behind(limit: Limit, walk: Walk, lexeme: &Lexeme) -> Walk
    requires depth { walk.depth < 2 ^ 63 }
    requires count { walk.count < 2 ^ 63 }
    ensures { result ≡ spec.walk_behind limit walk lexeme.now }
{
    Walk {
        depth: depth_behind(walk.depth, lexeme),
        count: count_behind(limit, walk, lexeme),
    }
}

/// The first token behind which more is counted than is read.
#[tactic(auto, using(bw_limits::proofs::BracketSteps::bracket_steps))]
fn passing(limit: Limit, lexemes: &[Lexeme]) -> Option<usize>
    ensures place { result ≡ spec.passing limit 0 (record { depth = 0; count = 0 }) lexemes.now }
    ensures inside { IfSome result (λ at. at < length lexemes.now) }
{
    let most = greatest(limit);
    let mut walk = Walk { depth: 0, count: 0 };
    for (at, lexeme) in lexemes.iter().enumerate() {
        walk = walk_behind(limit, walk, lexeme);
        if most < walk.count {
            return Some(at);
        }
    }
    None
}

/// Whether the token of this number is `foreach`.
fn is_foreach(lexemes: &[Lexeme], at: usize) -> bool
    ensures { result ≡ spec.is_foreach (slice_get lexemes.now at) }
{
    match lexemes.get(at) {
        Some(lexeme) => is_word(lexeme, b"foreach"),
        None => false,
    }
}

/// The token that is shown where the limit is passed at this one: the name of what is declared, or the token itself.
fn shown_token(limit: Limit, lexemes: &[Lexeme], at: usize) -> usize
    requires { at < 2 ^ 63 }
    ensures { result ≡ spec.shown_token limit lexemes.now at }
{
    match limit {
        Limit::Templates => at.saturating_sub(2),
        Limit::Sessions => at + 1,
        Limit::Shared => at + 2,
        Limit::Locals => {
            if is_foreach(lexemes, at) {
                at + 2
            } else {
                at + 1
            }
        }
        _ => at,
    }
}

/// The token that is shown where a limit is passed. It is the service's name where the limit isn't counted over tokens.
pub fn limit_token(limit: Limit, lexemes: &[Lexeme]) -> usize
    ensures { result ≡ spec.limit_token limit lexemes.now }
{
    match passing(limit, lexemes) {
        Some(at) => shown_token(limit, lexemes, at),
        None => 1,
    }
}
