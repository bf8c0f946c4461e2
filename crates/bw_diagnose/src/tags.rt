//! Places in the insides of templates.
ghost use Rattle.std.specs.Prelude.{◌≡◌, ◌≤◌, length, drop, slice_get};
ghost use Rattle.bw_lang.specs.declared.limits.TheConstants.{MAX_FILE_BYTES};
ghost use Rattle.bw_diagnose.specs.Places as spec;

use bw_excerpt::Place;
use bw_lang::limits::MAX_FILE_BYTES;
use bw_lang::{Lexeme, Token};
use bw_places::tag_place;

/// The bytes from a place on; none behind the end.
pub fn rest(bytes: &[u8], at: usize) -> &[u8]
    ensures { result.now ≡ drop at bytes.now }
{
    match bytes.get(at..) {
        Some(rest) => rest,
        None => &[],
    }
}

/// How many letters, digits and `_` stand in front.
pub fn word_length(bytes: &[u8]) -> usize
    ensures length { result ≡ spec.word_length bytes.now }
    ensures few { result ≤ length bytes.now }
{
    for (index, &byte) in bytes.iter().enumerate() {
        if !(byte.is_ascii_alphanumeric() || byte == b'_') {
            return index;
        }
    }
    bytes.len()
}

/// Where a token begins, at most behind the longest file.
pub fn token_start(tokens: &[Token], at: usize) -> usize
    ensures start { result ≡ spec.token_start (slice_get tokens.now at) }
    ensures early { result ≤ MAX_FILE_BYTES }
{
    match tokens.get(at) {
        Some(token) => token.start.min(MAX_FILE_BYTES),
        None => 0,
    }
}

/// The inside of a template that is the token of this number.
pub fn inside_of(lexemes: &[Lexeme], at: usize) -> &[u8]
    ensures { result.now ≡ spec.inside_of (slice_get lexemes.now at) }
{
    match lexemes.get(at) {
        Some(Lexeme::Template(inside)) => inside.as_slice(),
        _ => &[],
    }
}

/// Whether a gap outside tags begins in front of these bytes.
fn begins_hole(bytes: &[u8]) -> bool
    ensures { result ≡ spec.begins_hole bytes.now }
{
    match bytes {
        [first, second, ..] => *first == b'<' && *second == b'[',
        _ => false,
    }
}

/// The place of the gap of this number outside tags, counted from 0.
fn hole_place(inside: &[u8], number: usize) -> Option<usize>
    ensures { result ≡ spec.hole_place inside.now number 0 }
{
    let mut left = number;
    for at in 0..inside.len() {
        if begins_hole(rest(inside, at)) {
            if left == 0 {
                return Some(at);
            }
            left -= 1;
        }
    }
    None
}

/// From a byte of an inside on, so many bytes and then a word; the template begins at `start`. Where there is none, it is the
/// word `<html>` in front of the inside.
fn inside_place(start: usize, inside: &[u8], count: usize, at: Option<usize>) -> Place
    requires start { start ≤ MAX_FILE_BYTES }
    requires count { count ≤ 2 }
    ensures { result ≡ spec.inside_place start inside.now count at }
{
    match at {
        Some(at) => {
            let at = at.min(inside.len());
            let from = start + 6 + at;
            Place {
                from,
                to: from + (count + word_length(rest(inside, at + count))),
            }
        }
        None => Place {
            from: start,
            to: start + 6,
        },
    }
}

/// The start tag of a number in the template that is this token.
pub fn tag_there(tokens: &[Token], lexemes: &[Lexeme], at: usize, number: usize) -> Place
    ensures { result ≡ spec.tag_there tokens.now lexemes.now at number }
{
    let inside = inside_of(lexemes, at);
    inside_place(
        token_start(tokens, at),
        inside,
        1,
        tag_place(inside, number),
    )
}

/// The gap of a number outside tags in the template that is this token.
pub fn hole_there(tokens: &[Token], lexemes: &[Lexeme], at: usize, number: usize) -> Place
    ensures { result ≡ spec.hole_there tokens.now lexemes.now at number }
{
    let inside = inside_of(lexemes, at);
    inside_place(
        token_start(tokens, at),
        inside,
        2,
        hole_place(inside, number),
    )
}
