//! Characters and names at the front of bytes.
ghost use Rattle.std.specs.Prelude.{◌≡◌, length, ◌≤◌, IfOk, MatchOption};
ghost use Rattle.bw_lang.specs.Template.MarkupNames.{first_of, later_of, begins};
ghost use Rattle.bw_tmpl.specs.Steps.Reading as spec;

use crate::fault::TmplFault;
use bw_lang::pieces::NameClass;
use bw_lang::{Memory, Name, Text, is_blank};
use std::alloc::Global;
use std::str;

/// Whether a name of the class may begin with the byte.
fn is_first(class: NameClass, c: u8) -> bool
    ensures { result ≡ first_of class c }
{
    match class {
        NameClass::Tag | NameClass::Attr => c.is_ascii_lowercase(),
        NameClass::Word => c.is_ascii_alphabetic() || c == b'_',
    }
}

/// Whether the byte may stand in a name of the class, behind the first.
fn is_later(class: NameClass, c: u8) -> bool
    ensures { result ≡ later_of class c }
{
    match class {
        NameClass::Tag => c.is_ascii_lowercase() || c.is_ascii_digit(),
        NameClass::Attr => c.is_ascii_lowercase() || c.is_ascii_digit() || c == b'-',
        NameClass::Word => c.is_ascii_alphanumeric() || c == b'_',
    }
}

/// How many bytes at the front may stand in a name of the class.
fn name_length(class: NameClass, bytes: &[u8]) -> usize
    ensures value { result ≡ spec.leading (later_of class) bytes.now }
    ensures within { result ≤ length bytes.now }
{
    let mut n = 0;
    for b in bytes {
        if !is_later(class, *b) {
            return n;
        }
        n += 1;
    }
    n
}

/// The bytes behind blanks.
pub fn past_blanks(bytes: &[u8]) -> &[u8]
    ensures { result.now ≡ spec.past_blanks bytes.now }
{
    let mut n = 0;
    for b in bytes {
        if !is_blank(*b) {
            break;
        }
        n += 1;
    }
    &bytes[n..]
}

/// Whether a name of the class may begin with the first of the bytes.
fn begins(class: NameClass, bytes: &[u8]) -> bool
    ensures { result ≡ begins (first_of class) bytes.now }
{
    match bytes {
        [] => false,
        [first, ..] => is_first(class, *first),
    }
}

/// The longest name of the class at the front, and the bytes behind it.
#[tactic(auto, using(crate::proofs::Runs::name_utf8))]
pub fn name_at(alloc: Global, class: NameClass, bytes: &[u8]) -> Result<(Name, &[u8]), TmplFault>
    ensures { spec.Gives (λ x. (x.0, x.1.now)) result (spec.name_at class bytes.now) }
{
    if !begins(class, bytes) {
        return Err(TmplFault::Malformed);
    }
    let n = name_length(class, bytes);
    match str::from_utf8(&bytes[..n]) {
        Ok(name) => Ok((Name::of(alloc, name)?, &bytes[n..])),
        Err(_) => Err(TmplFault::Malformed),
    }
}

/// What the reference at the front stands for, and the bytes behind it.
fn ref_at(bytes: &[u8]) -> Option<(u8, &[u8])>
    ensures { MatchOption result (spec.ref_at bytes.now ≡ None) (λ x. spec.ref_at bytes.now ≡ Some (x.0, x.1.now)) }
{
    if let Some(rest) = bytes.strip_prefix(b"&amp;") {
        return Some((b'&', rest));
    }
    if let Some(rest) = bytes.strip_prefix(b"&lt;") {
        return Some((b'<', rest));
    }
    if let Some(rest) = bytes.strip_prefix(b"&gt;") {
        return Some((b'>', rest));
    }
    if let Some(rest) = bytes.strip_prefix(b"&quot;") {
        return Some((b'"', rest));
    }
    None
}

/// The character at the front, itself or by a reference, if it is neither `<` nor `stop`, and the bytes behind it.
fn char_at(stop: u8, bytes: &[u8]) -> Option<(u8, &[u8])>
    ensures { MatchOption result (spec.char_at stop bytes.now ≡ None) (λ x. spec.char_at stop bytes.now ≡ Some (x.0, x.1.now)) }
{
    let Some(first) = bytes.first() else {
        return None;
    };
    if *first == b'&' {
        return ref_at(bytes);
    }
    if *first == b'<' || *first == stop {
        return None;
    }
    Some((*first, &bytes[1..]))
}

/// Whether a byte stands for itself in a text that `stop` ends.
fn is_plain(stop: u8, c: u8) -> bool
    ensures { result ≡ spec.is_plain stop c }
{
    c != b'&' && c != b'<' && c != stop
}

/// How many bytes at the front stand for themselves.
fn plain_length(stop: u8, bytes: &[u8]) -> usize
    ensures value { result ≡ spec.leading (spec.is_plain stop) bytes.now }
    ensures within { result ≤ length bytes.now }
{
    let mut n = 0;
    for b in bytes {
        if !is_plain(stop, *b) {
            return n;
        }
        n += 1;
    }
    n
}

/// The characters at the front, as many as there are, and the bytes behind them.
pub fn chars_at(alloc: Global, stop: u8, bytes: &[u8]) -> Result<(Vec<u8>, &[u8]), Memory>
    ensures { IfOk result (λ x. spec.each (spec.char_at stop) bytes.now ≡ (x.0.items, x.1.now)) }
{
    let plain = plain_length(stop, bytes);
    let mut text = Vec::from_slice(alloc, &bytes[..plain])?;
    let mut rest = &bytes[plain..];
    'chars: loop {
        match char_at(stop, rest) {
            None => return Ok((text, rest)),
            Some((c, after)) => {
                text.push(c)?;
                rest = after;
            }
        }
    }
}

/// A text, if the bytes are UTF-8. It takes no memory.
pub fn checked(bytes: Vec<u8>) -> Result<Text, TmplFault>
    ensures { spec.Gives (λ t. t) result (spec.checked bytes.items) }
{
    match String::from_utf8(bytes) {
        Ok(text) => Ok(Text::from_string(text)),
        Err(_) => Err(TmplFault::Malformed),
    }
}
