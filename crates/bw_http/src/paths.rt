//! The path that a target leads to.
ghost use Rattle.std.specs.Prelude.{◌≡◌, ◌≢◌, ◌⊎◌, ℕ, ◌^◌, ◌<◌, ◌≤◌, ◌++◌, List, length, slice_index, true, codes, IsTrue, IfOk, MatchOption, decimal};
ghost use Rattle.std.specs.List.{list_all, AllPass};
ghost use Rattle.bw_lang.specs.Text.Bytes as bytes;
ghost use Rattle.bw_lang.specs.Text.TokenForms.{IsWord};
ghost use Rattle.bw_http.specs.Paths as spec;
ghost use Rattle.bw_http.specs.Paths.{IsCount, IsPath, LeadsTo, SpellsTurn, SpellsNoTurn, SpellsName, SpellsNoName, HasNo, IsCutAt, hex_digits};

use crate::decide::same_word;
use crate::request::Path;
use bw_lang::limits::MAX_NAME_BYTES;
use bw_lang::{Memory, Name};
use std::alloc::Global;
use std::str::from_utf8;

/// The bytes before the first `?`.
fn before_query(target: &[u8]) -> &[u8]
    ensures { result.now ≡ spec.before_query target.now }
{
    match target.iter().position(|b| *b == b'?') {
        Some(end) => &target[..end],
        None => target,
    }
}

/// The bytes from the first `/`, or that alone.
fn from_slash(bytes: &[u8]) -> &[u8]
    ensures { result.now ≡ spec.from_slash bytes.now }
{
    let mut rest = bytes;
    while let [first, more @ ..] = rest {
        if *first == b'/' {
            return rest;
        }
        rest = more;
    }
    b"/"
}

/// The path without a scheme and an authority in front of it.
fn after_authority(path: &[u8]) -> &[u8]
    ensures { result.now ≡ spec.after_authority path.now }
{
    if path.len() < 7 {
        return path;
    }
    let (scheme, rest) = path.split_at(7);
    if same_word(scheme, b"http://") {
        from_slash(rest)
    } else {
        path
    }
}

fn is_letter(b: u8) -> bool
    ensures { result ≡ bytes.is_letter b }
{
    b.is_ascii_lowercase() || (b.is_ascii_uppercase() || b == b'_')
}

fn is_word_byte(b: u8) -> bool
    ensures { result ≡ bytes.is_word_byte b }
{
    is_letter(b) || b.is_ascii_digit()
}

fn are_word_bytes(text: &[u8]) -> bool
    ensures yes { IsTrue result → AllPass bytes.is_word_byte text.now }
    ensures none { AllPass bytes.is_word_byte text.now → IsTrue result }
{
    text.iter().all(|b| is_word_byte(*b))
}

/// Whether it is a word, as sessions have for names: letters, digits and `_`, and no digit in front.
pub fn is_word(bytes: &[u8]) -> bool
    ensures word { IsTrue result → IsWord bytes.now }
    ensures none { IsWord bytes.now → IsTrue result }
{
    match bytes {
        [] => false,
        [first, rest @ ..] => is_letter(*first) && are_word_bytes(rest),
    }
}

/// Whether the first byte is a digit other than 0. So a sign or a leading zero makes no number.
fn begins_count(text: &str) -> bool
    ensures yes { IsTrue result → (48 < slice_index text.now 0) × (slice_index text.now 0 < 58) }
    ensures none { 48 < slice_index text.now 0 → slice_index text.now 0 < 58 → IsTrue result }
{
    match text.as_bytes() {
        [] => false,
        [first, ..] => b'1' <= *first && *first <= b'9',
    }
}

/// The number from 1 to 4,294,967,295 that these decimal digits write, without leading zeros.
fn count_of(text: &str) -> Option<u32>
    ensures { MatchOption result ((n : ℕ) → IsCount n → text.now ≢ decimal n)
        (λ n. IsCount n × (text.now ≡ decimal n)) }
{
    if !begins_count(text) {
        return None;
    }
    match text.parse() {
        Ok(n) => Some(n),
        Err(_) => None,
    }
}

fn is_key_digit(b: u8) -> bool
    ensures { result ≡ spec.is_key_digit b }
{
    b.is_ascii_digit() || (b'a' <= b && b <= b'f')
}

fn are_key_digits(text: &[u8]) -> bool
    ensures { result ≡ list_all spec.is_key_digit text.now }
{
    text.iter().all(|b| is_key_digit(*b))
}

/// Whether the text is 16 hexadecimal digits in lower case.
fn is_key(text: &str) -> bool
    ensures yes { IsTrue result → (length text.now ≡ 16) × (list_all spec.is_key_digit text.now ≡ true) }
    ensures none { length text.now ≡ 16 → list_all spec.is_key_digit text.now ≡ true → IsTrue result }
{
    text.len() == 16 && are_key_digits(text.as_bytes())
}

/// The number that 16 hexadecimal digits in lower case write.
fn key_of(text: &str) -> Option<u64>
    ensures { MatchOption result ((key : ℕ) → key < 2 ^ 64 → text.now ≢ hex_digits 16 key)
        (λ key. (key < 2 ^ 64) × (text.now ≡ hex_digits 16 key)) }
{
    if !is_key(text) {
        return None;
    }
    match u64::from_str_radix(text, 16) {
        Ok(key) => Some(key),
        Err(_) => None,
    }
}

/// The text before and behind the first mark.
fn cut(text: &str, mark: char) -> Option<(&str, &str)>
    requires { mark < 128 }
    ensures { MatchOption result (HasNo mark text.now) (λ parts. IsCutAt mark text.now parts.0.now parts.1.now) }
{
    text.split_once(mark)
}

/// The text behind this front.
fn after<'a>(front: &str, text: &'a str) -> Option<&'a str>
    ensures { MatchOption result ((rest : List ℕ) → text.now ≢ front.now ++ rest)
        (λ rest. text.now ≡ front.now ++ rest.now) }
{
    text.strip_prefix(front)
}

/// The number, key and turn of a path of the form `/s/NUMBER-KEY/TURN`.
fn turn_of(path: &str) -> Option<(u32, u64, u32)>
    ensures { MatchOption result (SpellsNoTurn path.now) (λ at. SpellsTurn path.now at.0 at.1 at.2) }
{
    let turn = after("/s/", path)?;
    let (number, rest) = cut(turn, '-')?;
    let (key, turn) = cut(rest, '/')?;
    Some((count_of(number)?, key_of(key)?, count_of(turn)?))
}

/// The name of a path of the form `/NAME`.
fn name_of(path: &str) -> Option<&str>
    ensures { MatchOption result (SpellsNoName path.now) (λ name. SpellsName path.now name.now) }
{
    let name = after("/", path)?;
    if name.len() <= MAX_NAME_BYTES as usize && is_word(name.as_bytes()) {
        Some(name)
    } else {
        None
    }
}

/// The path that a target leads to.
pub fn path_of(alloc: Global, target: &[u8]) -> Result<Path, Memory>
    ensures { IfOk result (LeadsTo target.now) }
{
    match from_utf8(after_authority(before_query(target))) {
        Ok(path) => form_of(alloc, path),
        Err(_) => Ok(Path::Other),
    }
}

/// The path that these bytes spell.
fn form_of(alloc: Global, path: &str) -> Result<Path, Memory>
    ensures { IfOk result (IsPath path.now) }
{
    if path == "/" {
        return Ok(Path::Index);
    }
    if let Some((number, key, turn)) = turn_of(path) {
        return Ok(Path::Turn { number, key, turn });
    }
    match name_of(path) {
        Some(name) => Ok(Path::Start(Name::of(alloc, name)?)),
        None => Ok(Path::Other),
    }
}
