//! The piece that stands at the front of some bytes.
ghost use Rattle.std.specs.Prelude.{◌≡◌, ℕ, ◌+◌, ◌<◌, ◌≤◌, false, nat_le, [], length, slice_index, drop, IfOk, MatchOption};
ghost use Rattle.std.specs.List.{prefix_len, AllPass};
ghost use Rattle.std.specs.Str.{IsUtf8, byte};
ghost use Rattle.bw_lang.specs.Text.Bytes.{is_letter, is_digit, is_word_byte, is_on_line, is_sign, is_pair};
ghost use Rattle.bw_lang.specs.Text.TokenForms.{value};
ghost use Rattle.bw_lex.specs.Pieces.{number, string_byte, string, template, sign, piece};

use bw_lang::{Memory, Text, TokenKind, is_blank};
use std::alloc::Global;

/// The greatest value of a number.
const GREATEST: u64 = 9_223_372_036_854_775_807;

/// The faults, without their places.
#[derive(Clone, Copy)]
pub enum FaultKind {
    BadByte,
    OpenString,
    OpenTemplate,
    NumberTooBig,
}

/// What stands at a byte.
#[derive(Drop)]
pub enum Piece {
    /// A blank or a comment, of so many bytes.
    Gap(usize),
    /// A token of so many bytes.
    Token(TokenKind, usize),
    /// A fault so many bytes on.
    Fault(FaultKind, usize),
}

/// What a byte of a string is.
#[derive(Clone, Copy)]
enum StringByte {
    /// It stands for this byte of the text.
    Stands(u8),
    /// The backslash of an escape.
    Escapes,
    /// The quote that ends the string.
    Closes,
    /// The line ends in front of that quote.
    BreaksLine,
    /// Behind a backslash, none of the three that may stand there.
    NoEscape,
}

fn is_letter(b: u8) -> bool
    ensures { result ≡ is_letter b }
{
    b.is_ascii_alphabetic() || b == b'_'
}

fn is_digit(b: u8) -> bool
    ensures { result ≡ is_digit b }
{
    b.is_ascii_digit()
}

fn is_sign(b: u8) -> bool
    ensures { result ≡ is_sign b }
{
    b"{}()[];,=!<>+-*/%".contains(&b)
}

fn is_pair(a: u8, b: u8) -> bool
    ensures { result ≡ is_pair a b }
{
    matches!(
        (a, b),
        (b'<', b'[')
            | (b'=', b'=')
            | (b'!', b'=')
            | (b'<', b'=')
            | (b'>', b'=')
            | (b'&', b'&')
            | (b'|', b'|')
    )
}

/// The value of decimal digits, unless it is too great.
fn value(digits: &[u8]) -> Option<u64>
    requires { AllPass is_digit digits.now }
    ensures { MatchOption result (GREATEST < value digits.now) (λ v. (v ≡ value digits.now) × (v ≤ GREATEST)) }
{
    let mut value = 0;
    for b in digits {
        let digit = u64::from(*b - b'0');
        if value > (GREATEST - digit) / 10 {
            return None;
        }
        value = value * 10 + digit;
    }
    Some(value)
}

fn digits_len(bytes: &[u8]) -> usize
    ensures { result ≡ prefix_len is_digit bytes.now }
{
    bytes.iter().take_while(|b| is_digit(**b)).count()
}

fn word_len(bytes: &[u8]) -> usize
    ensures { result ≡ prefix_len is_word_byte bytes.now }
{
    bytes
        .iter()
        .take_while(|b| is_letter(**b) || is_digit(**b))
        .count()
}

fn line_len(bytes: &[u8]) -> usize
    ensures { result ≡ prefix_len is_on_line bytes.now }
{
    bytes.iter().take_while(|b| **b != b'\n').count()
}

fn number(bytes: &[u8]) -> Piece
    ensures { result ≡ number bytes.now }
{
    let len = digits_len(bytes);
    match value(&bytes[..len]) {
        Some(value) => Piece::Token(TokenKind::Number(value), len),
        None => Piece::Fault(FaultKind::NumberTooBig, 0),
    }
}

/// A byte of a string, behind the backslash of an escape or not.
fn string_byte(escaped: bool, b: u8) -> StringByte
    ensures { result ≡ string_byte escaped b }
{
    if escaped {
        match b {
            b'"' | b'\\' => StringByte::Stands(b),
            b'n' => StringByte::Stands(b'\n'),
            _ => StringByte::NoEscape,
        }
    } else {
        match b {
            b'"' => StringByte::Closes,
            b'\n' => StringByte::BreaksLine,
            b'\\' => StringByte::Escapes,
            _ => StringByte::Stands(b),
        }
    }
}

/// A string, of which these are the bytes behind the first quote.
fn string(alloc: Global, bad: bool, bytes: &[u8]) -> Result<Piece, Memory>
    requires { IsUtf8 bytes.now }
    ensures { IfOk result (λ s. s ≡ string bad false [] 1 bytes.now) }
{
    let mut text = Vec::new(alloc);
    let mut escaped = false;
    for (n, b) in bytes.iter().enumerate() {
        match string_byte(escaped, *b) {
            StringByte::Stands(c) => {
                text.push(c)?;
                escaped = false;
            }
            StringByte::Escapes => escaped = true,
            StringByte::Closes => {
                let text = String::from_utf8(text).unwrap();
                return Ok(Piece::Token(TokenKind::Str(Text::from_string(text)), n + 2));
            }
            StringByte::BreaksLine => return Ok(Piece::Fault(FaultKind::OpenString, 0)),
            StringByte::NoEscape => return Ok(Piece::Fault(FaultKind::BadByte, n)),
        }
    }
    if escaped {
        Ok(Piece::Fault(FaultKind::BadByte, bytes.len()))
    } else if bad {
        Ok(Piece::Fault(FaultKind::BadByte, bytes.len() + 1))
    } else {
        Ok(Piece::Fault(FaultKind::OpenString, 0))
    }
}

/// A template, which these bytes begin: the 6 of `<html>`, and more up to the 7 of the first `</html>`.
fn template(bad: bool, bytes: &[u8]) -> Piece
    requires { 6 ≤ length bytes.now }
    ensures { result ≡ template bad 6 (drop 6 bytes.now) }
{
    for n in 6..bytes.len() {
        if bytes[n..].starts_with(b"</html>") {
            return Piece::Token(TokenKind::Template, n + 7);
        }
    }
    if bad {
        Piece::Fault(FaultKind::BadByte, bytes.len())
    } else {
        Piece::Fault(FaultKind::OpenTemplate, 0)
    }
}

#[tactic(auto, unfolding(crate::specs::Pieces::sign))]
fn sign(bytes: &[u8]) -> Piece
    ensures { result ≡ sign bytes.now }
{
    match bytes {
        [a, b, ..] if is_pair(*a, *b) => Piece::Token(TokenKind::Sign, 2),
        [a, ..] if is_sign(*a) => Piece::Token(TokenKind::Sign, 1),
        _ => Piece::Fault(FaultKind::BadByte, 0),
    }
}

/// The piece at the front of the bytes, behind which a bad byte follows or not.
#[tactic(auto, unfolding(crate::specs::Pieces::piece))]
pub fn read_piece(alloc: Global, bad: bool, bytes: &[u8]) -> Result<Piece, Memory>
    requires { slice_index bytes.now 0 ≡ byte "\"" → IsUtf8 (drop 1 bytes.now) }
    ensures { IfOk result (λ p. p ≡ piece bad bytes.now) }
{
    let [first, rest @ ..] = bytes else {
        return Ok(Piece::Fault(FaultKind::BadByte, 0));
    };
    let first = *first;
    if is_blank(first) {
        Ok(Piece::Gap(1))
    } else if is_letter(first) {
        Ok(Piece::Token(TokenKind::Word, word_len(bytes)))
    } else if is_digit(first) {
        Ok(number(bytes))
    } else if first == b'"' {
        string(alloc, bad, rest)
    } else if bytes.starts_with(b"//") {
        Ok(Piece::Gap(line_len(bytes)))
    } else if bytes.starts_with(b"<html>") {
        Ok(template(bad, bytes))
    } else {
        Ok(sign(bytes))
    }
}
