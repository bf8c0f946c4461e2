//! Texts in parts, and the names of texts.
ghost use Rattle.std.specs.Prelude.{◌<◌, ◌≤◌, IfOk, IfSome, length};

use crate::fault::Fault;
use std::alloc::{AllocError, Global};
use std::str;

/// A text under a name.
#[derive(Drop)]
struct NamedText<'a> {
    name: &'a str,
    bytes: Vec<u8>,
}

/// The texts that have names.
#[derive(Drop)]
pub struct Texts<'a> {
    list: Vec<NamedText<'a>>,
}

impl<'a> Texts<'a> {
    /// No text yet.
    pub fn new(alloc: Global) -> Texts<'a> {
        Texts {
            list: Vec::new(alloc),
        }
    }

    /// Takes in `NAME PARTS`.
    pub fn name(&mut self, alloc: Global, definition: &'a str) -> Result<(), Fault> {
        let (name, parts) = definition.split_once(' ').ok_or(Fault::Malformed)?;
        let bytes = self.join(alloc, parts)?;
        self.list.push(NamedText { name, bytes })?;
        Ok(())
    }

    /// The bytes of a text in parts.
    pub fn join(&self, alloc: Global, parts: &str) -> Result<Vec<u8>, Fault> {
        let mut joined = Vec::new(alloc);
        let mut rest = after_blanks(parts.as_bytes());
        'parts: while !rest.is_empty() {
            let (part, after) = self.part_at(alloc, rest)?;
            joined.extend_from_slice(&part)?;
            rest = after_blanks(after);
        }
        Ok(joined)
    }

    /// A text in parts, with all but printable ASCII as escapes.
    pub fn join_escaped(&self, alloc: Global, parts: &str) -> Result<String, Fault> {
        Ok(escaped(alloc, &self.join(alloc, parts)?)?)
    }

    /// The part at the front, and what follows it.
    fn part_at<'b>(&self, alloc: Global, bytes: &'b [u8]) -> Result<(Vec<u8>, &'b [u8]), Fault>
        ensures { IfOk result (λ x. length x.1.now < length bytes.now) }
    {
        match bytes.strip_prefix(b"repeat ") {
            None => self.plain_part_at(alloc, bytes),
            Some(repeat) => {
                let (digits, after) = word_at(after_blanks(repeat))?;
                let count = str::from_utf8(digits).map_err(|_| Fault::Malformed)?;
                let (text, after) = self.plain_part_at(alloc, after_blanks(after))?;
                Ok((repeated(alloc, count.parse()?, &text)?, after))
            }
        }
    }

    /// The quoted text or the name of a text at the front, and what follows it.
    fn plain_part_at<'b>(
        &self,
        alloc: Global,
        bytes: &'b [u8],
    ) -> Result<(Vec<u8>, &'b [u8]), Fault>
        ensures { IfOk result (λ x. length x.1.now < length bytes.now) }
    {
        if let Some(quoted) = bytes.strip_prefix(b"\"") {
            return quoted_at(alloc, quoted);
        }
        let (name, after) = word_at(bytes)?;
        let text = self.named(name).ok_or(Fault::Malformed)?;
        Ok((Vec::from_slice(alloc, text)?, after))
    }

    /// The text of this name.
    fn named(&self, name: &[u8]) -> Option<&[u8]> {
        for text in &self.list {
            if text.name.as_bytes() == name {
                return Some(text.bytes.as_slice());
            }
        }
        None
    }
}

/// The bytes behind the blanks at the front.
fn after_blanks(bytes: &[u8]) -> &[u8]
    ensures { length result.now ≤ length bytes.now }
{
    let blanks = bytes.iter().take_while(|b| **b == b' ').count();
    let (_, rest) = bytes.split_at(blanks);
    rest
}

/// The bytes up to a blank, one at least, and the rest.
fn word_at(bytes: &[u8]) -> Result<(&[u8], &[u8]), Fault>
    ensures { IfOk result (λ x. length x.1.now < length bytes.now) }
{
    let (word, rest) = bytes.split_at(bytes.iter().take_while(|b| **b != b' ').count());
    if word.is_empty() {
        return Err(Fault::Malformed);
    }
    Ok((word, rest))
}

/// A text so many times.
fn repeated(alloc: Global, count: usize, text: &[u8]) -> Result<Vec<u8>, AllocError> {
    let mut bytes = Vec::new(alloc);
    for _ in 0..count {
        bytes.extend_from_slice(text)?;
    }
    Ok(bytes)
}

/// A quoted text behind its first quote, and what follows its last one.
fn quoted_at(alloc: Global, quoted: &[u8]) -> Result<(Vec<u8>, &[u8]), Fault>
    ensures { IfOk result (λ x. length x.1.now < length quoted.now) }
{
    let mut text = Vec::new(alloc);
    let mut rest = quoted;
    'quoted: loop {
        let (byte, after) = byte_at(rest).ok_or(Fault::Malformed)?;
        match byte {
            Some(byte) => text.push(byte)?,
            None => return Ok((text, after)),
        }
        rest = after;
    }
}

/// The byte that is written at the front, or none for a quote, and what follows it.
fn byte_at(quoted: &[u8]) -> Option<(Option<u8>, &[u8])>
    ensures { IfSome result (λ x. length x.1.now < length quoted.now) }
{
    match quoted {
        [] => None,
        [b'"', after @ ..] => Some((None, after)),
        [b'\\', escape @ ..] => {
            let (byte, after) = escape_at(escape)?;
            Some((Some(byte), after))
        }
        [byte, after @ ..] => Some((Some(*byte), after)),
    }
}

/// The byte that an escape stands for, behind its backslash, and what follows it.
fn escape_at(escape: &[u8]) -> Option<(u8, &[u8])>
    ensures { IfSome result (λ x. length x.1.now ≤ length escape.now) }
{
    match escape {
        [b'n', after @ ..] => Some((b'\n', after)),
        [b'r', after @ ..] => Some((b'\r', after)),
        [b'x', high, low, after @ ..] => {
            let byte = hex_digit(*high)? * 16 + hex_digit(*low)?;
            Some((byte, after))
        }
        [byte @ (b'"' | b'\\'), after @ ..] => Some((*byte, after)),
        _ => None,
    }
}

/// The value of a hexadecimal digit.
fn hex_digit(digit: u8) -> Option<u8>
    ensures { IfSome result (λ value. value < 16) }
{
    match digit {
        b'0'..=b'9' => Some(digit - b'0'),
        b'a'..=b'f' => Some(digit - b'a' + 10),
        b'A'..=b'F' => Some(digit - b'A' + 10),
        _ => None,
    }
}

/// A text with all but printable ASCII as escapes.
pub fn escaped(alloc: Global, text: &[u8]) -> Result<String, AllocError> {
    let mut shown = String::new(alloc);
    for byte in text.escape_ascii() {
        shown.push(char::from(byte))?;
    }
    Ok(shown)
}
