//! Reading of numbers, texts and lists of texts, from left to right. Each answers what it read and the bytes behind it.
ghost use Rattle.std.specs.Prelude.{◌≡◌, ◌≤◌, length, true, false, IfOk, MatchOption};
ghost use Rattle.std.specs.Int.{w16, w32, w64};
ghost use Rattle.std.specs.Str.{is_utf8};
ghost use Rattle.bw_lang.specs.declared.limits.TheConstants.{MAX_STRING_BYTES};
ghost use Rattle.bw_saved.specs.Fields.Reading as spec;
ghost use Rattle.bw_saved.specs.Fields.Reading.{Gives, number_at};

use crate::fault::ReadError;
use bw_lang::limits::MAX_STRING_BYTES;
use bw_lang::{Text, Words};
use std::alloc::Global;

/// A number of two bytes, the greater one first.
pub(crate) fn u16_at(bytes: &[u8]) -> Result<(u16, &[u8]), ReadError>
    ensures { Gives (λ x. (x.0, x.1.now)) result (number_at w16 bytes.now) }
{
    if bytes.len() < 2 {
        return Err(ReadError::Malformed);
    }
    let (front, rest) = bytes.split_at(2);
    Ok((u16::from_be_bytes([front[0], front[1]]), rest))
}

/// A number of four bytes, the greatest one first.
pub(crate) fn u32_at(bytes: &[u8]) -> Result<(u32, &[u8]), ReadError>
    ensures { Gives (λ x. (x.0, x.1.now)) result (number_at w32 bytes.now) }
{
    if bytes.len() < 4 {
        return Err(ReadError::Malformed);
    }
    let (front, rest) = bytes.split_at(4);
    let number = u32::from_be_bytes([front[0], front[1], front[2], front[3]]);
    Ok((number, rest))
}

/// A number of eight bytes, the greatest one first.
pub(crate) fn u64_at(bytes: &[u8]) -> Result<(u64, &[u8]), ReadError>
    ensures { Gives (λ x. (x.0, x.1.now)) result (number_at w64 bytes.now) }
{
    if bytes.len() < 8 {
        return Err(ReadError::Malformed);
    }
    let (front, rest) = bytes.split_at(8);
    let number = u64::from_be_bytes([
        front[0], front[1], front[2], front[3], front[4], front[5], front[6], front[7],
    ]);
    Ok((number, rest))
}

/// An integer of 64 bits, in two's complement.
#[tactic(auto, unfolding(crate::specs::Fields::Reading::integer_at))]
pub(crate) fn integer_at(bytes: &[u8]) -> Result<(i64, &[u8]), ReadError>
    ensures { Gives (λ x. (x.0, x.1.now)) result (spec.integer_at bytes.now) }
{
    let (number, rest) = u64_at(bytes)?;
    Ok((number.cast_signed(), rest))
}

/// The bytes as a text, if they are UTF-8.
fn utf8(bytes: &[u8]) -> Option<&str>
    ensures { MatchOption result (is_utf8 bytes.now ≡ false) (λ s. (is_utf8 bytes.now ≡ true) × (s.now ≡ bytes.now)) }
{
    match str::from_utf8(bytes) {
        Ok(text) => Some(text),
        Err(_) => None,
    }
}

/// A length and a text of so many bytes: at most 16,384 bytes of UTF-8.
#[tactic(auto, unfolding(crate::specs::Fields::Reading::text_at))]
pub(crate) fn text_at(alloc: Global, bytes: &[u8]) -> Result<(Text, &[u8]), ReadError>
    ensures exact { Gives (λ x. (x.0, x.1.now)) result (spec.text_at bytes.now) }
    ensures short { IfOk result (λ x. length x.0 ≤ MAX_STRING_BYTES) }
{
    let (len, rest) = u32_at(bytes)?;
    let len = len as usize;
    if len > MAX_STRING_BYTES {
        return Err(ReadError::Malformed);
    }
    if rest.len() < len {
        return Err(ReadError::Malformed);
    }
    let (front, rest) = rest.split_at(len);
    match utf8(front) {
        Some(text) => Ok((Text::of(alloc, text)?, rest)),
        None => Err(ReadError::Malformed),
    }
}

/// So many texts.
fn texts_at(alloc: Global, count: u32, bytes: &[u8]) -> Result<(Words, &[u8]), ReadError>
    ensures { Gives (λ x. (x.0, x.1.now)) result (spec.repeated spec.text_at count bytes.now) }
{
    let mut texts = Words::new(alloc);
    let mut rest = bytes;
    for _ in 0..count {
        let (text, after) = text_at(alloc, rest)?;
        texts.push(text)?;
        rest = after;
    }
    Ok((texts, rest))
}

/// A count and so many texts.
#[tactic(auto, unfolding(crate::specs::Fields::Reading::strings_at))]
pub(crate) fn strings_at(alloc: Global, bytes: &[u8]) -> Result<(Words, &[u8]), ReadError>
    ensures { Gives (λ x. (x.0, x.1.now)) result (spec.strings_at bytes.now) }
{
    let (count, rest) = u32_at(bytes)?;
    texts_at(alloc, count, rest)
}
