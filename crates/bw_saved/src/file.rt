//! Files of saved sessions.
ghost use Rattle.std.specs.Prelude.{◌≡◌, MatchOption, Some, None};
ghost use Rattle.bw_saved.specs.Fields.Reading.{Gives};
ghost use Rattle.bw_saved.specs.Files as spec;
ghost use Rattle.bw_saved.specs.Sessions.Reading as reading;

use crate::fault::ReadError;
use crate::fields::u32_at;
use crate::limits::{MAX_SAVED_BYTES, VERSION};
use crate::saved::Saved;
use crate::sessions::waiting_at;
use bw_flow::Flow;
use bw_types::Typed;
use std::alloc::Global;

/// Why a file isn't read. What it begins with decides first, in this order, and behind all others whether what follows is what a
/// file of the version has. `Memory` may come at any place.
#[derive(Drop)]
pub enum FileFault {
    /// It has more than 69,206,016 bytes.
    TooLong,
    /// It doesn't begin with `BWSAVE`, a digit from 1 on and LF; or, behind them, it isn't what a file of the version has.
    Malformed,
    /// The layout is of this version, which is another one than 1.
    Version(u8),
    /// The text of the service in it is another one.
    OtherService,
    /// There was no memory.
    Memory,
}

/// What stands behind these bytes, if they are in front.
fn behind<'a>(prefix: &[u8], bytes: &'a [u8]) -> Option<&'a [u8]>
    ensures { MatchOption result (spec.behind prefix.now bytes.now ≡ None) (λ rest. spec.behind prefix.now bytes.now ≡ Some rest.now) }
{
    let Some((due, prefix)) = prefix.split_first() else {
        return Some(bytes);
    };
    let (first, rest) = bytes.split_first()?;
    if *first == *due {
        behind(prefix, rest)
    } else {
        None
    }
}

/// A digit from 1 on, and LF.
fn digit_at(bytes: &[u8]) -> Result<(u8, &[u8]), ReadError>
    ensures { Gives (λ x. (x.0, x.1.now)) result (spec.digit_at bytes.now) }
{
    match bytes {
        [] => Err(ReadError::Malformed),
        [_] => Err(ReadError::Malformed),
        [digit, end, rest @ ..] => {
            let digit = *digit;
            if 48 < digit && digit < 58 && *end == 10 {
                Ok((digit - 48, rest))
            } else {
                Err(ReadError::Malformed)
            }
        }
    }
}

/// The version of the layout.
fn version_at(bytes: &[u8]) -> Result<(u8, &[u8]), ReadError>
    ensures { Gives (λ x. (x.0, x.1.now)) result (spec.version_at bytes.now) }
{
    match behind(b"BWSAVE", bytes) {
        Some(rest) => digit_at(rest),
        None => Err(ReadError::Malformed),
    }
}

/// A length and so many bytes.
fn bytes_at(bytes: &[u8]) -> Result<(&[u8], &[u8]), ReadError>
    ensures { Gives (λ x. (x.0.now, x.1.now)) result (spec.bytes_at bytes.now) }
{
    let (len, rest) = u32_at(bytes)?;
    let len = len as usize;
    if rest.len() < len {
        return Err(ReadError::Malformed);
    }
    Ok(rest.split_at(len))
}

/// All that waits, with nothing behind it.
fn all_at(alloc: Global, typed: &Typed, flow: &Flow, bytes: &[u8]) -> Result<Saved, ReadError>
    ensures { Gives (λ s. s) result (reading.ended (reading.waiting_at typed.now.service flow.now bytes.now)) }
{
    let (saved, rest) = waiting_at(alloc, typed, flow, bytes)?;
    if rest.is_empty() {
        Ok(saved)
    } else {
        Err(ReadError::Malformed)
    }
}

/// What a file holds, for a service of that text; or its first refusal. A file of other bytes holds something else.
pub fn read_file(
    alloc: Global,
    typed: &Typed,
    flow: &Flow,
    text: &[u8],
    bytes: &[u8],
) -> Result<Saved, FileFault>
    ensures { spec.IsDecided result (spec.decided typed.now.service flow.now text.now bytes.now) }
{
    if bytes.len() > MAX_SAVED_BYTES {
        return Err(FileFault::TooLong);
    }
    let (version, rest) = match version_at(bytes) {
        Ok(found) => found,
        Err(ReadError::Malformed) => return Err(FileFault::Malformed),
        Err(ReadError::Memory) => return Err(FileFault::Memory),
    };
    if version != VERSION {
        return Err(FileFault::Version(version));
    }
    let (front, rest) = match bytes_at(rest) {
        Ok(found) => found,
        Err(ReadError::Malformed) => return Err(FileFault::Malformed),
        Err(ReadError::Memory) => return Err(FileFault::Memory),
    };
    if front != text {
        return Err(FileFault::OtherService);
    }
    match all_at(alloc, typed, flow, rest) {
        Ok(saved) => Ok(saved),
        Err(ReadError::Malformed) => Err(FileFault::Malformed),
        Err(ReadError::Memory) => Err(FileFault::Memory),
    }
}
