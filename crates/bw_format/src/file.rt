//! Reading a file of formats.
ghost use Rattle.std.specs.Prelude.{◌≡◌, ◌⊎◌, ◌+◌, ◌<◌, ◌^◌, ◌∷◌, ℕ, List, IfOk, IfErr, OnOk, Ok, Err};
ghost use Rattle.std.specs.declared.result.Result.{Result};
ghost use Rattle.bw_format.specs.declared.file.FormatFault.{FormatFault};
ghost use Rattle.bw_format.specs.declared.file.FormatFault.TheVariants as fault;
ghost use Rattle.bw_format.specs.declared.format.Format.{Format};
ghost use Rattle.bw_format.specs.FormatFile as spec;
ghost use Rattle.bw_format.specs.Adding.{Continues, Ends};

use crate::format::Formats;
use crate::limits::{MAX_FORMATS, MAX_FORMATS_BYTES};
use crate::line::{Line, line_of};
use bw_lang::Memory;
use std::alloc::Global;

/// Why a file of formats isn't read.
#[derive(Clone, Copy, PartialEq, Eq)]
pub enum FormatFault {
    /// It has more than 65,536 bytes.
    TooLong,
    /// The line of this number isn't UTF-8 or no format, or the 129th.
    Malformed(u32),
    /// The line of this number has a field that has a format already.
    Repeated(u32),
    /// There was no memory.
    Memory,
}

impl From<Memory> for FormatFault {
    ghost use Rattle.bw_format.specs.declared.file.FormatFault.TheVariants as fault;

    ghost from_gives = { λ _ e. e ≡ fault.Memory };

    fn from(_error: Memory) -> FormatFault {
        FormatFault::Memory
    }
}

/// Takes in what is on the line of this number.
fn add(formats: &mut Formats, alloc: Global, number: u32, bytes: &[u8]) -> Result<(), FormatFault>
    ensures ok { OnOk result (Continues number formats.old bytes.now formats.new) }
    ensures fault { IfErr result (λ e. (e ≡ fault.Memory) ⊎ Ends number formats.old bytes.now e) }
{
    match line_of(alloc, bytes)? {
        Line::Skipped => Ok(()),
        Line::Malformed => Err(FormatFault::Malformed(number)),
        Line::Format(format) => {
            if formats.len() >= MAX_FORMATS {
                return Err(FormatFault::Malformed(number));
            }
            if formats.has(format.field.as_str()) {
                return Err(FormatFault::Repeated(number));
            }
            formats.push(alloc, format)?;
            Ok(())
        }
    }
}

/// The line without a CR at its end.
fn without_cr(line: &[u8]) -> &[u8]
    ensures { result.now ≡ spec.without_cr line.now }
{
    let n = line.len();
    if n > 0 && line[n - 1] == b'\r' {
        &line[..n - 1]
    } else {
        line
    }
}

/// The formats of a file. After `TooLong` the first line in order that has a fault is answered.
pub fn read_formats(alloc: Global, bytes: &[u8]) -> Result<Formats, FormatFault>
    ensures ok { IfOk result (λ f. spec.Gives bytes.now (Ok f)) }
    ensures fault { IfErr result (λ e. (e ≡ fault.Memory) ⊎ spec.Gives bytes.now (Err e)) }
{
    if bytes.len() > MAX_FORMATS_BYTES {
        return Err(FormatFault::TooLong);
    }
    let mut formats = Formats::none();
    let mut number: u32 = 1;
    let mut start = 0;
    for (i, b) in bytes.iter().enumerate() {
        if *b == b'\n' {
            add(&mut formats, alloc, number, without_cr(&bytes[start..i]))?;
            start = i + 1;
            number += 1;
        }
    }
    add(&mut formats, alloc, number, &bytes[start..])?;
    Ok(formats)
}
