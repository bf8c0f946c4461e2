//! The gaps of a template, found among the bytes of its inside.
ghost use Rattle.std.specs.Prelude.{◌≡◌, ◌++◌, OnOk};
ghost use Rattle.bw_diagnose.specs.Gaps as spec;
ghost use Rattle.bw_diagnose.specs.declared.gaps.Part.TheVariants as parts;

use crate::tags::{rest, word_length};
use bw_lang::{Bytes, Memory};
use std::alloc::Global;

/// Where a byte of the inside of a template stands.
#[derive(Clone, Copy)]
pub enum Part {
    Outside,
    /// In a tag, or behind the `<` of a gap.
    Tag,
    /// In a value between two of these quotes.
    Quoted(u8),
}

/// Where the byte behind this one stands.
pub fn part_behind(part: Part, byte: u8) -> Part
    ensures { result ≡ spec.part_behind part byte }
{
    match part {
        Part::Outside => {
            if byte == b'<' {
                Part::Tag
            } else {
                Part::Outside
            }
        }
        Part::Tag => {
            if byte == b'>' {
                Part::Outside
            } else if byte == b'"' || byte == b'\'' {
                Part::Quoted(byte)
            } else {
                Part::Tag
            }
        }
        Part::Quoted(quote) => {
            if byte == quote {
                Part::Tag
            } else {
                Part::Quoted(quote)
            }
        }
    }
}

/// Whether the name of a gap stands behind a byte.
fn opens_gap(part: Part, byte: u8) -> bool
    ensures { result ≡ spec.opens_gap part byte }
{
    match part {
        Part::Tag => byte == b'[',
        Part::Outside | Part::Quoted(_) => false,
    }
}

/// The gap that begins at a byte, if one does. These bytes stand behind it.
fn push_there(
    alloc: Global,
    names: &mut Vec<Bytes>,
    part: Part,
    byte: u8,
    behind: &[u8],
) -> Result<(), Memory>
    ensures { OnOk result (names.new.items ≡ names.old.items ++ spec.gap_there part byte behind.now) }
{
    if opens_gap(part, byte) {
        names.push(Bytes::of(alloc, &behind[..word_length(behind)])?)?;
    }
    Ok(())
}

/// The gaps in the inside of a template, each as often as it stands.
pub fn push_gaps(alloc: Global, names: &mut Vec<Bytes>, inside: &[u8]) -> Result<(), Memory>
    ensures { OnOk result (names.new.items ≡ names.old.items ++ spec.gaps_in parts.Outside inside.now) }
{
    let mut part = Part::Outside;
    for (index, &byte) in inside.iter().enumerate() {
        push_there(alloc, names, part, byte, rest(inside, index + 1))?;
        part = part_behind(part, byte);
    }
    Ok(())
}
