//! The lines of a file of formats.
ghost use Rattle.std.specs.Prelude.{◌≡◌, ◌≤◌, ◌↔◌, chars, length, IsTrue, IfOk, MatchOption};
ghost use Rattle.std.specs.Option.{IfSome};
ghost use Rattle.bw_format.specs.FormatFile as spec;
ghost use Rattle.bw_format.specs.declared.format.Format.{Format};
ghost use Rattle.bw_format.specs.Lively.{IsUsable};
ghost use Rattle.bw_format.specs.Lines.{IsUsableLine};

use crate::format::Format;
use crate::limits::MAX_PATTERN_CHARS;
use crate::reader::read_pattern;
use bw_lang::{Memory, Text};
use std::alloc::Global;

/// What is on a line.
#[derive(Drop)]
pub enum Line {
    Skipped,
    Format(Format),
    Malformed,
}

/// How many characters the text has.
fn char_count(text: &str) -> usize
    ensures { result ≡ length (chars text.now) }
{
    text.chars().count()
}

/// The format of these parts of a line, if they are ones.
fn format_of(alloc: Global, field: &str, rest: &str) -> Result<Option<Format>, Memory>
    ensures parts { IfOk result (λ o. MatchOption o ((f : Format) → spec.AreParts field.now rest.now f → ⊥) (λ f. spec.AreParts field.now rest.now f)) }
    ensures usable { IfOk result (λ o. IfSome o (λ f. IsUsable f.pattern)) }
{
    if field.is_empty() || char_count(rest) > MAX_PATTERN_CHARS {
        return Ok(None);
    }
    match read_pattern(alloc, rest)? {
        None => Ok(None),
        Some(pattern) => {
            let field = Text::of(alloc, field)?;
            Ok(Some(Format { field, pattern }))
        }
    }
}

/// What is on a line that isn't skipped.
fn written_line(alloc: Global, text: &str) -> Result<Line, Memory>
    requires { spec.IsSkipped text.now → ⊥ }
    ensures line { IfOk result (spec.IsLine text.now) }
    ensures usable { IfOk result IsUsableLine }
{
    match text.split_once(' ') {
        None => Ok(Line::Malformed),
        Some(parts) => match format_of(alloc, parts.0, parts.1)? {
            None => Ok(Line::Malformed),
            Some(format) => Ok(Line::Format(format)),
        },
    }
}

fn is_skipped(line: &[u8]) -> bool
    ensures { IsTrue result ↔ spec.IsSkipped line.now }
{
    match line.first() {
        None => true,
        Some(first) => *first == b'#',
    }
}

/// What is on a line.
pub fn line_of(alloc: Global, bytes: &[u8]) -> Result<Line, Memory>
    ensures line { IfOk result (spec.IsLine bytes.now) }
    ensures usable { IfOk result IsUsableLine }
{
    if is_skipped(bytes) {
        return Ok(Line::Skipped);
    }
    match str::from_utf8(bytes) {
        Err(_) => Ok(Line::Malformed),
        Ok(text) => written_line(alloc, text),
    }
}
