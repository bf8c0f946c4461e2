//! Scripts.
ghost use Rattle.std.specs.Prelude.{◌≡◌, IsTrue, MatchOption};
ghost use Rattle.bw_http.specs.Paths.{IsCutAt, IsForm, HasNo};
ghost use Rattle.bw_http.specs.declared.request.Path.TheVariants.{Start};
ghost use Rattle.bw_visit.specs.Scripts.{AreLines, HasLines, HasNoLines, IsScript, IsNoScript};

use crate::limits::MAX_SCRIPT_BYTES;
use bw_http::is_word;
use bw_lang::limits::MAX_NAME_BYTES;
use std::str;

/// A script: the name of the session that is visited, and the lines behind it, each with its end.
#[derive(Clone, Copy)]
pub struct Script<'a> {
    pub name: &'a str,
    pub lines: &'a str,
}

/// The script that the bytes are, or none exactly where they are none. It takes no memory.
pub fn read_script(bytes: &[u8]) -> Option<Script<'_>>
    ensures { MatchOption result (IsNoScript bytes.now) (λ s. IsScript bytes.now s.name.now s.lines.now) }
{
    if bytes.len() > MAX_SCRIPT_BYTES {
        return None;
    }
    match str::from_utf8(bytes) {
        Ok(text) => script_of(text),
        Err(_) => None,
    }
}

/// The script of a text.
fn script_of(text: &str) -> Option<Script<'_>>
    ensures { MatchOption result (HasNoLines text.now) (λ s. HasLines text.now s.name.now s.lines.now) }
{
    let (name, lines) = first_line(text)?;
    if is_name(name) && are_lines(lines) {
        Some(Script { name, lines })
    } else {
        None
    }
}

/// Whether each line is ended, the last one too.
fn are_lines(text: &str) -> bool
    ensures yes { IsTrue result → AreLines text.now }
    ensures none { AreLines text.now → IsTrue result }
{
    text.is_empty() || text.ends_with('\n')
}

/// The first line of a text without its end, and what follows it.
pub(crate) fn first_line(text: &str) -> Option<(&str, &str)>
    ensures { MatchOption result (HasNo 10 text.now) (λ parts. IsCutAt 10 text.now parts.0.now parts.1.now) }
{
    text.split_once('\n')
}

/// Whether it may be the name of a session.
fn is_name(text: &str) -> bool
    ensures yes { IsTrue result → IsForm (Start text.now) }
    ensures none { IsForm (Start text.now) → IsTrue result }
{
    text.len() <= MAX_NAME_BYTES as usize && is_word(text.as_bytes())
}
