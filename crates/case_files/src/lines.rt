//! What a case says in its lines, and lines in a row.

use crate::fault::Fault;
use crate::tables::Case;
use crate::texts::Texts;
use std::alloc::{AllocError, Global};

impl<'a> Case<'a> {
    /// What follows the word in the first line that begins with it.
    pub fn value_of(&self, word: &str) -> Option<&'a str> {
        for line in &self.lines {
            if line.key == word {
                return Some(line.value);
            }
        }
        None
    }

    /// The text whose parts follow the word in the first line that begins with it.
    pub fn text_of(&self, alloc: Global, texts: &Texts<'_>, word: &str) -> Result<Vec<u8>, Fault> {
        let parts = self.value_of(word).ok_or(Fault::Malformed)?;
        texts.join(alloc, parts)
    }

    /// The lines that the case wants, which begin with none of the given words, parted by `; `.
    pub fn wanted(&self, alloc: Global, given: &[&str]) -> Result<String, AllocError> {
        let mut wanted = String::new(alloc);
        for line in &self.lines {
            if !is_among(given, line.key) {
                put_line(&mut wanted, line.text)?;
            }
        }
        Ok(wanted)
    }
}

/// Whether a word is one of these.
fn is_among(words: &[&str], word: &str) -> bool {
    for other in words {
        if *other == word {
            return true;
        }
    }
    false
}

/// Begins a line, which `; ` parts from those in front of it.
pub fn begin_line(lines: &mut String) -> Result<(), AllocError> {
    if !lines.is_empty() {
        lines.push_str("; ")?;
    }
    Ok(())
}

/// Puts a line behind others.
pub fn put_line(lines: &mut String, line: &str) -> Result<(), AllocError> {
    begin_line(lines)?;
    lines.push_str(line)
}
