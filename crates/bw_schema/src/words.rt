//! The words that a text says.
ghost use Rattle.std.specs.Prelude.{◌≡◌, ◌<◌, ◌++◌, ◌==◌, map, filter, true, false, IfOk, OnOk, MatchOption};
ghost use Rattle.std.specs.List.{slice_split};
ghost use Rattle.std.specs.Str.Lines.{lines};
ghost use Rattle.bw_schema.specs.Words as spec;

use bw_lang::{Memory, Text, Words, is_blank_text};
use std::alloc::{AllocError, Global};

/// What stands between the marks.
fn parts(alloc: Global, text: &str, mark: char) -> Result<Vec<&str>, AllocError>
    requires { mark < 128 }
    ensures { IfOk result (λ v. map (λ x. x.now) v.items ≡ slice_split (λ b. b == mark) text.now) }
{
    text.split(mark).collect(alloc)
}

/// The lines of a text, each without its LF and a CR before that.
fn lines_of(alloc: Global, text: &str) -> Result<Vec<&str>, AllocError>
    ensures { IfOk result (λ v. map (λ x. x.now) v.items ≡ lines text.now) }
{
    text.lines().collect(alloc)
}

/// Takes in the words between tabs.
#[tactic(auto, using(crate::proofs::Lists::word_steps))]
fn push_words(alloc: Global, part: &str, words: &mut Words) -> Result<(), Memory>
    ensures { OnOk result (words.new ≡ words.old ++ filter spec.has_some (slice_split (λ b. b == 9) part.now)) }
{
    if part.is_empty() {
        return Ok(());
    }
    for word in parts(alloc, part, '\t')?.as_slice() {
        if !word.is_empty() {
            words.push(Text::of(alloc, word)?)?;
        }
    }
    Ok(())
}

/// The words of a line.
#[tactic(auto, using(crate::proofs::Lists::word_steps))]
fn words_of(alloc: Global, line: &str) -> Result<Words, Memory>
    ensures { IfOk result (λ words. words ≡ spec.words_of line.now) }
{
    let mut words = Words::new(alloc);
    for part in parts(alloc, line, ' ')?.as_slice() {
        push_words(alloc, part, &mut words)?;
    }
    Ok(words)
}

/// Whether the first word begins with `#`.
fn is_remark(words: &Words) -> bool
    ensures { result ≡ spec.is_remark words.now }
{
    match words.as_slice() {
        [] => false,
        [first, ..] => first.as_str().starts_with('#'),
    }
}

/// The words of a line, unless it is skipped.
fn unskipped(alloc: Global, line: &str) -> Result<Option<Words>, Memory>
    ensures { IfOk result (λ o. MatchOption o (spec.is_skipped line.now ≡ true)
        (λ words. (spec.is_skipped line.now ≡ false) × (words ≡ spec.words_of line.now))) }
{
    if is_blank_text(line) {
        return Ok(None);
    }
    let words = words_of(alloc, line)?;
    if is_remark(&words) {
        Ok(None)
    } else {
        Ok(Some(words))
    }
}

/// The words of each line that isn't skipped.
#[tactic(auto, using(crate::proofs::Lists::word_steps))]
pub fn said(alloc: Global, text: &str) -> Result<Vec<Words>, Memory>
    ensures { IfOk result (λ v. v.items ≡ spec.said text.now) }
{
    let mut said = Vec::new(alloc);
    for line in lines_of(alloc, text)?.as_slice() {
        match unskipped(alloc, line)? {
            Some(words) => said.push(words)?,
            None => {}
        }
    }
    Ok(said)
}
