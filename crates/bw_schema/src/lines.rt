//! The lines of a schema's text are read.
ghost use Rattle.std.specs.Prelude.{◌≡◌};
ghost use Rattle.bw_schema.specs.Forms as forms;
ghost use Rattle.bw_schema.specs.Steps.Reading as spec;

use crate::fault::SchemaFault;
use crate::formulas::{copied, formula_of};
use crate::names::{are_names, is_name, is_number};
use crate::needs::Formula;
use bw_lang::pieces::NameClass;
use bw_lang::{Name, Text, Words, decimal_value};
use std::alloc::Global;

/// A line of a schema's text behind its first two.
#[derive(Drop)]
pub enum Line {
    /// `element TAG` begins the rule of an element.
    Element(Name),
    /// `may A B ..`: these attributes are allowed.
    May(Words),
    /// `must A B ..`: these attributes are allowed and required.
    Must(Words),
    /// `value A V W ..`: the attribute has one of these values.
    Value(Name, Words),
    /// `has T U ..`: these child elements are allowed.
    Has(Words),
    /// `text`: text that isn't blank is allowed.
    Text,
    /// `need FORMULA`: the formula holds. Only in version 2.
    Need(Formula),
}

/// The one word, a tag.
fn tag_of(alloc: Global, words: &[Text]) -> Result<Name, SchemaFault>
    ensures { spec.Gives (λ tag. tag) result (spec.tag_of words.now) }
{
    match words {
        [word] if is_name(NameClass::Tag, word) => Ok(Name::of(alloc, word.as_str())?),
        _ => Err(SchemaFault::Malformed),
    }
}

/// Names of the class, one at least.
fn names_of(alloc: Global, class: NameClass, words: &[Text]) -> Result<Words, SchemaFault>
    ensures { spec.Gives (λ names. names) result (spec.names_of class words.now) }
{
    if !are_names(class, words) {
        return Err(SchemaFault::Malformed);
    }
    Ok(copied(alloc, words)?)
}

/// An attribute and its values.
fn value_line(alloc: Global, words: &[Text]) -> Result<Line, SchemaFault>
    ensures { spec.Gives (λ line. line) result (spec.value_line words.now) }
{
    match words {
        [name, values @ ..] if is_name(NameClass::Attr, name) && !values.is_empty() => {
            Ok(Line::Value(Name::of(alloc, name.as_str())?, copied(alloc, values)?))
        }
        _ => Err(SchemaFault::Malformed),
    }
}

/// A line of names.
#[tactic(auto, unfolding(crate::specs::Steps::Reading::names_line))]
fn names_line(alloc: Global, key: &str, words: &[Text]) -> Result<Line, SchemaFault>
    ensures { spec.Gives (λ line. line) result (spec.names_line key.now words.now) }
{
    if key == "may" {
        return Ok(Line::May(names_of(alloc, NameClass::Attr, words)?));
    }
    if key == "must" {
        return Ok(Line::Must(names_of(alloc, NameClass::Attr, words)?));
    }
    if key == "has" {
        return Ok(Line::Has(names_of(alloc, NameClass::Tag, words)?));
    }
    Err(SchemaFault::Malformed)
}

/// A line that says that text is allowed, or what is needed.
#[tactic(auto, unfolding(crate::specs::Steps::Reading::rare_line))]
fn rare_line(alloc: Global, version: u64, key: &str, words: &[Text]) -> Result<Line, SchemaFault>
    ensures { spec.Gives (λ line. line) result (spec.rare_line version key.now words.now) }
{
    if key == "text" && words.is_empty() {
        return Ok(Line::Text);
    }
    if key == "need" && version == 2 {
        return Ok(Line::Need(formula_of(alloc, words)?));
    }
    Err(SchemaFault::Malformed)
}

/// The line that begins with this word and has these behind it.
#[tactic(auto, unfolding(crate::specs::Steps::Reading::line_with))]
fn line_with(alloc: Global, version: u64, key: &str, words: &[Text]) -> Result<Line, SchemaFault>
    ensures { spec.Gives (λ line. line) result (spec.line_with version key.now words.now) }
{
    if key == "element" {
        return Ok(Line::Element(tag_of(alloc, words)?));
    }
    if key == "value" {
        return value_line(alloc, words);
    }
    if key == "text" || key == "need" {
        return rare_line(alloc, version, key, words);
    }
    names_line(alloc, key, words)
}

/// The line that the words write, in a schema of this version.
fn line_of(alloc: Global, version: u64, words: &[Text]) -> Result<Line, SchemaFault>
    ensures { spec.Gives (λ line. line) result (spec.line_of version words.now) }
{
    match words {
        [key, rest @ ..] => line_with(alloc, version, key.as_str(), rest),
        [] => Err(SchemaFault::Malformed),
    }
}

/// The lines that these words write, one line after the other.
fn lines_of(alloc: Global, version: u64, said: &[Words]) -> Result<Vec<Line>, SchemaFault>
    ensures { spec.Gives (λ v. v.items) result (spec.lines_of version said.now) }
{
    let mut lines = Vec::new(alloc);
    for words in said {
        lines.push(line_of(alloc, version, words.as_slice())?)?;
    }
    Ok(lines)
}

/// Whether no line of a rule stands before the first element.
fn is_headed(lines: &[Line]) -> bool
    ensures { result ≡ forms.is_headed lines.now }
{
    matches!(lines, [] | [Line::Element(_), ..])
}

/// The number of the first line.
pub fn version_of(words: &[Text]) -> Option<u64>
    ensures { spec.Found (λ n. n) result (spec.version_of words.now) }
{
    match words {
        [key, word] if key.as_str() == "schema" && is_number(word) => {
            Some(decimal_value(word.as_bytes()))
        }
        _ => None,
    }
}

/// The tag of the second line.
fn root_of(alloc: Global, words: &[Text]) -> Result<Name, SchemaFault>
    ensures { spec.Gives (λ tag. tag) result (spec.root_of words.now) }
{
    match words {
        [key, rest @ ..] if key.as_str() == "root" => tag_of(alloc, rest),
        _ => Err(SchemaFault::Malformed),
    }
}

/// The root and the lines behind the first line, in a schema of this version.
pub fn text_of(
    alloc: Global,
    version: u64,
    said: &[Words],
) -> Result<(Name, Vec<Line>), SchemaFault>
    ensures { spec.Gives (λ x. (x.0, x.1.items)) result (spec.text_of version said.now) }
{
    let [words, rest @ ..] = said else {
        return Err(SchemaFault::Malformed);
    };
    let root = root_of(alloc, words.as_slice())?;
    let lines = lines_of(alloc, version, rest)?;
    if is_headed(lines.as_slice()) {
        Ok((root, lines))
    } else {
        Err(SchemaFault::Malformed)
    }
}
