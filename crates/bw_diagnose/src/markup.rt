//! Where the inside of a template stops being markup.
ghost use Rattle.std.specs.Prelude.{◌≡◌, []};
ghost use Rattle.bw_lang.specs.Template.MarkupNames.{first_of, later_of, begins};
ghost use Rattle.bw_lang.specs.declared.pieces.NameClass.TheVariants as class;
ghost use Rattle.bw_diagnose.specs.Markup as spec;
ghost use Rattle.bw_diagnose.specs.declared.markup.Stage.TheVariants as stages;

use crate::tags::rest;
use bw_hints::Expected;
use bw_lang::is_blank;

/// What stands in front of a byte of the inside of a template.
#[derive(Clone, Copy)]
pub enum Stage {
    /// Nothing yet, text, a gap or a tag.
    Text,
    /// `<`.
    Less,
    /// `<[`.
    Gap,
    /// `<[` and letters of a name.
    GapName,
    /// `<[name]`.
    GapEnd,
    /// `</`.
    EndTag,
    /// `</` and letters of a name.
    EndName,
    /// `</name` and blanks.
    EndBlank,
    /// `<` and letters of a name.
    TagName,
    /// A tag's name, perhaps attributes, and blanks.
    TagBlank,
    /// Letters of an attribute's name.
    AttrName,
    /// An attribute's name and `=`.
    Equals,
    /// A value behind this quote.
    Value(u8),
    /// An attribute's name, `=` and `[`.
    Hole,
    /// The same and letters of a gap's name.
    HoleName,
    /// A value and its quote, or a gap in its place.
    ValueEnd,
    /// A tag up to `/`.
    Slash,
}

/// Whether a reference stands behind `&`.
fn is_reference(behind: &[u8]) -> bool
    ensures { result ≡ spec.is_reference behind.now }
{
    behind.starts_with(b"amp;")
        || (behind.starts_with(b"lt;")
            || (behind.starts_with(b"gt;") || behind.starts_with(b"quot;")))
}

/// Whether a tag or a gap stands behind `<`.
fn is_opened(behind: &[u8]) -> bool
    ensures { result ≡ begins spec.opens behind.now }
{
    match behind {
        [] => false,
        [first, ..] => *first == b'[' || (*first == b'/' || first.is_ascii_lowercase()),
    }
}

/// Whether a byte may begin the name of a gap.
fn is_word_first(byte: u8) -> bool
    ensures { result ≡ first_of class.Word byte }
{
    byte.is_ascii_alphabetic() || byte == b'_'
}

/// Whether a byte may stand in the name of a gap, behind the first.
fn is_word_later(byte: u8) -> bool
    ensures { result ≡ later_of class.Word byte }
{
    byte.is_ascii_alphanumeric() || byte == b'_'
}

/// The same of the name of an element.
fn is_tag_later(byte: u8) -> bool
    ensures { result ≡ later_of class.Tag byte }
{
    byte.is_ascii_lowercase() || byte.is_ascii_digit()
}

/// The same of the name of an attribute.
pub fn is_attr_later(byte: u8) -> bool
    ensures { result ≡ later_of class.Attr byte }
{
    byte.is_ascii_lowercase() || byte.is_ascii_digit() || byte == b'-'
}

/// This stage, where it is so.
fn only(so: bool, next: Stage) -> Option<Stage>
    ensures { result ≡ spec.only so next }
{
    if so { Some(next) } else { None }
}

/// This stage, where it is so, and else that one.
fn either(so: bool, next: Stage, other: Option<Stage>) -> Option<Stage>
    ensures { result ≡ spec.either so next other }
{
    if so { Some(next) } else { other }
}

/// Behind a name in an end tag.
fn end_goes_on(byte: u8) -> Option<Stage>
    ensures { result ≡ spec.end_goes_on byte }
{
    either(
        is_blank(byte),
        Stage::EndBlank,
        only(byte == b'>', Stage::Text),
    )
}

/// Behind a name or a value in another tag.
fn tag_goes_on(byte: u8) -> Option<Stage>
    ensures { result ≡ spec.tag_goes_on byte }
{
    let end = either(byte == b'>', Stage::Text, only(byte == b'/', Stage::Slash));
    either(is_blank(byte), Stage::TagBlank, end)
}

/// Behind a byte of a text.
fn text_goes_on(byte: u8, behind: &[u8]) -> Option<Stage>
    ensures { result ≡ spec.stage_behind stages.Text byte behind.now }
{
    if byte == b'&' {
        only(is_reference(behind), Stage::Text)
    } else if byte == b'<' {
        only(is_opened(behind), Stage::Less)
    } else {
        Some(Stage::Text)
    }
}

/// Behind a byte of a value in quotes.
fn value_goes_on(quote: u8, byte: u8, behind: &[u8]) -> Option<Stage>
    ensures { result ≡ spec.stage_behind (stages.Value quote) byte behind.now }
{
    if byte == quote {
        Some(Stage::ValueEnd)
    } else if byte == b'&' {
        only(is_reference(behind), Stage::Value(quote))
    } else if byte == b'<' {
        None
    } else {
        Some(Stage::Value(quote))
    }
}

/// Behind a byte that stands behind `<`.
fn less_goes_on(byte: u8) -> Option<Stage>
    ensures { result ≡ spec.stage_behind stages.Less byte [] }
{
    let tag = only(byte.is_ascii_lowercase(), Stage::TagName);
    either(
        byte == b'[',
        Stage::Gap,
        either(byte == b'/', Stage::EndTag, tag),
    )
}

/// Behind a byte that stands behind `=` in a tag.
fn equals_goes_on(byte: u8) -> Option<Stage>
    ensures { result ≡ spec.stage_behind stages.Equals byte [] }
{
    either(
        byte == b'"' || byte == b'\'',
        Stage::Value(byte),
        only(byte == b'[', Stage::Hole),
    )
}

/// The stage behind a byte, behind which these bytes stand; there is none where the byte can't stand there.
fn stage_behind(stage: Stage, byte: u8, behind: &[u8]) -> Option<Stage>
    ensures { result ≡ spec.stage_behind stage byte behind.now }
{
    match stage {
        Stage::Text => text_goes_on(byte, behind),
        Stage::Less => less_goes_on(byte),
        Stage::Gap => only(is_word_first(byte), Stage::GapName),
        Stage::GapName => either(
            is_word_later(byte),
            Stage::GapName,
            only(byte == b']', Stage::GapEnd),
        ),
        Stage::EndTag => only(byte.is_ascii_lowercase(), Stage::EndName),
        Stage::EndName => either(is_tag_later(byte), Stage::EndName, end_goes_on(byte)),
        Stage::EndBlank => end_goes_on(byte),
        Stage::TagName => either(is_tag_later(byte), Stage::TagName, tag_goes_on(byte)),
        Stage::TagBlank => either(
            byte.is_ascii_lowercase(),
            Stage::AttrName,
            tag_goes_on(byte),
        ),
        Stage::AttrName => either(
            is_attr_later(byte),
            Stage::AttrName,
            only(byte == b'=', Stage::Equals),
        ),
        Stage::Equals => equals_goes_on(byte),
        Stage::Value(quote) => value_goes_on(quote, byte, behind),
        Stage::Hole => only(is_word_first(byte), Stage::HoleName),
        Stage::HoleName => either(
            is_word_later(byte),
            Stage::HoleName,
            only(byte == b']', Stage::ValueEnd),
        ),
        Stage::ValueEnd => tag_goes_on(byte),
        Stage::GapEnd | Stage::Slash => only(byte == b'>', Stage::Text),
    }
}

/// Whether a template may end there.
fn may_end(stage: Stage) -> bool
    ensures { result ≡ spec.may_end stage }
{
    matches!(stage, Stage::Text)
}

/// A place of the inside of a template where no piece goes on, and what stands in front of it.
#[derive(Clone, Copy)]
pub struct Stuck {
    pub at: usize,
    pub stage: Stage,
}

/// The first byte of the inside of a template that can't stand where it stands, or its end where it can't end there. There
/// is none where all of it is pieces.
#[tactic(auto, using(crate::proofs::Walked::stuck_step))]
pub fn stuck_in(inside: &[u8]) -> Option<Stuck>
    ensures { result ≡ spec.stuck_in inside.now }
{
    let mut stage = Stage::Text;
    for (at, &byte) in inside.iter().enumerate() {
        match stage_behind(stage, byte, rest(inside, at + 1)) {
            Some(next) => stage = next,
            None => return Some(Stuck { at, stage }),
        }
    }
    if may_end(stage) {
        return None;
    }
    Some(Stuck {
        at: inside.len(),
        stage,
    })
}

/// What is expected behind a stage.
pub fn expected_behind(stage: Stage) -> Expected
    ensures { result ≡ spec.expected_behind stage }
{
    match stage {
        Stage::Text | Stage::Less => Expected::Text,
        Stage::Gap | Stage::GapName | Stage::GapEnd | Stage::Hole | Stage::HoleName => {
            Expected::Gap
        }
        Stage::EndTag | Stage::EndName | Stage::EndBlank => Expected::EndTag,
        Stage::TagName | Stage::TagBlank | Stage::ValueEnd | Stage::Slash => Expected::Tag,
        Stage::AttrName => Expected::Attribute,
        Stage::Equals => Expected::Value,
        Stage::Value(_) => Expected::Quoted,
    }
}
