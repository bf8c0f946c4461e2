//! Names and numbers.
ghost use Rattle.std.specs.Prelude.{◌≡◌, ◌≤◌, ◌^◌, ◌<◌, length, true};
ghost use Rattle.std.specs.List.{list_all};
ghost use Rattle.bw_lang.specs.Template.MarkupNames.{first_of, later_of};
ghost use Rattle.bw_schema.specs.Forms as spec;

use bw_lang::pieces::NameClass;
use bw_lang::{Text, are_digits};

/// Whether a name of the class may begin with the byte.
fn is_first(class: NameClass, byte: u8) -> bool
    ensures { result ≡ first_of class byte }
{
    match class {
        NameClass::Tag | NameClass::Attr => byte.is_ascii_lowercase(),
        NameClass::Word => byte.is_ascii_alphabetic() || byte == b'_',
    }
}

/// Whether the byte may stand in a name of the class, behind the first.
fn is_later(class: NameClass, byte: u8) -> bool
    ensures { result ≡ later_of class byte }
{
    match class {
        NameClass::Tag => byte.is_ascii_lowercase() || byte.is_ascii_digit(),
        NameClass::Attr => byte.is_ascii_lowercase() || byte.is_ascii_digit() || byte == b'-',
        NameClass::Word => byte.is_ascii_alphanumeric() || byte == b'_',
    }
}

/// Whether each byte may stand in a name of the class.
fn are_later(class: NameClass, bytes: &[u8]) -> bool
    ensures { result ≡ list_all (later_of class) bytes.now }
{
    bytes.iter().all(|byte| is_later(class, *byte))
}

/// Whether a word is a name of the class.
pub fn is_name(class: NameClass, word: &Text) -> bool
    ensures { result ≡ spec.is_name class word.now }
{
    match word.as_bytes() {
        [] => false,
        [first, ..] => is_first(class, *first) && are_later(class, word.as_bytes()),
    }
}

/// Whether the words are names of the class.
fn all_names(class: NameClass, words: &[Text]) -> bool
    ensures { result ≡ list_all (spec.is_name class) words.now }
{
    words.iter().all(|word| is_name(class, word))
}

/// Whether the words are names of the class, and there is one at least.
pub fn are_names(class: NameClass, words: &[Text]) -> bool
    ensures { result ≡ spec.are_names class words.now }
{
    !words.is_empty() && all_names(class, words)
}

/// Whether a word is a number of one to nine digits.
pub fn is_number(word: &Text) -> bool
    ensures { result ≡ spec.is_number word.now }
{
    let word = word.as_bytes();
    !word.is_empty() && word.len() <= 9 && are_digits(word)
}
