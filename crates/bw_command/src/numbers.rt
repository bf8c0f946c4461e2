//! The numbers of options.
ghost use Rattle.std.specs.Prelude.{◌≡◌, ℕ, ◌≤◌, IfSome, length, true};
ghost use Rattle.bw_command.specs.Numbers as spec;
ghost use Rattle.bw_command.specs.Words.{text_of};

use bw_lang::{are_digits, decimal_value};

/// Whether the text is a decimal number without a sign or a leading zero, of at most 18 digits.
fn is_number(text: &[u8]) -> bool
    ensures { result ≡ spec.is_number text.now }
{
    !text.is_empty() && text.len() <= 18 && are_digits(text) && (text[0] != b'0' || text.len() == 1)
}

/// The number that a text is, from `least` to `most`.
pub fn number_in(least: u32, most: u32, text: &str) -> Option<u32>
    ensures is { result ≡ spec.number_in least most text.now }
    ensures bound { IfSome result (λ n. (least ≤ n) × (n ≤ most)) }
{
    let bytes = text.as_bytes();
    if !is_number(bytes) {
        return None;
    }
    let n = decimal_value(bytes);
    if u64::from(least) <= n && n <= u64::from(most) {
        Some(n as u32)
    } else {
        None
    }
}

/// The number of an option, and `other` where the option isn't there.
pub fn number_or(least: u32, most: u32, other: u32, text: Option<&str>) -> Option<u32>
    ensures is { result ≡ spec.number_or least most other (text_of text.entry) }
    ensures bound { (least ≤ other) × (other ≤ most) → IfSome result (λ n. (least ≤ n) × (n ≤ most)) }
{
    match text {
        None => Some(other),
        Some(text) => number_in(least, most, text),
    }
}

/// The number of an option that may be left out, and none where it isn't there.
pub fn number_if(least: u32, most: u32, text: Option<&str>) -> Option<Option<u32>>
    ensures { result ≡ spec.number_if least most (text_of text.entry) }
{
    match text {
        None => Some(None),
        Some(text) => match number_in(least, most, text) {
            Some(number) => Some(Some(number)),
            None => None,
        },
    }
}
