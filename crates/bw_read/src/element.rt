//! The element of a page, without what may stand around it.
ghost use Rattle.std.specs.Prelude.{◌≡◌};
ghost use Rattle.bw_tmpl.specs.Steps.Reading as reading;
ghost use Rattle.bw_read.specs.Element as spec;

use bw_lang::is_blank;

/// The bytes behind blanks.
fn past_blanks(bytes: &[u8]) -> &[u8]
    ensures { result.now ≡ reading.past_blanks bytes.now }
{
    let mut n = 0;
    for b in bytes {
        if !is_blank(*b) {
            break;
        }
        n += 1;
    }
    &bytes[n..]
}

/// The bytes behind the document type and the blanks that follow it, where one stands at the front.
fn past_doctype(bytes: &[u8]) -> &[u8]
    ensures { result.now ≡ spec.past_doctype bytes.now }
{
    match bytes.strip_prefix(b"<!DOCTYPE html>") {
        Some(rest) => past_blanks(rest),
        None => bytes,
    }
}

/// The bytes without the blanks at their end.
fn trimmed(bytes: &[u8]) -> &[u8]
    ensures { result.now ≡ spec.trimmed bytes.now }
{
    let mut n = bytes.len();
    'end: while n > 0 {
        if !is_blank(bytes[n - 1]) {
            break;
        }
        n -= 1;
    }
    &bytes[..n]
}

/// The bytes without the blanks and the document type in front and the blanks at the end.
pub fn element_of(bytes: &[u8]) -> &[u8]
    ensures { result.now ≡ spec.element_of bytes.now }
{
    trimmed(past_doctype(past_blanks(bytes)))
}
