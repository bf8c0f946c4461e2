//! The tests on a whole head, in their order.
ghost use Rattle.std.specs.Prelude.{◌≡◌, ℕ, List, length, map, reverse, ◌≤◌, All, true};
ghost use Rattle.httparse.specs.Grammar.{skip_ows, trim_ows};
ghost use Rattle.httparse.specs.Spans.{IsHeaderWithin, header_bytes};
ghost use Rattle.bw_http.specs.Decisions.{
  same_word,
  values,
  IsFound,
  is_size,
  length_of,
  before_semicolon,
  media_type,
  is_form,
  is_one,
  is_none,
  method_of,
  decide_body,
  decide_in_order,
  decide_on,
};

use crate::request::{Method, ReadOutcome};
use bw_lang::{are_digits, decimal_value};
use httparse::spans::{HeaderSpan, Span};

/// What the tests on a whole head come to.
#[derive(Clone, Copy)]
pub enum Decision {
    /// A test refuses it.
    Refused(ReadOutcome),
    /// A body of so many bytes follows.
    Body(u64),
}

/// The header lines of one name.
#[derive(Clone, Copy)]
pub enum Found {
    Absent,
    One(Span),
    Several,
}

/// What the lines `Content-Length` come to.
#[derive(Clone, Copy)]
pub enum Length {
    Missing,
    Wrong,
    Bytes(u64),
}

/// Whether the two are one word in any letter case (RFC 9110, section 5.1).
pub fn same_word(a: &[u8], b: &[u8]) -> bool
    ensures { result ≡ same_word a.now b.now }
{
    a.eq_ignore_ascii_case(b)
}

/// Looks for the header lines of that name.
fn find(buf: &[u8], headers: &[HeaderSpan], name: &[u8]) -> Found
    requires { All (IsHeaderWithin (length buf.now)) headers.now }
    ensures { IsFound buf.now (values name.now (map (header_bytes buf.now) headers.now)) result }
{
    let mut found = Found::Absent;
    for header in headers {
        if same_word(header.name.of(buf), name) {
            found = match found {
                Found::Absent => Found::One(header.value),
                _ => Found::Several,
            };
        }
    }
    found
}

/// Whether it is 1 to 18 digits. A sign is none (RFC 9110, section 8.6).
fn is_size(value: &[u8]) -> bool
    ensures { result ≡ is_size value.now }
{
    !value.is_empty() && value.len() <= 18 && are_digits(value)
}

fn trim_start(mut s: &[u8]) -> &[u8]
    ensures { result.now ≡ skip_ows s.now }
{
    while let [first, rest @ ..] = s
        && (*first == b' ' || *first == b'\t')
    {
        s = rest;
    }
    s
}

fn trim_end(mut s: &[u8]) -> &[u8]
    ensures { result.now ≡ reverse (skip_ows (reverse s.now)) }
{
    while let [rest @ .., last] = s
        && (*last == b' ' || *last == b'\t')
    {
        s = rest;
    }
    s
}

/// The bytes without spaces and tabs at both ends.
fn trim_ows(s: &[u8]) -> &[u8]
    ensures { result.now ≡ trim_ows s.now }
{
    trim_end(trim_start(s))
}

fn before_semicolon(value: &[u8]) -> &[u8]
    ensures { result.now ≡ before_semicolon value.now }
{
    match value.iter().position(|b| *b == b';') {
        Some(end) => &value[..end],
        None => value,
    }
}

/// The media type that a value of `Content-Type` names, without its parameters (RFC 9110, section 8.3.1).
fn media_type(value: &[u8]) -> &[u8]
    ensures { result.now ≡ media_type value.now }
{
    trim_ows(before_semicolon(value))
}

fn is_one(found: Found) -> bool
    ensures { (buf : List ℕ) (vs : List (List ℕ)) → IsFound buf vs found → result ≡ is_one vs }
{
    matches!(found, Found::One(_))
}

fn is_none(found: Found) -> bool
    ensures { (buf : List ℕ) (vs : List (List ℕ)) → IsFound buf vs found → result ≡ is_none vs }
{
    matches!(found, Found::Absent)
}

/// What the lines `Content-Length` that were found come to. Two lines are wrong, also where they agree.
fn length_of(buf: &[u8], found: Found) -> Length
    requires { (vs : List (List ℕ)) × IsFound buf.now vs found }
    ensures { (vs : List (List ℕ)) → IsFound buf.now vs found → result ≡ length_of vs }
{
    match found {
        Found::Absent => Length::Missing,
        Found::One(span) => {
            let value = span.of(buf);
            if is_size(value) {
                Length::Bytes(decimal_value(value))
            } else {
                Length::Wrong
            }
        }
        Found::Several => Length::Wrong,
    }
}

/// Whether the lines `Content-Type` that were found say that the body is a form (HTML 4.01, section 17.13.4).
fn is_form(buf: &[u8], found: Found) -> bool
    requires { (vs : List (List ℕ)) × IsFound buf.now vs found }
    ensures { (vs : List (List ℕ)) → IsFound buf.now vs found → result ≡ is_form vs }
{
    match found {
        Found::One(span) => same_word(
            media_type(span.of(buf)),
            b"application/x-www-form-urlencoded",
        ),
        _ => false,
    }
}

/// The method that these bytes name.
pub fn method_of(bytes: &[u8]) -> Method
    ensures { result ≡ method_of bytes.now }
{
    if bytes == b"GET".as_slice() {
        Method::Get
    } else if bytes == b"POST".as_slice() {
        Method::Post
    } else {
        Method::Other
    }
}

/// The bytes of a body.
pub const MAX_BODY_BYTES: u64 = 65_536;

/// The tests on the body's length and type.
fn decide_body(method: Method, length: Length, form: bool) -> Decision
    ensures { result ≡ decide_body method length form }
{
    let post = matches!(method, Method::Post);
    match length {
        Length::Missing => {
            if post {
                Decision::Refused(ReadOutcome::LengthRequired)
            } else {
                Decision::Body(0)
            }
        }
        Length::Wrong => Decision::Refused(ReadOutcome::BadLength),
        Length::Bytes(n) => {
            if MAX_BODY_BYTES < n {
                Decision::Refused(ReadOutcome::BodyTooLong)
            } else if post && 0 < n && !form {
                Decision::Refused(ReadOutcome::Media)
            } else {
                Decision::Body(n)
            }
        }
    }
}

fn decide_in_order(
    minor: u8,
    host: bool,
    coded: bool,
    method: Method,
    length: Length,
    form: bool,
) -> Decision
    ensures { result ≡ decide_in_order minor host coded method length form }
{
    if minor == 1 && !host {
        Decision::Refused(ReadOutcome::NoHost)
    } else if coded {
        Decision::Refused(ReadOutcome::Coding)
    } else {
        decide_body(method, length, form)
    }
}

/// What the tests come to, on the parts of a head.
pub fn decide_on(buf: &[u8], method: &[u8], minor: u8, headers: &[HeaderSpan]) -> Decision
    requires { All (IsHeaderWithin (length buf.now)) headers.now }
    ensures { result ≡ decide_on method.now minor (map (header_bytes buf.now) headers.now) }
{
    let host = is_one(find(buf, headers, b"host"));
    let coded = !is_none(find(buf, headers, b"transfer-encoding"));
    let length = length_of(buf, find(buf, headers, b"content-length"));
    let form = is_form(buf, find(buf, headers, b"content-type"));
    decide_in_order(minor, host, coded, method_of(method), length, form)
}
