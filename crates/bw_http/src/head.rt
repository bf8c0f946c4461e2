//! The head at the front of the bytes.
ghost use Rattle.std.specs.Prelude.{◌≡◌, ◌<◌, ◌≤◌, ◌+◌, length, take, IsTrue, IsFalse, IfOk, IfSome, IfNone, OnErr};
ghost use Rattle.std.specs.List.{count_by};
ghost use Rattle.httparse.specs.Grammar.{NeverHasRequest};
ghost use Rattle.httparse.specs.Pieces.{is_newline};
ghost use Rattle.httparse.specs.Spans.{IsRequestOf, IsRequestWithin};
ghost use Rattle.bw_http.specs.Heads.{line_count, is_line_feed, skip_newlines, HasNoHead, LacksHead, IsOverLimits, IsTooLong};
ghost use Rattle.bw_http.specs.Looks.{IfWhole, OnBad, OnTooLong, OnMore, IsHeadAt};
ghost use Rattle.bw_http.specs.declared.head.TheConstants.{MAX_HEADER_LINES, MAX_HEAD_BYTES, MAX_HEAD_LINES};

use httparse::spans::{HeaderSpan, RequestSpans, parse_request};
use httparse::{Error, Status};

/// The bytes of a head.
pub const MAX_HEAD_BYTES: usize = 16_384;

/// The header lines of a head.
pub const MAX_HEADER_LINES: usize = 64;

/// The lines of a head: its header lines, the request line, and the empty line at its end.
pub const MAX_HEAD_LINES: usize = 66;

/// What the bytes begin with.
#[derive(Clone, Copy)]
pub enum HeadLook {
    /// A head within the limits.
    Whole(RequestSpans),
    /// What no continuation makes a head.
    Bad,
    /// No head, and what passes a limit.
    TooLong,
    /// No head yet.
    More,
}

/// The bytes that a head may be read from.
pub fn front(bytes: &[u8]) -> &[u8]
    ensures { result.now ≡ take MAX_HEAD_BYTES bytes.now }
{
    if bytes.len() > MAX_HEAD_BYTES {
        &bytes[..MAX_HEAD_BYTES]
    } else {
        bytes
    }
}

pub fn is_newline(b: u8) -> bool
    ensures { result ≡ is_newline b }
{
    b == b'\r' || b == b'\n'
}

/// The bytes from the first that is neither CR nor LF.
fn after_newlines(bytes: &[u8]) -> &[u8]
    ensures { result.now ≡ skip_newlines bytes.now }
{
    let mut first = 0;
    while first < bytes.len() && is_newline(bytes[first]) {
        first += 1;
    }
    &bytes[first..]
}

fn count_line_feeds(bytes: &[u8]) -> usize
    ensures { result ≡ count_by is_line_feed bytes.now }
{
    bytes.iter().filter(|b| **b == b'\n').count()
}

/// How many lines end in the bytes, from the first that is neither CR nor LF.
fn count_lines(bytes: &[u8]) -> usize
    ensures { result ≡ line_count bytes.now }
{
    count_line_feeds(after_newlines(bytes))
}

/// No continuation of the bytes is a head.
struct Bad;

/// Looks for a head within the limits, with no further bytes in view.
fn parse(bytes: &[u8], headers: &mut [HeaderSpan]) -> Result<Option<RequestSpans>, Bad>
    requires { length headers.old ≡ MAX_HEADER_LINES }
    ensures within { IfOk result (λ found. IfSome found (IsRequestWithin bytes.now headers.new)) }
    ensures whole { IfOk result (λ found. IfSome found (IsRequestOf bytes.now headers.new)) }
    ensures none { IfOk result (λ found. IfNone found (HasNoHead bytes.now)) }
    ensures bad { OnErr result (NeverHasRequest bytes.now) }
{
    match parse_request(bytes, headers) {
        Ok(Status::Complete(spans)) => Ok(Some(spans)),
        Ok(Status::Partial) => Ok(None),
        Err(Error::TooManyHeaders) => Ok(None),
        Err(_) => Err(Bad),
    }
}

/// Whether the bytes pass a limit of heads.
fn is_over_limits(bytes: &[u8]) -> bool
    ensures over { IsTrue result → IsOverLimits bytes.now }
    ensures within { IsFalse result → (length bytes.now < MAX_HEAD_BYTES) × (line_count bytes.now ≤ MAX_HEAD_LINES) }
{
    bytes.len() >= MAX_HEAD_BYTES || count_lines(bytes) > MAX_HEAD_LINES
}

/// Looks for a head at the front of the bytes.
pub fn look(bytes: &[u8], headers: &mut [HeaderSpan]) -> HeadLook
    requires { length headers.old ≡ MAX_HEADER_LINES }
    ensures whole { IfWhole result (IsHeadAt bytes.now headers.new) }
    ensures bad { OnBad result (NeverHasRequest bytes.now) }
    ensures long { OnTooLong result (IsTooLong bytes.now) }
    ensures more { OnMore result (LacksHead bytes.now) }
{
    match parse(front(bytes), headers) {
        Ok(Some(spans)) => HeadLook::Whole(spans),
        Ok(None) => {
            if is_over_limits(bytes) {
                HeadLook::TooLong
            } else {
                HeadLook::More
            }
        }
        Err(Bad) => HeadLook::Bad,
    }
}
