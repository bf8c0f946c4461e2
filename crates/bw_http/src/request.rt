//! Requests, and why none was read.
use bw_lang::{Name, Submission};

/// A request's method (RFC 9110, section 9). Methods are told apart by letter case.
#[derive(Clone, Copy, PartialEq, Eq)]
pub enum Method {
    Get,
    Post,
    /// Any other.
    Other,
}

/// What a request's target leads to.
#[derive(Drop)]
pub enum Path {
    /// `/`: the index of the sessions.
    Index,
    /// `/NAME`: the start of the session of this name, a word of at most 64 bytes.
    Start(Name),
    /// `/s/NUMBER-KEY/TURN`: a turn of a live session. Number and turn are at least 1.
    Turn { number: u32, key: u64, turn: u32 },
    /// Anything else.
    Other,
}

/// A request whose head and body came whole.
#[derive(Drop)]
pub struct Request {
    pub method: Method,
    pub path: Path,
    /// What the body of a POST sends. The form of any other request has no pair.
    pub form: Submission,
}

/// Why no request was read. Each but `Memory` leaves all bytes that were taken in the intake.
#[derive(Clone, Copy, PartialEq, Eq)]
pub enum ReadOutcome {
    /// The source ended before a first byte.
    End,
    /// No continuation of the bytes taken is a head.
    BadHead,
    /// The source ended before the message was whole, and no limit was passed.
    Truncated,
    /// No first part of the bytes taken is a head, and they pass a limit of heads: 16,384 bytes were taken, or they
    /// hold 67 line feeds from the first byte that is neither CR nor LF.
    HeadTooLong,
    /// The version is 1.1, and there isn't exactly one header line `Host`.
    NoHost,
    /// There is a header line `Transfer-Encoding`.
    Coding,
    /// There are two lines `Content-Length`, or its value isn't 1 to 18 digits.
    BadLength,
    /// A POST has no line `Content-Length`.
    LengthRequired,
    /// The body is longer than 65,536 bytes.
    BodyTooLong,
    /// A POST with a body isn't said to send a form.
    Media,
    /// A read failed, which the count of the source shows. No message was whole in the bytes taken, and no limit was
    /// passed.
    ReadFault,
    /// There was no memory for the request. The whole message was taken, so that the next call reads the next one.
    Memory,
}
