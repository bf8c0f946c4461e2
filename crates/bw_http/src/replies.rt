//! Replies, and how they are written.
ghost use Rattle.std.specs.Prelude.{◌≡◌, ◌++◌, ◌<◌, ◌+◌, ◌-◌, ◌^◌, [], length, map, codes, decimal, MatchOption};
ghost use Rattle.bw_out.specs.Sends.{Sends};
ghost use Rattle.bw_lang.specs.declared.turn.TurnFault.TheVariants as faults;
ghost use Rattle.bw_http.specs.Replies as spec;
ghost use Rattle.bw_http.specs.Replies.{message, plain, text_type, bytes_of, fault_words, shown_name, IsLineCut, IsReply};

use crate::head::is_newline;
use bw_lang::{FieldId, FieldNames, TurnFault};
use bw_out::{Sink, WriteFault, write_all, write_parts};
use bw_page::Sheet;
use itoa::Buffer;

/// What a request, or the lack of one, is answered by.
pub enum Reply {
    /// 200: the names of the sessions, each with the end of a line.
    Index(Sheet),
    /// 200: a shown page.
    Page(Sheet),
    /// 200: the last page of a session.
    Final(Sheet),
    /// 404: there is no such page.
    NoSuch,
    /// 405: the path doesn't serve the method, but these.
    Method(Allow),
    /// 409: the session's current turn is another one, this.
    Stale(u32),
    /// 422: a field that is received has no value.
    Lacking(FieldId),
    /// 422: a field that is received has two or more values.
    Repeated(FieldId),
    /// 422: the value of a field that is received is longer than 16,384 bytes.
    FieldTooLong(FieldId),
    /// 422: a value of a field that is received is outside the field's format.
    Format(FieldId),
    /// 500: the turn failed. Want of memory is `Memory` and never stands here.
    Failed(TurnFault),
    /// 503: all numbers of sessions were given.
    NoNumbers,
    /// 503: the session has had all its turns.
    NoTurns,
    /// 400: the bytes are no request.
    Bad,
    /// 411: the length of the body isn't said.
    LengthRequired,
    /// 413: the body is too long.
    BodyTooLong,
    /// 415: the body isn't said to be a form.
    Media,
    /// 431 (RFC 6585, section 5): the head is too long.
    HeadTooLong,
    /// 503: there was no memory.
    Memory,
}

impl Drop for Reply {
    fn drop(self) {
        match self {
            Reply::Index(_) => {}
            Reply::Page(_) => {}
            Reply::Final(_) => {}
            Reply::NoSuch => {}
            Reply::Method(_) => {}
            Reply::Stale(_) => {}
            Reply::Lacking(_) => {}
            Reply::Repeated(_) => {}
            Reply::FieldTooLong(_) => {}
            Reply::Format(_) => {}
            Reply::Failed(_) => {}
            Reply::NoNumbers => {}
            Reply::NoTurns => {}
            Reply::Bad => {}
            Reply::LengthRequired => {}
            Reply::BodyTooLong => {}
            Reply::Media => {}
            Reply::HeadTooLong => {}
            Reply::Memory => {}
        }
    }
}

/// The methods that a path serves.
#[derive(Clone, Copy, PartialEq, Eq)]
pub enum Allow {
    Get,
    GetPost,
}

/// Writes a reply: its head, with the length of its body, and its body. `fields` are the names of the service's fields.
/// A carriage return or line feed in a field's name prints as a space. It takes no memory.
///
/// `WriteFault` comes only where the sink's count rose. A first part of the reply is then written.
pub fn write_reply<W: Sink>(
    reply: Reply,
    fields: &FieldNames,
    sink: &mut W,
) -> Result<(), WriteFault>
    requires { IsReply fields.now reply }
    ensures { Sends W.Channel sink.old sink.new (bytes_of fields.now reply) result }
{
    write_lent(&reply, fields, sink)
}

/// Writes a reply that is lent.
fn write_lent<W: Sink>(reply: &Reply, fields: &FieldNames, sink: &mut W) -> Result<(), WriteFault>
    requires { IsReply fields.now reply.now }
    ensures { Sends W.Channel sink.old sink.new (bytes_of fields.now reply.now) result }
{
    match reply {
        Reply::Index(names) => write_sheet(b"text/plain; charset=utf-8", names, sink),
        Reply::Page(page) => write_sheet(b"text/html; charset=utf-8", page, sink),
        Reply::Final(page) => write_sheet(b"text/html; charset=utf-8", page, sink),
        Reply::Lacking(field) => write_field(b"lacking ", *field, fields, sink),
        Reply::Repeated(field) => write_field(b"repeated ", *field, fields, sink),
        Reply::FieldTooLong(field) => write_field(b"too long ", *field, fields, sink),
        Reply::Format(field) => write_field(b"format ", *field, fields, sink),
        Reply::Method(allow) => write_allowed(*allow, sink),
        Reply::Stale(turn) => write_stale(*turn, sink),
        Reply::Failed(fault) => write_failed(*fault, sink),
        Reply::Bad => write_words(b"HTTP/1.1 400 Bad Request", b"bad request", sink),
        Reply::NoSuch => write_words(b"HTTP/1.1 404 Not Found", b"no such page", sink),
        Reply::LengthRequired => write_words(
            b"HTTP/1.1 411 Length Required",
            b"length required",
            sink,
        ),
        Reply::BodyTooLong => write_words(
            b"HTTP/1.1 413 Content Too Large",
            b"body too large",
            sink,
        ),
        Reply::Media => write_words(
            b"HTTP/1.1 415 Unsupported Media Type",
            b"form data wanted",
            sink,
        ),
        Reply::HeadTooLong => {
            write_words(
                b"HTTP/1.1 431 Request Header Fields Too Large",
                b"head too large",
                sink,
            )
        }
        Reply::NoNumbers => write_words(b"HTTP/1.1 503 Service Unavailable", b"no numbers", sink),
        Reply::NoTurns => write_words(b"HTTP/1.1 503 Service Unavailable", b"no turns", sink),
        Reply::Memory => write_words(b"HTTP/1.1 503 Service Unavailable", b"out of memory", sink),
    }
}

/// Writes the reply to a turn that isn't the session's current one, which is this.
fn write_stale<W: Sink>(turn: u32, sink: &mut W) -> Result<(), WriteFault>
    ensures { Sends W.Channel sink.old sink.new (bytes_of [] (Reply.Stale turn)) result }
{
    let status = b"HTTP/1.1 409 Conflict";
    write_number(status, b"current turn ", turn as u64, sink)
}

/// Writes the reply to a turn that failed.
fn write_failed<W: Sink>(fault: TurnFault, sink: &mut W) -> Result<(), WriteFault>
    ensures { Sends W.Channel sink.old sink.new (plain (codes "HTTP/1.1 500 Internal Server Error") (fault_words fault)) result }
{
    let status = b"HTTP/1.1 500 Internal Server Error";
    match fault {
        TurnFault::Spent => write_words(status, b"spent", sink),
        TurnFault::DivideByZero => write_words(status, b"divide by zero", sink),
        TurnFault::Overflow => write_words(status, b"overflow", sink),
        TurnFault::StringTooLong(n) => write_number(status, b"string too long ", n, sink),
        TurnFault::Heavy(n) => write_number(status, b"heavy ", n, sink),
        TurnFault::Deep(n) => write_number(status, b"deep ", n as u64, sink),
        TurnFault::Nested(n) => write_number(status, b"nested ", n as u64, sink),
        TurnFault::PageTooLong(n) => write_number(status, b"page too long ", n, sink),
        TurnFault::SessionHeavy(n) => write_number(status, b"session heavy ", n, sink),
        TurnFault::SharedHeavy(n) => write_number(status, b"shared heavy ", n, sink),
        TurnFault::Memory => write_words(status, b"out of memory", sink),
    }
}

/// The header line with the methods that a path serves.
fn allow_line(allow: Allow) -> &'static [u8]
    ensures { result.now ≡ spec.allow_line allow }
{
    match allow {
        Allow::Get => b"Allow: GET\r\n",
        Allow::GetPost => b"Allow: GET, POST\r\n",
    }
}

/// Writes the reply to a method that the path doesn't serve.
fn write_allowed<W: Sink>(allow: Allow, sink: &mut W) -> Result<(), WriteFault>
    ensures { Sends W.Channel sink.old sink.new (bytes_of [] (Reply.Method allow)) result }
{
    write_text(
        b"HTTP/1.1 405 Method Not Allowed",
        allow_line(allow),
        b"method not allowed",
        b"",
        sink,
    )
}

/// Writes a page or plain text, of this type.
fn write_sheet<W: Sink>(kind: &[u8], sheet: &Sheet, sink: &mut W) -> Result<(), WriteFault>
    ensures { Sends W.Channel sink.old sink.new (message (codes "HTTP/1.1 200 OK") kind.now [] sheet.now) result }
{
    write_head(b"HTTP/1.1 200 OK", kind, b"", sheet.length(), sink)?;
    write_all(sink, sheet.as_bytes())
}

/// Writes a line of plain text.
fn write_words<W: Sink>(status: &[u8], words: &[u8], sink: &mut W) -> Result<(), WriteFault>
    requires { length words.now < 2 ^ 32 }
    ensures { Sends W.Channel sink.old sink.new (plain status.now words.now) result }
{
    write_text(status, b"", words, b"", sink)
}

/// Writes a line of plain text that ends in a number.
fn write_number<W: Sink>(
    status: &[u8],
    words: &[u8],
    number: u64,
    sink: &mut W,
) -> Result<(), WriteFault>
    requires { length words.now < 2 ^ 32 }
    ensures { Sends W.Channel sink.old sink.new (plain status.now (words.now ++ decimal number)) result }
{
    let mut digits = Buffer::new();
    write_text(status, b"", words, digits.format(number).as_bytes(), sink)
}

/// How many bytes a line of two parts has, its end among them.
fn line_length(words: &[u8], ending: &[u8]) -> u64
    requires { length words.now + length ending.now < 2 ^ 64 - 2 }
    ensures { result ≡ length words.now + length ending.now + 1 }
{
    words.len() as u64 + ending.len() as u64 + 1
}

/// Writes a reply in plain text: words, what follows them, and the end of the line.
fn write_text<'a, W: Sink>(
    status: &'a [u8],
    more: &'a [u8],
    words: &'a [u8],
    ending: &'a [u8],
    sink: &mut W,
) -> Result<(), WriteFault>
    requires { length words.now + length ending.now < 2 ^ 63 }
    ensures { Sends W.Channel sink.old sink.new
        (message status.now text_type more.now ((words.now ++ ending.now) ++ codes "\n")) result }
{
    let length = line_length(words, ending);
    write_head(status, b"text/plain; charset=utf-8", more, length, sink)?;
    write_parts(sink, &[words, ending, b"\n"])
}

/// Writes the reply to a form with whose field something is wrong.
fn write_field<W: Sink>(
    words: &[u8],
    field: FieldId,
    fields: &FieldNames,
    sink: &mut W,
) -> Result<(), WriteFault>
    requires { length words.now < 2 ^ 32 }
    ensures { Sends W.Channel sink.old sink.new
        (plain (codes "HTTP/1.1 422 Unprocessable Content") (words.now ++ shown_name fields.now field)) result }
{
    let name = match fields.name(field) {
        Some(name) => name.as_bytes(),
        None => b"",
    };
    write_name(words, name, sink)
}

/// Writes the head that a form with a wrong field gets, and the line with the field's name.
fn write_name<W: Sink>(words: &[u8], name: &[u8], sink: &mut W) -> Result<(), WriteFault>
    requires { length words.now < 2 ^ 32 }
    ensures { Sends W.Channel sink.old sink.new
        (plain (codes "HTTP/1.1 422 Unprocessable Content") (words.now ++ map spec.shown name.now)) result }
{
    let length = line_length(words, name);
    write_head(
        b"HTTP/1.1 422 Unprocessable Content",
        b"text/plain; charset=utf-8",
        b"",
        length,
        sink,
    )?;
    write_all(sink, words)?;
    write_shown(name, sink)?;
    write_all(sink, b"\n")
}

/// The bytes before the first carriage return or line feed, and those behind it.
fn cut_line(bytes: &[u8]) -> Option<(&[u8], &[u8])>
    ensures { MatchOption result (map spec.shown bytes.now ≡ bytes.now)
        (λ parts. IsLineCut bytes.now parts.0.now parts.1.now) }
{
    let end = bytes.iter().position(|b| is_newline(*b))?;
    Some((&bytes[..end], &bytes[end + 1..]))
}

/// Writes a name, with spaces for the ends of lines.
fn write_shown<W: Sink>(name: &[u8], sink: &mut W) -> Result<(), WriteFault>
    ensures { Sends W.Channel sink.old sink.new (map spec.shown name.now) result }
{
    let mut rest = name;
    while let Some((line, more)) = cut_line(rest) {
        write_parts(sink, &[line, b" "])?;
        rest = more;
    }
    write_all(sink, rest)
}

/// Writes the head of a reply with a body of so many bytes. The status line is one piece, with its version.
fn write_head<'a, W: Sink>(
    status: &'a [u8],
    kind: &'a [u8],
    more: &'a [u8],
    length: u64,
    sink: &mut W,
) -> Result<(), WriteFault>
    ensures { Sends W.Channel sink.old sink.new (spec.head status.now kind.now more.now length) result }
{
    let mut digits = Buffer::new();
    write_parts(
        sink,
        &[
            status,
            b"\r\nContent-Type: ",
            kind,
            b"\r\nContent-Length: ",
            digits.format(length).as_bytes(),
            b"\r\n",
            more,
            b"Cache-Control: no-store\r\nConnection: close\r\n\r\n",
        ],
    )
}
