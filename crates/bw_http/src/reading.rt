//! One request read from a source.
ghost use Rattle.std.specs.Prelude.{◌≡◌, ◌≢◌, ◌≤◌, ◌<◌, ◌⊎◌, [], true, false, length, IfOk, OnErr, IsErr, IsErrOf, IsFalse};
ghost use Rattle.std.specs.List.{list_all, list_any};
ghost use Rattle.std.specs.Io.KnownBytes.{IsAtEnd};
ghost use Rattle.httparse.specs.Pieces as spec;
ghost use Rattle.bw_out.specs.Sends.{Takes};
ghost use Rattle.bw_http.specs.Taken.{IsFilled};
ghost use Rattle.bw_http.specs.Heads.{LacksHead, is_line_feed};
ghost use Rattle.bw_http.specs.Looks.{IsHeadAt};
ghost use Rattle.bw_http.specs.Messages.{IsVerdict, Lacks, IsShort, IsMessageAt, IsRequest, ComesOf};
ghost use Rattle.bw_http.specs.Cuts.{Tells};
ghost use Rattle.bw_http.specs.declared.intake.TheConstants.{ROOM};

use crate::decide::{Decision, decide_on, method_of};
use crate::form::read_form;
use crate::head::{HeadLook, MAX_HEAD_BYTES, front, is_newline, look};
use crate::intake::Intake;
use crate::paths::path_of;
use crate::request::{Method, ReadOutcome, Request};
use bw_lang::{Memory, Submission};
use bw_out::{Failed, Source};
use httparse::spans::{EMPTY_HEADER_SPAN, HeaderSpan, RequestSpans, Span};
use std::alloc::Global;

/// Where the parts of a whole message are.
#[derive(Clone, Copy)]
pub struct Parts {
    pub method: Method,
    pub target: Span,
    /// How many bytes the head has.
    pub len: usize,
    /// How many bytes the body has.
    pub size: usize,
}

/// What has to come before it is worth to look at the bytes again.
#[derive(Clone, Copy, PartialEq, Eq)]
pub enum Lack {
    /// The end of a line: there is no head yet, and heads end in a line feed.
    Line,
    /// So many bytes in all.
    Bytes(usize),
}

/// What the bytes taken so far are.
#[derive(Clone, Copy)]
pub enum Verdict {
    /// No head, whatever follows.
    Bad,
    /// No head, and over the limits of heads.
    TooLong,
    /// A whole head that a test refuses.
    Denied(ReadOutcome),
    /// A whole message.
    Whole(Parts),
    /// No whole message yet.
    Short(Lack),
}

/// What the bytes are, where a whole head stands at their front.
fn judge(bytes: &[u8], spans: RequestSpans, headers: &[HeaderSpan]) -> Verdict
    requires { IsHeadAt bytes.now headers.now spans }
    ensures { IsVerdict bytes.now result }
{
    let part = front(bytes);
    let name = spans.method.of(part);
    match decide_on(part, name, spans.version, &headers[..spans.headers]) {
        Decision::Refused(e) => Verdict::Denied(e),
        Decision::Body(size) => {
            let size = size as usize;
            if bytes.len() - spans.len < size {
                Verdict::Short(Lack::Bytes(spans.len + size))
            } else {
                let method = method_of(name);
                let target = spans.path;
                let len = spans.len;
                Verdict::Whole(Parts {
                    method,
                    target,
                    len,
                    size,
                })
            }
        }
    }
}

/// What the bytes are so far.
pub fn examine(bytes: &[u8]) -> Verdict
    ensures { IsVerdict bytes.now result }
{
    let mut headers = [EMPTY_HEADER_SPAN; 64];
    match look(bytes, &mut headers) {
        HeadLook::Bad => Verdict::Bad,
        HeadLook::TooLong => Verdict::TooLong,
        HeadLook::More => Verdict::Short(Lack::Line),
        HeadLook::Whole(spans) => judge(bytes, spans, &headers),
    }
}

/// Takes bytes until the intake holds so many. It says whether it does: if not, the source ended before.
fn fill_to<S: Source>(intake: &mut Intake, source: &mut S, need: usize) -> Result<bool, Failed>
    requires { need ≤ ROOM }
    ensures filled { IsFilled (S.left source.old) (S.left source.new) intake.old intake.new }
    ensures reached { IfOk result (λ b. b ≡ true → need ≤ length intake.new) }
    ensures ended { IfOk result (λ b. b ≡ false → (length intake.new < need) × IsAtEnd (S.left source.new)) }
    ensures short { OnErr result (length intake.new < need) }
    ensures takes { Takes S.Channel source.old source.new (IsErr result) }
{
    'more: while intake.bytes().len() < need {
        if intake.fill(source)? == 0 {
            return Ok(false);
        }
    }
    Ok(true)
}

/// Whether all of the bytes are CR or LF.
fn is_blank(bytes: &[u8]) -> bool
    ensures { result ≡ list_all spec.is_newline bytes.now }
{
    bytes.iter().all(|b| is_newline(*b))
}

/// Whether these bytes, which came behind others, may end a head that has begun.
fn may_end_head(begun: bool, fresh: &[u8]) -> bool
    ensures { IsFalse result → IsFalse begun ⊎ (list_any is_line_feed fresh.now ≡ false) }
{
    begun && fresh.contains(&b'\n')
}

/// Takes bytes until a line of a head has ended, or until no longer head may follow. It says whether there are more
/// bytes to look at: if not, the source ended before. Empty lines in front of a head are none of its lines.
fn fill_line<S: Source>(intake: &mut Intake, source: &mut S) -> Result<bool, Failed>
    requires { Lacks intake.old Lack.Line }
    ensures filled { IsFilled (S.left source.old) (S.left source.new) intake.old intake.new }
    ensures grown { IfOk result (λ more. more ≡ true → length intake.old < length intake.new) }
    ensures ended { IfOk result (λ more. more ≡ false → LacksHead intake.new × IsAtEnd (S.left source.new)) }
    ensures short { OnErr result (LacksHead intake.new) }
    ensures takes { Takes S.Channel source.old source.new (IsErr result) }
{
    let mut begun = !is_blank(intake.bytes());
    'more: while intake.bytes().len() < MAX_HEAD_BYTES {
        let held = intake.bytes().len();
        if intake.fill(source)? == 0 {
            return Ok(false);
        }
        let fresh = &intake.bytes()[held..];
        begun |= !is_blank(fresh);
        if may_end_head(begun, fresh) {
            return Ok(true);
        }
    }
    Ok(true)
}

/// Takes what the bytes lack. It says whether there are more bytes to look at: if not, the source ended before.
fn fill<S: Source>(intake: &mut Intake, source: &mut S, lack: Lack) -> Result<bool, Failed>
    requires { Lacks intake.old lack }
    ensures filled { IsFilled (S.left source.old) (S.left source.new) intake.old intake.new }
    ensures grown { IfOk result (λ more. more ≡ true → length intake.old < length intake.new) }
    ensures ended { IfOk result (λ more. more ≡ false → IsShort intake.new × IsAtEnd (S.left source.new)) }
    ensures short { OnErr result (IsShort intake.new) }
    ensures takes { Takes S.Channel source.old source.new (IsErr result) }
{
    match lack {
        Lack::Line => fill_line(intake, source),
        Lack::Bytes(need) => fill_to(intake, source, need),
    }
}

/// The request that a whole message sends.
fn make(alloc: Global, bytes: &[u8], parts: Parts) -> Result<Request, Memory>
    requires { IsMessageAt bytes.now parts }
    ensures { (m : IsMessageAt bytes.now parts) → IfOk result (IsRequest m.head m.body) }
{
    let path = path_of(alloc, parts.target.of(bytes))?;
    let form = match parts.method {
        Method::Post => read_form(alloc, &bytes[parts.len..parts.len + parts.size])?,
        Method::Get | Method::Other => Submission::new(alloc),
    };
    let method = parts.method;
    Ok(Request { method, path, form })
}

/// Takes the whole message out of the intake, also where memory runs out.
fn take_message(alloc: Global, intake: &mut Intake, parts: Parts) -> Result<Request, Memory>
    requires { IsMessageAt intake.old parts }
    ensures { (m : IsMessageAt intake.old parts) → (intake.new ≡ m.rest) × IfOk result (IsRequest m.head m.body) }
{
    let made = make(alloc, intake.bytes(), parts);
    intake.consume(parts.len + parts.size);
    made
}

/// Reads the next request, in facts about the bytes that were taken.
fn take_request<S: Source>(
    alloc: Global,
    intake: &mut Intake,
    source: &mut S,
) -> Result<Request, ReadOutcome>
    ensures taken { ComesOf (S.left source.old) (S.left source.new) intake.old result intake.new }
    ensures takes { Takes S.Channel source.old source.new (IsErrOf result ReadOutcome.ReadFault) }
{
    'turns: loop {
        match examine(intake.bytes()) {
            Verdict::Bad => return Err(ReadOutcome::BadHead),
            Verdict::TooLong => return Err(ReadOutcome::HeadTooLong),
            Verdict::Denied(e) => return Err(e),
            Verdict::Whole(parts) => {
                return match take_message(alloc, intake, parts) {
                    Ok(request) => Ok(request),
                    Err(Memory) => Err(ReadOutcome::Memory),
                };
            }
            Verdict::Short(lack) => {
                match fill(intake, source, lack) {
                    Ok(true) => {}
                    Ok(false) => return Err(at_end(intake)),
                    Err(Failed) => return Err(ReadOutcome::ReadFault),
                }
            }
        }
    }
}

/// Why no request was read where the source ended.
fn at_end(intake: &Intake) -> ReadOutcome
    ensures end { intake.now ≡ [] → result ≡ ReadOutcome.End }
    ensures truncated { intake.now ≢ [] → result ≡ ReadOutcome.Truncated }
{
    if intake.bytes().is_empty() {
        ReadOutcome::End
    } else {
        ReadOutcome::Truncated
    }
}

/// Reads the next request of a stream: the bytes in the intake, and then those of the source. What follows it stays in
/// the intake. In whatever pieces the bytes come, they are taken only as far as the message goes, or its piece.
///
/// The refusals are tested in the order of `ReadOutcome`, and each but `Memory` ends the stream and leaves it as it is:
/// the bytes that were taken stay in the intake. `End`, `NoHost`,
/// `Coding`, `BadLength`, `LengthRequired`, `BodyTooLong` and `Media` come exactly where the bytes say so; `BadHead`,
/// `HeadTooLong` and `Truncated` only there; and `ReadFault` only where the source's count rose.
pub fn read_request<S: Source>(
    alloc: Global,
    intake: &mut Intake,
    source: &mut S,
) -> Result<Request, ReadOutcome>
    ensures taken { ComesOf (S.left source.old) (S.left source.new) intake.old result intake.new }
    ensures stream { Tells (S.left source.old) (S.left source.new) intake.old result intake.new }
    ensures takes { Takes S.Channel source.old source.new (IsErrOf result ReadOutcome.ReadFault) }
{
    take_request(alloc, intake, source)
}
