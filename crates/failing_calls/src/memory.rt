//! Want of memory, one request for it at a time: tools/without_memory has one refused in each run, the first, the second, and so
//! on until none is. A run in which one was refused ends with code 8 and has printed nothing; or it answers one request by
//! 503, and the others as if that one had never been sent.
use crate::runs::{Replayed, check, replay, sound};
use crate::wrongs::Wrong;
use bw_make::make;
use std::alloc::Global;
use std::num::NonZeroUsize;
use std::thread::Threads;

/// A guest book.
pub const GUESTS: &[u8] =
    b"service Guests { html Ask = <html><p>Name: <input name=\"who\"/></p></html>; html Row = \
      <html><li><[n]></li><[rows]></html>; html List = <html><p>Hello <[n]></p><ul><[rows]></ul></html>; html Start = \
      <html><[rows]></html>; shared html past = Start; session visit() { string who = \"\"; show Ask receive [who=who]; \
      past = past<[rows=Row<[n=who]]; exit List<[n=who, rows=past]; } }";

/// Two visitors sign the book.
const REQUESTS: [&[u8]; 4] = [
    b"GET /visit HTTP/1.1\r\nHost: a\r\n\r\n",
    b"POST /s/1-0000000000000001/1 HTTP/1.1\r\nHost: a\r\nContent-Type: application/x-www-form-urlencoded\r\nContent-Length: 6\r\n\r\nwho=Bo",
    b"GET /visit HTTP/1.1\r\nHost: a\r\n\r\n",
    b"POST /s/2-0000000000000003/1 HTTP/1.1\r\nHost: a\r\nContent-Type: application/x-www-form-urlencoded\r\nContent-Length: 6\r\n\r\nwho=Al",
];

/// A request that changes nothing, and its reply.
pub const NOBODY: &[u8] = b"GET /nobody HTTP/1.1\r\nHost: a\r\n\r\n";

const NOT_FOUND: &[u8] =
    b"HTTP/1.1 404 Not Found\r\nContent-Type: text/plain; charset=utf-8\r\nContent-Length: 13\r\nCache-Control: \
      no-store\r\nConnection: close\r\n\r\nno such page\n";

/// The reply where there is no memory.
pub const OUT_OF_MEMORY: &[u8] =
    b"HTTP/1.1 503 Service Unavailable\r\nContent-Type: text/plain; charset=utf-8\r\nContent-Length: 14\r\nCache-Control: \
      no-store\r\nConnection: close\r\n\r\nout of memory\n";

/// What is printed of a service that is accepted.
const ACCEPTED: &[u8] = b"accepted\n";

/// The exit code of a run without memory.
pub const NO_MEMORY: u8 = 8;

/// How many pages the made service has.
const PAGES: u32 = 20;

/// What a refused request for memory led to.
#[derive(Clone, Copy, PartialEq, Eq)]
pub enum Came {
    /// All is as it is due: none was refused, or it was needed for nothing, or for another run than the one that is looked at.
    Nothing,
    /// A run ended for want of memory, and had printed nothing.
    Stopped,
    /// One request was answered by 503.
    Answered,
}

/// Answers the guest book's requests, with another one in the place of the one at `without`.
fn book<R: Threads + Sync>(
    rt: &R,
    alloc: Global,
    without: usize,
    other: &[u8],
) -> Result<Replayed, Wrong> {
    let mut requests = Vec::new(alloc);
    for (place, request) in REQUESTS.iter().enumerate() {
        requests.extend_from_slice(if place == without { other } else { request })?;
    }
    replay(rt, alloc, GUESTS, &requests, "9", sound(NonZeroUsize::MAX))
}

/// Whether both are the same but for one reply: out of memory here, `reply` there.
fn differ_by_one_reply(output: &[u8], other: &[u8], reply: &[u8]) -> bool {
    for place in 0..output.len() {
        let (front, rest) = output.split_at(place);
        if other.starts_with(front) && rest.starts_with(OUT_OF_MEMORY) {
            let (_, there) = other.split_at(place);
            let (_, behind) = rest.split_at(OUT_OF_MEMORY.len());
            return there.starts_with(reply)
                && there.ends_with(behind)
                && there.len() - reply.len() == behind.len();
        }
    }
    false
}

/// Whether the output is the one where the request at this place wasn't sent, but for its reply. Where there was no memory to
/// read it, it has no key; else it has one, as a request that changes nothing.
fn is_without<R: Threads + Sync>(
    rt: &R,
    alloc: Global,
    output: &[u8],
    place: usize,
) -> Result<bool, Wrong> {
    let unread = book(rt, alloc, place, b"")?;
    let unanswered = book(rt, alloc, place, NOBODY)?;
    Ok(
        differ_by_one_reply(output, &unread.output, b"")
            || differ_by_one_reply(output, &unanswered.output, NOT_FOUND),
    )
}

/// Answers the guest book's requests, and says what a refused request for memory led to.
pub fn try_replay<R: Threads + Sync>(rt: &R, alloc: Global) -> Result<Came, Wrong> {
    let all = REQUESTS.len();
    let got = book(rt, alloc, all, b"")?;
    let first = book(rt, alloc, all, b"")?;
    let second = book(rt, alloc, all, b"")?;
    came_of_replay(rt, alloc, &got, &first.output, &second.output)
}

/// What a refused request for memory led to where this came, beside what two later runs printed.
fn came_of_replay<R: Threads + Sync>(
    rt: &R,
    alloc: Global,
    got: &Replayed,
    first: &[u8],
    second: &[u8],
) -> Result<Came, Wrong> {
    if got.output.as_slice() == first || got.output.as_slice() == second {
        return Ok(Came::Nothing);
    }
    if got.status == NO_MEMORY && got.output.is_empty() {
        return Ok(Came::Stopped);
    }
    for place in 0..REQUESTS.len() {
        if got.status == 0 && is_without(rt, alloc, &got.output, place)? {
            return Ok(Came::Answered);
        }
    }
    Err(Wrong::Refused)
}

/// Checks the made service, and says what a refused request for memory led to.
pub fn try_check<R: Threads + Sync>(rt: &R, alloc: Global) -> Result<Came, Wrong> {
    let service = make(alloc, PAGES)?;
    let got = check(rt, alloc, service.as_bytes())?;
    let again = check(rt, alloc, service.as_bytes())?;
    came_of_check(&got, &again)
}

/// What a refused request for memory led to where this came, beside a later run.
fn came_of_check(got: &Replayed, again: &Replayed) -> Result<Came, Wrong> {
    if got.status == 0 && got.output.as_slice() == ACCEPTED {
        return Ok(Came::Nothing);
    }
    if got.status == NO_MEMORY && got.output.is_empty() && again.status == 0 {
        return Ok(Came::Stopped);
    }
    Err(Wrong::Refused)
}
