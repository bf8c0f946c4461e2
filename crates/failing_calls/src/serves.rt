//! Failures on a link that is served.
use crate::runs::{Calls, Served, serve, sound};
use crate::wrongs::Wrong;
use std::alloc::Global;
use std::num::NonZeroUsize;
use std::thread::Threads;

/// The start of the session.
const START: &[u8] = b"GET /go HTTP/1.1\r\nHost: a\r\n\r\n";

/// The first form, on the link that fails.
const FORM: &[u8] =
    b"POST /s/1-0000000000000001/1 HTTP/1.1\r\nHost: a\r\nContent-Type: application/x-www-form-urlencoded\r\nContent-Length: 3\r\n\r\nx=a";

/// The page of the first turn, and that of the second.
const FIRST: &[u8] = b"GET /s/1-0000000000000001/1 HTTP/1.1\r\nHost: a\r\n\r\n";

const SECOND: &[u8] = b"GET /s/1-0000000000000001/2 HTTP/1.1\r\nHost: a\r\n\r\n";

/// A stream without a request, in place of a form that was never sent.
const NOTHING: &[u8] = b"";

/// The place of the link that fails.
const FAILING: usize = 1;

/// More calls than any run makes.
const CALLS_MOST: u64 = 100_000;

/// What the link of this place holds.
fn held(served: &Served, place: usize) -> &[u8] {
    match served.held.get(place) {
        Some(held) => held.as_slice(),
        None => &[],
    }
}

/// Whether all links but the one that fails hold the same.
fn are_alike(served: &Served, other: &Served) -> bool {
    for place in 0..4 {
        if place != FAILING && held(served, place) != held(other, place) {
            return false;
        }
    }
    served.held.len() == other.held.len()
}

/// The requests of the links.
pub const REQUESTS: [&[u8]; 4] = [START, FORM, FIRST, SECOND];

/// Has each read of the link fail in its turn: nothing is answered on it, and the session stands at its first turn, as if the
/// form had never been sent.
pub fn try_reads<R: Threads + Sync>(rt: &R, alloc: Global, piece: usize) -> Result<u32, Wrong> {
    let piece = NonZeroUsize::new(piece).unwrap_or(NonZeroUsize::MIN);
    let without = serve(
        rt,
        alloc,
        &[START, NOTHING, FIRST, SECOND],
        FAILING,
        sound(piece),
    )?;
    let tally = reads_beside(rt, alloc, piece, &without);
    drop(without);
    tally
}

/// The same beside what comes without the form.
fn reads_beside<R: Threads + Sync>(
    rt: &R,
    alloc: Global,
    piece: NonZeroUsize,
    without: &Served,
) -> Result<u32, Wrong> {
    let whole = serve(rt, alloc, &REQUESTS, FAILING, sound(piece))?;
    let tally = failing_reads(rt, alloc, piece, without, &whole);
    drop(whole);
    tally
}

/// How many reads there are to fail.
fn failing_reads<R: Threads + Sync>(
    rt: &R,
    alloc: Global,
    piece: NonZeroUsize,
    without: &Served,
    whole: &Served,
) -> Result<u32, Wrong> {
    for call in 1..CALLS_MOST {
        let calls = Calls {
            piece,
            failing_reads: &[call],
            failing_writes: &[],
        };
        let got = serve(rt, alloc, &REQUESTS, FAILING, calls)?;
        let is_whole = read_came(&got, call, without, whole);
        drop(got);
        if is_whole? {
            return Ok(u32::try_from(call - 1).unwrap_or(0));
        }
    }
    Err(Wrong::Status(CALLS_MOST))
}

/// Whether no read failed; what came has to be as it is due.
fn read_came(got: &Served, call: u64, without: &Served, whole: &Served) -> Result<bool, Wrong> {
    if got.status != 0 {
        return Err(Wrong::Status(call));
    }
    if held(got, FAILING) == held(whole, FAILING) && are_alike(got, whole) {
        return Ok(true);
    }
    if !held(got, FAILING).is_empty() {
        return Err(Wrong::Output(call));
    }
    if !are_alike(got, without) {
        return Err(Wrong::Later(call));
    }
    Ok(false)
}

/// Has each write to the link fail in its turn: it holds a first part of the page, longer with each call, and the session
/// stands at its second turn, as after the whole page.
pub fn try_writes<R: Threads + Sync>(rt: &R, alloc: Global, piece: usize) -> Result<u32, Wrong> {
    let piece = NonZeroUsize::new(piece).unwrap_or(NonZeroUsize::MIN);
    let whole = serve(rt, alloc, &REQUESTS, FAILING, sound(piece))?;
    let tally = failing_writes(rt, alloc, piece, &whole);
    drop(whole);
    tally
}

/// How many writes there are to fail.
fn failing_writes<R: Threads + Sync>(
    rt: &R,
    alloc: Global,
    piece: NonZeroUsize,
    whole: &Served,
) -> Result<u32, Wrong> {
    let all = held(whole, FAILING).len();
    let mut least = 0;
    for call in 1..CALLS_MOST {
        let calls = Calls {
            piece,
            failing_reads: &[],
            failing_writes: &[call],
        };
        let got = serve(rt, alloc, &REQUESTS, FAILING, calls)?;
        let part = part_held(&got, call, least, whole);
        drop(got);
        let part = part?;
        if part == all {
            return Ok(u32::try_from(call - 1).unwrap_or(0));
        }
        least = part.saturating_add(1);
    }
    Err(Wrong::Status(CALLS_MOST))
}

/// How much of the page the link holds, which is at least so much; what came has to be as it is due.
fn part_held(got: &Served, call: u64, least: usize, whole: &Served) -> Result<usize, Wrong> {
    let part = held(got, FAILING);
    if got.status != 0 {
        return Err(Wrong::Status(call));
    }
    if part.len() < least || !held(whole, FAILING).starts_with(part) {
        return Err(Wrong::Output(call));
    }
    if !are_alike(got, whole) {
        return Err(Wrong::Later(call));
    }
    Ok(part.len())
}
