//! Failures while the requests of a file are answered.
use crate::runs::{Calls, TWICE, replay, sound};
use crate::wrongs::Wrong;
use std::alloc::Global;
use std::num::NonZeroUsize;
use std::thread::Threads;

/// The start of the session, its form, and the same form again, which is stale by then.
const REQUESTS: &[u8] =
    b"GET /go HTTP/1.1\r\nHost: a\r\n\r\nPOST /s/1-0000000000000001/1 HTTP/1.1\r\nHost: a\r\nContent-Type: \
      application/x-www-form-urlencoded\r\nContent-Length: 3\r\n\r\nx=aPOST /s/1-0000000000000001/1 HTTP/1.1\r\nHost: a\r\n\
      Content-Type: application/x-www-form-urlencoded\r\nContent-Length: 3\r\n\r\nx=a";

/// More calls than any run makes.
const CALLS_MOST: u64 = 100_000;

/// The limits on requests, in words: none of the three is answered, one, two, all.
const LIMITS: [&str; 3] = ["1", "2", "3"];

/// What is printed where the first requests are answered, none to all: the outputs that a run may leave behind a read fault.
fn fronts<R: Threads + Sync>(
    rt: &R,
    alloc: Global,
    piece: NonZeroUsize,
) -> Result<Vec<Vec<u8>>, Wrong> {
    let mut all = Vec::new(alloc);
    all.push(Vec::new(alloc))?;
    for limit in LIMITS {
        all.push(replay(rt, alloc, TWICE, REQUESTS, limit, sound(piece))?.output)?;
    }
    Ok(all)
}

/// Has each read of the request file fail in its turn: what is printed then are the replies to some first requests, each
/// whole, and not fewer than where an earlier read failed.
pub fn try_reads<R: Threads + Sync>(rt: &R, alloc: Global, piece: usize) -> Result<u32, Wrong> {
    let piece = NonZeroUsize::new(piece).unwrap_or(NonZeroUsize::MIN);
    let fronts = fronts(rt, alloc, piece)?;
    let tally = failing_reads(rt, alloc, piece, &fronts);
    drop(fronts);
    tally
}

/// How many reads there are to fail.
fn failing_reads<R: Threads + Sync>(
    rt: &R,
    alloc: Global,
    piece: NonZeroUsize,
    fronts: &[Vec<u8>],
) -> Result<u32, Wrong> {
    let mut front = 0;
    for call in 1..CALLS_MOST {
        let calls = Calls {
            piece,
            failing_reads: &[call],
            failing_writes: &[],
        };
        let got = replay(rt, alloc, TWICE, REQUESTS, "3", calls)?;
        let place = place_of(fronts, front, &got.output);
        let status = got.status;
        drop(got);
        let Some(place) = place else {
            return Err(Wrong::Output(call));
        };
        front = place;
        if status == 0 && front == 3 {
            return Ok(u32::try_from(call - 1).unwrap_or(0));
        }
        if status != 5 {
            return Err(Wrong::Status(call));
        }
    }
    Err(Wrong::Status(CALLS_MOST))
}

/// The first place, from this one on, of the outputs that are the same as this one.
fn place_of(fronts: &[Vec<u8>], from: usize, output: &[u8]) -> Option<usize> {
    for place in from..fronts.len() {
        if fronts[place].as_slice() == output {
            return Some(place);
        }
    }
    None
}

/// Has each write to the output fail in its turn: what is printed then is a first part of all that is due, longer with each
/// call.
pub fn try_writes<R: Threads + Sync>(rt: &R, alloc: Global, piece: usize) -> Result<u32, Wrong> {
    let piece = NonZeroUsize::new(piece).unwrap_or(NonZeroUsize::MIN);
    let whole = replay(rt, alloc, TWICE, REQUESTS, "3", sound(piece))?;
    let tally = failing_writes(rt, alloc, piece, &whole.output);
    drop(whole);
    tally
}

/// How many writes there are to fail.
fn failing_writes<R: Threads + Sync>(
    rt: &R,
    alloc: Global,
    piece: NonZeroUsize,
    whole: &[u8],
) -> Result<u32, Wrong> {
    let mut least = 0;
    for call in 1..CALLS_MOST {
        let calls = Calls {
            piece,
            failing_reads: &[],
            failing_writes: &[call],
        };
        let got = replay(rt, alloc, TWICE, REQUESTS, "3", calls)?;
        let len = got.output.len();
        let is_front = len >= least && whole.starts_with(&got.output);
        let status = got.status;
        drop(got);
        if !is_front {
            return Err(Wrong::Output(call));
        }
        if status == 0 && len == whole.len() {
            return Ok(u32::try_from(call - 1).unwrap_or(0));
        }
        if status != 6 || len == whole.len() {
            return Err(Wrong::Status(call));
        }
        least = len.saturating_add(1);
    }
    Err(Wrong::Status(CALLS_MOST))
}
