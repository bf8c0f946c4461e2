//! Two workers are at work at the same time: the check of a service with two pages is told where each begins, and there each
//! waits, for a bounded time, until it has seen that the other began. No clause can say that both get that far, so this is
//! tried, through the whole of `run`. It needs a machine where two threads can be made.

use crate::outcomes::outcome_of;
use crate::outside::Outside;
use bw_out::Pulse;
use case_files::Fault;
use std::alloc::Global;
use std::sync::atomic::{AtomicBool, Ordering};
use std::thread::Threads;

/// A service of two pieces.
const SERVICE: &str =
    "service Two { html P = <html><p>x</p></html>; session s() { show P; exit P; } }";

/// How often a piece looks for the other one.
const LOOKS: u32 = 200_000_000;

/// What one piece tells the other, and what it has seen.
#[derive(Drop)]
struct Side {
    began: AtomicBool,
    met: AtomicBool,
}

impl Side {
    fn new() -> Side {
        Side {
            began: AtomicBool::new(false),
            met: AtomicBool::new(false),
        }
    }
}

/// A pulse of two pieces that wait for one another.
#[derive(Drop)]
struct Meeting {
    first: Side,
    second: Side,
}

/// Says that a piece began, and looks for the other one.
fn meet(mine: &Side, other: &Side) {
    mine.began.store(true, Ordering::SeqCst);
    for look in 0..LOOKS {
        if other.began.load(Ordering::SeqCst) {
            mine.met.store(true, Ordering::SeqCst);
            return;
        }
    }
}

impl Pulse for Meeting {
    fn at(&self, piece: u32) {
        if piece == 0 {
            meet(&self.first, &self.second);
        } else {
            meet(&self.second, &self.first);
        }
    }
}

/// Has the two pieces meet, and prints the exit code and whether each saw the other.
pub fn try_meeting<R: AllocGlobal + Print + Threads + Sync>(rt: &R) -> Result<(), Fault> {
    let meeting = Meeting {
        first: Side::new(),
        second: Side::new(),
    };
    let code = code_of(rt, rt.alloc(), &meeting);
    let first = meeting.first.met.load(Ordering::SeqCst);
    let second = meeting.second.met.load(Ordering::SeqCst);
    drop(meeting);
    let code = code?;
    println!(rt;
        "code {code}, the first piece met the second: {first}, the second the first: {second}"
    )?;
    Ok(())
}

/// The exit code of the check.
fn code_of<R: Threads + Sync>(rt: &R, alloc: Global, meeting: &Meeting) -> Result<u8, Fault> {
    let mut outside = Outside::new(alloc, "check s --workers 2")?;
    let code = code_over(rt, alloc, meeting, &mut outside);
    drop(outside);
    code
}

/// The same over this outside, which has no file yet.
fn code_over<R: Threads + Sync>(
    rt: &R,
    alloc: Global,
    meeting: &Meeting,
    outside: &mut Outside<'_>,
) -> Result<u8, Fault> {
    outside.add_file(alloc, "s", SERVICE.as_bytes().to_vec(alloc)?)?;
    let outcome = outcome_of(rt, alloc, outside, meeting)?;
    let code = outcome.status;
    drop(outcome);
    Ok(code)
}
