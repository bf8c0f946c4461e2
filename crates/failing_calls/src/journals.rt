//! Failures of a journal.
use crate::beside::{Beside, Kept, keep};
use crate::serves::REQUESTS;
use crate::wrongs::Wrong;
use std::alloc::Global;
use std::thread::Threads;

/// What is printed where the journal fails before a port is asked for, and behind.
const FAULT: &[u8] = b"journal fault\n";

const SERVED: &[u8] = b"serving 8080\njournal fault\n";

/// The exit code then.
pub const JOURNAL_FAULT: u8 = 17;

/// More calls than any run makes.
const CALLS_MOST: u64 = 100_000;

/// The calls by which a new file comes into a journal's place, up to the one that gives it the name.
const CALLS_UP_TO_NAME: u64 = 3;

/// Requests that come beside a journal.
#[derive(Clone, Copy)]
struct Trial<'a> {
    requests: &'a [&'a [u8]],
    beside: Beside<'a>,
}

impl<'a> Trial<'a> {
    /// The same where these calls fail.
    fn with(self, openings: &'a [u64], failing: &'a [u64]) -> Trial<'a> {
        let beside = Beside {
            openings,
            failing,
            ..self.beside
        };
        Trial { beside, ..self }
    }

    /// What comes of it.
    fn kept<R: Threads + Sync>(self, rt: &R, alloc: Global) -> Result<Kept, Wrong> {
        keep(rt, alloc, self.requests, self.beside)
    }
}

/// Has each call of a journal fail in its turn: of one that isn't there yet and of one that has the first request, which goes on or is
/// begun anew, where each link is kept for itself and where all are kept together.
pub fn try_all<R: Threads + Sync>(rt: &R, alloc: Global) -> Result<u32, Wrong> {
    let mut tally = 0u32;
    for is_ready in [false, true] {
        tally = tally.saturating_add(try_new(rt, alloc, is_ready)?);
        for rotates in [false, true] {
            tally = tally.saturating_add(try_begun(rt, alloc, is_ready, rotates)?);
        }
    }
    Ok(tally)
}

/// The same of a journal that isn't there yet.
fn try_new<R: Threads + Sync>(rt: &R, alloc: Global, is_ready: bool) -> Result<u32, Wrong> {
    let trial = Trial {
        requests: &REQUESTS,
        beside: sound(&[], is_ready, false),
    };
    try_calls(rt, alloc, trial)
}

/// The same of a journal that has the first request, and is begun anew or not.
fn try_begun<R: Threads + Sync>(
    rt: &R,
    alloc: Global,
    is_ready: bool,
    rotates: bool,
) -> Result<u32, Wrong> {
    let (first, others) = REQUESTS.split_at(1);
    let begun = keep(rt, alloc, first, sound(&[], is_ready, false))?;
    let trial = Trial {
        requests: others,
        beside: sound(&begun.journal, is_ready, rotates),
    };
    let tally = try_calls(rt, alloc, trial);
    drop(begun);
    tally
}

/// A journal that holds this, of which no call fails.
fn sound(journal: &[u8], is_ready: bool, rotates: bool) -> Beside<'_> {
    Beside {
        journal,
        is_ready,
        rotates,
        openings: &[],
        failing: &[],
    }
}

/// How many calls there are to fail, the opening among them.
fn try_calls<R: Threads + Sync>(rt: &R, alloc: Global, trial: Trial<'_>) -> Result<u32, Wrong> {
    let whole = trial.kept(rt, alloc)?;
    let tally = fail_calls(rt, alloc, trial, &whole);
    drop(whole);
    tally
}

/// The same, where this comes if none fails.
fn fail_calls<R: Threads + Sync>(
    rt: &R,
    alloc: Global,
    trial: Trial<'_>,
    whole: &Kept,
) -> Result<u32, Wrong> {
    let unopened = trial.with(&[1], &[]).kept(rt, alloc)?;
    let is_due = came_before(rt, alloc, &unopened, 0, trial, whole);
    drop(unopened);
    is_due?;
    for call in 1..CALLS_MOST {
        let failing = [call];
        let got = trial.with(&[], &failing).kept(rt, alloc)?;
        let is_whole = came(rt, alloc, &got, call, trial, whole);
        drop(got);
        if is_whole? {
            return Ok(u32::try_from(call).unwrap_or(0));
        }
    }
    Err(Wrong::Status(CALLS_MOST))
}

/// Whether no call failed; what came has to be as it is due.
fn came<R: Threads + Sync>(
    rt: &R,
    alloc: Global,
    got: &Kept,
    call: u64,
    trial: Trial<'_>,
    whole: &Kept,
) -> Result<bool, Wrong> {
    if got.status == 0 {
        return are_alike(got, whole, call);
    }
    if got.output.as_slice() == FAULT {
        came_before(rt, alloc, got, call, trial, whole)?;
    } else {
        came_behind(rt, alloc, got, call, trial, whole)?;
    }
    Ok(false)
}

/// Both have to be the same.
fn are_alike(got: &Kept, whole: &Kept, call: u64) -> Result<bool, Wrong> {
    if whole.status != 0 || got.output != whole.output {
        return Err(Wrong::Output(call));
    }
    if got.held != whole.held {
        return Err(Wrong::Later(call));
    }
    if got.journal != whole.journal {
        return Err(Wrong::Journal(call));
    }
    Ok(true)
}

/// Looks at what came where a call failed before a port was asked for: no link came, the journal is as it was, or begun anew where the
/// new file has its name, and who begins again with it answers all links as if nothing had been.
fn came_before<R: Threads + Sync>(
    rt: &R,
    alloc: Global,
    got: &Kept,
    call: u64,
    trial: Trial<'_>,
    whole: &Kept,
) -> Result<(), Wrong> {
    if got.status != JOURNAL_FAULT {
        return Err(Wrong::Status(call));
    }
    if got.output.as_slice() != FAULT || !got.held.is_empty() {
        return Err(Wrong::Output(call));
    }
    if trial.beside.rotates && call > CALLS_UP_TO_NAME {
        look_at_journal(rt, alloc, got, call, trial)?;
    } else if got.journal.as_slice() != trial.beside.journal {
        return Err(Wrong::Journal(call));
    }
    go_on(rt, alloc, got, call, trial, whole)
}

/// Looks at what came where a call failed behind: some first links were answered, and others, one at least, hold nothing.
fn came_behind<R: Threads + Sync>(
    rt: &R,
    alloc: Global,
    got: &Kept,
    call: u64,
    trial: Trial<'_>,
    whole: &Kept,
) -> Result<(), Wrong> {
    if got.status != JOURNAL_FAULT {
        return Err(Wrong::Status(call));
    }
    if got.output.as_slice() != SERVED || !are_first(got, whole) {
        return Err(Wrong::Output(call));
    }
    look_at_journal(rt, alloc, got, call, trial)?;
    go_on(rt, alloc, got, call, trial, whole)
}

/// How many first links hold something.
fn answered_of(got: &Kept) -> usize {
    got.held.iter().take_while(|held| !held.is_empty()).count()
}

/// Whether some first links hold what is due, and the others, one at least, nothing.
fn are_first(got: &Kept, whole: &Kept) -> bool {
    let answered = answered_of(got);
    for (place, held) in got.held.iter().enumerate() {
        let is_due = if place < answered {
            held.as_slice() == held_by(whole, place)
        } else {
            held.is_empty()
        };
        if !is_due {
            return false;
        }
    }
    got.held.len() > answered
}

/// What the link of this place holds.
fn held_by(kept: &Kept, place: usize) -> &[u8] {
    match kept.held.get(place) {
        Some(held) => held.as_slice(),
        None => &[],
    }
}

/// The requests of the links that were answered, and the others.
fn parts_of<'a>(trial: Trial<'a>, got: &Kept) -> (&'a [&'a [u8]], &'a [&'a [u8]]) {
    let answered = answered_of(got).min(trial.requests.len());
    trial.requests.split_at(answered)
}

/// Looks that the journal holds what it would if no link had come behind those that were answered.
fn look_at_journal<R: Threads + Sync>(
    rt: &R,
    alloc: Global,
    got: &Kept,
    call: u64,
    trial: Trial<'_>,
) -> Result<(), Wrong> {
    let (requests, _) = parts_of(trial, got);
    let front = Trial { requests, ..trial }.kept(rt, alloc)?;
    let is_due = front.journal == got.journal;
    drop(front);
    if !is_due {
        return Err(Wrong::Journal(call));
    }
    Ok(())
}

/// Looks that who begins again with the journal answers the links that weren't answered as if nothing had been.
fn go_on<R: Threads + Sync>(
    rt: &R,
    alloc: Global,
    got: &Kept,
    call: u64,
    trial: Trial<'_>,
    whole: &Kept,
) -> Result<(), Wrong> {
    let (_, others) = parts_of(trial, got);
    let beside = sound(&got.journal, trial.beside.is_ready, trial.beside.rotates);
    let later = keep(rt, alloc, others, beside)?;
    let is_due = later.status == 0 && are_last(&later, answered_of(got), whole);
    drop(later);
    if !is_due {
        return Err(Wrong::Later(call));
    }
    Ok(())
}

/// Whether the links hold what is due behind so many others.
fn are_last(later: &Kept, answered: usize, whole: &Kept) -> bool {
    for (place, held) in later.held.iter().enumerate() {
        if held.as_slice() != held_by(whole, answered.saturating_add(place)) {
            return false;
        }
    }
    answered.saturating_add(later.held.len()) == whole.held.len()
}
