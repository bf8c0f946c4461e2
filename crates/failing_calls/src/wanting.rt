//! Want of memory where a refusal is shown and explained, where lights are told, where sessions are saved and loaded, in a visit, and beside a
//! journal, which goes on or is begun anew: one request for it is refused.
use crate::beside::{Beside, Kept, keep, left_by};
use crate::journals::JOURNAL_FAULT;
use crate::memory::{Came, GUESTS, NO_MEMORY, NOBODY, OUT_OF_MEMORY};
use crate::runs::{Replayed, told, whole_file};
use crate::serves::REQUESTS;
use crate::wrongs::Wrong;
use std::alloc::Global;
use std::thread::Threads;

/// A service whose page lacks the field that is received, and has an attribute that isn't allowed.
const LACKING: &[u8] =
    b"service Lacking { html Ask = <html><p href=\"x\">Name</p></html>; session go() { string x = \"\"; show Ask receive [x=x]; exit Ask; } }";

/// Formats, and a text of each light.
const FORMATS: &[u8] = b"age [0-9][0-9]?\nword (a|b)+c\n";

/// A request of the guest book, and a script that signs it.
const VISIT: &[u8] = b"GET /visit HTTP/1.1\r\nHost: a\r\n\r\n";

const SCRIPT: &[u8] = b"visit\nwho=Bo\n";

const TEXTS: &[u8] = b"age 4\nage\nword abab\nword x\n";

/// Checks a service that is refused, shown and explained, and says what a refused request for memory led to.
pub fn try_shown<R: Threads + Sync>(rt: &R, alloc: Global) -> Result<Came, Wrong> {
    let folder = [whole_file("s", LACKING)];
    let words = ["check", "s", "--show-source", "--explain"];
    let got = told(rt, alloc, &words, &folder)?;
    let again = told(rt, alloc, &words, &folder)?;
    came_of_words(&got, &again)
}

/// Tells lights, and says what a refused request for memory led to.
pub fn try_lights<R: Threads + Sync>(rt: &R, alloc: Global) -> Result<Came, Wrong> {
    let folder = [whole_file("f", FORMATS), whole_file("t", TEXTS)];
    let words = ["light", "f", "t"];
    let got = told(rt, alloc, &words, &folder)?;
    let again = told(rt, alloc, &words, &folder)?;
    came_of_words(&got, &again)
}

/// What waits behind a request of the guest book, as a file.
fn saved<R: Threads + Sync>(rt: &R, alloc: Global) -> Result<Replayed, Wrong> {
    let folder = [whole_file("s", GUESTS), whole_file("r", VISIT)];
    told(rt, alloc, &["freeze", "s", "r"], &folder)
}

/// Saves again what is loaded from a file.
fn saved_again<R: Threads + Sync>(rt: &R, alloc: Global, file: &[u8]) -> Result<Replayed, Wrong> {
    let folder = [
        whole_file("s", GUESTS),
        whole_file("r", b""),
        whole_file("l", file),
    ];
    told(rt, alloc, &["freeze", "s", "r", "--load", "l"], &folder)
}

/// Saves sessions and goes on from them, and says what a refused request for memory led to.
pub fn try_saved<R: Threads + Sync>(rt: &R, alloc: Global) -> Result<Came, Wrong> {
    let got = saved(rt, alloc)?;
    let again = saved(rt, alloc)?;
    let came = came_of_words(&got, &again)?;
    let file = if again.output.is_empty() { got } else { again };
    let got = saved_again(rt, alloc, &file.output)?;
    let again = saved_again(rt, alloc, &file.output)?;
    let later = came_of_words(&got, &again)?;
    Ok(if came == Came::Nothing { later } else { came })
}

/// Visits the guest book.
fn visited<R: Threads + Sync>(rt: &R, alloc: Global) -> Result<Replayed, Wrong> {
    let folder = [whole_file("s", GUESTS), whole_file("v", SCRIPT)];
    told(rt, alloc, &["visit", "s", "v"], &folder)
}

/// Visits, and says what a refused request for memory led to.
pub fn try_visit<R: Threads + Sync>(rt: &R, alloc: Global) -> Result<Came, Wrong> {
    let got = visited(rt, alloc)?;
    let again = visited(rt, alloc)?;
    let later = visited(rt, alloc)?;
    if got.output == again.output || got.output == later.output {
        return Ok(Came::Nothing);
    }
    came_of_visit(&got, if again.status == 0 { &again } else { &later })
}

/// What a refused request for memory led to where this came of a visit, beside all replies that are due: some first ones, and then
/// nothing, or the reply that there was no memory, at which a visit is over.
fn came_of_visit(got: &Replayed, due: &Replayed) -> Result<Came, Wrong> {
    if got.status == NO_MEMORY && due.output.starts_with(&got.output) {
        return Ok(Came::Stopped);
    }
    let front = got.output.len().saturating_sub(OUT_OF_MEMORY.len());
    if got.status == 0
        && got.output.ends_with(OUT_OF_MEMORY)
        && due.output.starts_with(&got.output[..front])
    {
        return Ok(Came::Answered);
    }
    Err(Wrong::Refused)
}

/// Whether a run ended for want of memory, and had printed nothing.
fn is_stopped(run: &Replayed) -> bool {
    run.status == NO_MEMORY && run.output.is_empty()
}

/// What a refused request for memory led to where this came, beside a later run.
fn came_of_words(got: &Replayed, again: &Replayed) -> Result<Came, Wrong> {
    if is_stopped(got) {
        return Ok(Came::Stopped);
    }
    let are_alike = got.status == again.status && got.output == again.output;
    if are_alike || is_stopped(again) {
        return Ok(Came::Nothing);
    }
    Err(Wrong::Refused)
}

/// Saves what a journal brings back, and says what a refused request for memory led to.
pub fn try_preserved<R: Threads + Sync>(rt: &R, alloc: Global) -> Result<Came, Wrong> {
    let folder = [whole_file("s", GUESTS), whole_file("r", VISIT)];
    let words = ["replay", "s", "r", "--journal", "j"];
    let journal = left_by(rt, alloc, &words, &folder, b"")?;
    let folder = [whole_file("s", GUESTS), whole_file("j", &journal)];
    let words = ["freeze", "s", "--journal", "j"];
    let got = told(rt, alloc, &words, &folder)?;
    let again = told(rt, alloc, &words, &folder)?;
    came_of_words(&got, &again)
}

/// What comes beside a journal: requests, what it holds before, and whether it is begun anew.
#[derive(Clone, Copy)]
struct Comes<'a> {
    requests: &'a [&'a [u8]],
    journal: &'a [u8],
    rotates: bool,
}

/// Serves a link for each request beside a journal, with another request in the place of the one at `without`.
fn served<R: Threads + Sync>(
    rt: &R,
    alloc: Global,
    comes: Comes<'_>,
    without: usize,
    other: &[u8],
) -> Result<Kept, Wrong> {
    let mut requests = Vec::new(alloc);
    for (place, request) in comes.requests.iter().enumerate() {
        requests.push(if place == without { other } else { request })?;
    }
    let beside = Beside {
        journal: comes.journal,
        is_ready: false,
        rotates: comes.rotates,
        openings: &[],
        failing: &[],
    };
    keep(rt, alloc, &requests, beside)
}

/// Serves links beside a new journal, and says what a refused request for memory led to.
pub fn try_kept<R: Threads + Sync>(rt: &R, alloc: Global) -> Result<Came, Wrong> {
    let comes = Comes {
        requests: &REQUESTS,
        journal: &[],
        rotates: false,
    };
    came_beside(rt, alloc, comes)
}

/// The same beside one that has the first request and is begun anew.
pub fn try_anew<R: Threads + Sync>(rt: &R, alloc: Global) -> Result<Came, Wrong> {
    let (first, others) = REQUESTS.split_at(1);
    let comes = Comes {
        requests: first,
        journal: &[],
        rotates: false,
    };
    let begun = served(rt, alloc, comes, first.len(), b"")?;
    let comes = Comes {
        requests: others,
        journal: &begun.journal,
        rotates: true,
    };
    let came = came_beside(rt, alloc, comes);
    drop(begun);
    came
}

/// Serves links beside a journal, and says what a refused request for memory led to.
fn came_beside<R: Threads + Sync>(rt: &R, alloc: Global, comes: Comes<'_>) -> Result<Came, Wrong> {
    let all = comes.requests.len();
    let got = served(rt, alloc, comes, all, b"")?;
    let first = served(rt, alloc, comes, all, b"")?;
    let second = served(rt, alloc, comes, all, b"")?;
    if are_alike(&got, &first) || are_alike(&got, &second) {
        return Ok(Came::Nothing);
    }
    came_of_kept(rt, alloc, comes, &got)
}

/// Whether all that came is the same.
fn are_alike(kept: &Kept, other: &Kept) -> bool {
    kept.status == other.status
        && kept.output == other.output
        && kept.held == other.held
        && kept.journal == other.journal
}

/// What a refused request for memory led to where this came, which isn't what is due without one.
fn came_of_kept<R: Threads + Sync>(
    rt: &R,
    alloc: Global,
    comes: Comes<'_>,
    got: &Kept,
) -> Result<Came, Wrong> {
    if got.status == JOURNAL_FAULT {
        // The journal in memory had none for what was to be kept.
        return Err(Wrong::Memory);
    }
    if got.status == NO_MEMORY {
        let is_as_it_was = got.journal.as_slice() == comes.journal;
        return if got.output.is_empty() && got.held.is_empty() && is_as_it_was {
            Ok(Came::Stopped)
        } else {
            Err(Wrong::Refused)
        };
    }
    for place in 0..comes.requests.len() {
        if got.status == 0 && is_without(rt, alloc, comes, got, place)? {
            return Ok(Came::Answered);
        }
    }
    Err(Wrong::Refused)
}

/// Whether all is as it is where the request at this place wasn't sent, but for its reply. Where there was no memory to read it,
/// it has no key; else it has one, as a request that changes nothing.
fn is_without<R: Threads + Sync>(
    rt: &R,
    alloc: Global,
    comes: Comes<'_>,
    got: &Kept,
    place: usize,
) -> Result<bool, Wrong> {
    let unread = served(rt, alloc, comes, place, b"")?;
    let unanswered = served(rt, alloc, comes, place, NOBODY)?;
    Ok(differ_by_one_reply(got, &unread, place) || differ_by_one_reply(got, &unanswered, place))
}

/// Whether both are the same but for the reply on the link of this place: here it is that there was no memory.
fn differ_by_one_reply(got: &Kept, other: &Kept, place: usize) -> bool {
    for (number, held) in got.held.iter().enumerate() {
        let is_due = if number == place {
            held.as_slice() == OUT_OF_MEMORY
        } else {
            other.held.get(number) == Some(held)
        };
        if !is_due {
            return false;
        }
    }
    got.held.len() == other.held.len() && got.journal == other.journal
}
