//! Every call that may fail fails in its turn: the first read, the second, and so on until a run meets no failure, and then
//! the writes, each in pieces of 1, 7 and 4,096 bytes. Requests of a file are answered up to the failure, each earlier reply
//! whole. On a link the failure ends that link alone: the world is as after the last request that was taken, and the links
//! behind it are answered as if nothing had been. Beside a journal, its opening fails, each cut, each piece that is to be kept, and
//! each step by which a new file comes into its place: the program ends, no link that waited holds a byte, and who begins again with
//! the journal answers what was left.
//!
//! With the word `memory` it answers a guest book's requests, checks a service by four workers, shows and explains why one is refused, tells
//! lights, saves sessions, of a journal too, and goes on from them, visits, and serves links beside a journal, which is begun anew or
//! not, for tools/without_memory. It ends with code 20 where a request for memory was refused and a run ended for it, with 21 where a
//! request was answered by 503, and with 22 where there was no memory for the trial itself.
#![tactic(auto)]

mod beside;
mod door;
mod journals;
mod memory;
mod reads;
mod replays;
mod runs;
mod serves;
mod wanting;
mod wrongs;

use crate::memory::Came;
use crate::wrongs::Wrong;
use std::alloc::Global;
use std::env;
use std::process::ExitCode;
use std::thread::Threads;

/// The exit codes with the word `memory`.
const STOPPED: u8 = 20;

const ANSWERED: u8 = 21;

const NO_MEMORY: u8 = 22;

/// How many bytes one read or write takes at most.
const PIECES: [usize; 3] = [1, 7, 4_096];

fn main(rt: HostRuntime) -> ExitCode {
    let alloc = rt.alloc();
    let outcome = match env::args(&rt) {
        Ok(mut words) => match words.nth(1) {
            None => try_all(&rt, alloc).map(Outcome::Failures),
            Some(_) => try_memory(&rt, alloc).map(Outcome::Memory),
        },
        Err(_) => Err(Wrong::Memory),
    };
    match outcome {
        Ok(Outcome::Failures(tally)) => {
            let _ = println!(&rt; "{tally} failures, each as it is due");
            ExitCode::SUCCESS
        }
        Ok(Outcome::Memory(came)) => ExitCode::from(code_of(came)),
        Err(Wrong::Memory) => ExitCode::from(NO_MEMORY),
        Err(wrong) => {
            let _ = println!(&rt; "{wrong}");
            ExitCode::FAILURE
        }
    }
}

/// What is seen.
#[derive(Clone, Copy)]
enum Outcome {
    /// So many calls failed.
    Failures(u32),
    /// What a refused request for memory led to.
    Memory(Came),
}

fn code_of(came: Came) -> u8 {
    match came {
        Came::Nothing => 0,
        Came::Stopped => STOPPED,
        Came::Answered => ANSWERED,
    }
}

/// What the first of the runs came to that came to something.
fn try_memory<R: Threads + Sync>(rt: &R, alloc: Global) -> Result<Came, Wrong> {
    let came = or(
        memory::try_replay(rt, alloc)?,
        memory::try_check(rt, alloc)?,
    );
    let came = or(came, wanting::try_shown(rt, alloc)?);
    let came = or(came, wanting::try_lights(rt, alloc)?);
    let came = or(came, wanting::try_saved(rt, alloc)?);
    let came = or(came, wanting::try_visit(rt, alloc)?);
    let came = or(came, wanting::try_kept(rt, alloc)?);
    let came = or(came, wanting::try_preserved(rt, alloc)?);
    Ok(or(came, wanting::try_anew(rt, alloc)?))
}

/// The first, unless it came to nothing.
fn or(first: Came, second: Came) -> Came {
    match first {
        Came::Nothing => second,
        came => came,
    }
}

/// Tries all failures, and gives how many there were.
fn try_all<R: Threads + Sync>(rt: &R, alloc: Global) -> Result<u32, Wrong> {
    let mut tally = 0u32;
    for piece in PIECES {
        tally = tally.saturating_add(replays::try_reads(rt, alloc, piece)?);
        tally = tally.saturating_add(replays::try_writes(rt, alloc, piece)?);
        tally = tally.saturating_add(serves::try_reads(rt, alloc, piece)?);
        tally = tally.saturating_add(serves::try_writes(rt, alloc, piece)?);
    }
    tally = tally.saturating_add(reads::try_all(rt, alloc)?);
    Ok(tally.saturating_add(journals::try_all(rt, alloc)?))
}
