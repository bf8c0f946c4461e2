//! Runs of the whole program over forms in memory whose calls fail as they are told to.
ghost use Rattle.std.specs.Prelude.{◌≡◌, ◌<◌};

use crate::wrongs::Wrong;
use bigwig::run;
use bw_lang::{Memory, Text, Words};
use bw_out::{MemDoor, MemFile, MemFiles, MemKeys, MemLink, MemSink, MemSource, Quiet, Steps};
use bw_stable::{MemJournals, WideDoor};
use std::alloc::Global;
use std::marker::Brand;
use std::num::NonZeroUsize;
use std::sync::ledger::{Blank, Ledger};
use std::thread::Threads;

/// A service whose session shows two pages, each with a field, and then a last one.
pub const TWICE: &[u8] =
    b"service Twice { html Q = <html><p><[t]> <input name=\"x\"/></p></html>; session go() { string x = \"\"; show \
      Q<[t=\"one\"] receive [x=x]; show Q<[t=x] receive [x=x]; exit Q<[t=x]; } }";

/// Room for all that is printed.
pub const ROOM: usize = 65_536;

/// How the calls of one file or link go: how many bytes one takes, and the numbers of the reads and writes that fail.
#[derive(Clone, Copy)]
pub struct Calls<'a> {
    pub piece: NonZeroUsize,
    pub failing_reads: &'a [u64],
    pub failing_writes: &'a [u64],
}

/// Calls that don't fail, of which each takes at most so many bytes.
pub fn sound(piece: NonZeroUsize) -> Calls<'static> {
    Calls {
        piece,
        failing_reads: &[],
        failing_writes: &[],
    }
}

/// What a run printed, and its exit code.
#[derive(Drop)]
pub struct Replayed {
    pub status: u8,
    pub output: Vec<u8>,
}

/// A file that is read as a whole.
pub fn whole_file<'a>(name: &'a str, content: &'a [u8]) -> MemFile<'a> {
    MemFile {
        name,
        content,
        piece: usize::MAX,
        failing: &[],
    }
}

/// The file of a service.
pub fn service_file(content: &[u8]) -> MemFile<'_> {
    whole_file("s", content)
}

/// Answers the requests of a file by a service, at most `limit` of them, with calls that go so for the request file and the
/// output.
pub fn replay<R: Threads + Sync>(
    rt: &R,
    alloc: Global,
    service: &[u8],
    requests: &[u8],
    limit: &str,
    calls: Calls<'_>,
) -> Result<Replayed, Wrong> {
    let requests = MemFile {
        name: "r",
        content: requests,
        piece: calls.piece.get(),
        failing: calls.failing_reads,
    };
    let out = MemSink::new(alloc, ROOM, calls.piece.get(), calls.failing_writes)?;
    printed(
        rt,
        alloc,
        &["replay", "s", "r", "--limit", limit],
        &[service_file(service), requests],
        out,
    )
}

/// Checks a service by four workers.
pub fn check<R: Threads + Sync>(rt: &R, alloc: Global, service: &[u8]) -> Result<Replayed, Wrong> {
    let words = ["check", "s", "--workers", "4"];
    told(rt, alloc, &words, &[service_file(service)])
}

/// What a command prints that reads these files.
pub fn told<R: Threads + Sync>(
    rt: &R,
    alloc: Global,
    words: &[&str],
    folder: &[MemFile<'_>],
) -> Result<Replayed, Wrong> {
    let out = MemSink::new(alloc, ROOM, usize::MAX, &[])?;
    printed(rt, alloc, words, folder, out)
}

/// What a run that serves nothing prints to this output.
fn printed<R: Threads + Sync>(
    rt: &R,
    alloc: Global,
    words: &[&str],
    folder: &[MemFile<'_>],
    out: MemSink<'_>,
) -> Result<Replayed, Wrong> {
    let mut lent = Lent {
        journals: no_journal(alloc),
        door: MemDoor::new(alloc, Vec::new(alloc))?,
        out,
    };
    let status = status_of(rt, alloc, words, folder, &mut lent);
    let output = Vec::from_slice(alloc, lent.out.bytes());
    drop(lent);
    Ok(Replayed {
        status: status?,
        output: output?,
    })
}

/// What a run is lent in memory beside its files and its keys.
#[derive(Drop)]
pub struct Lent<'a, D> {
    pub journals: MemJournals<'a>,
    pub door: D,
    pub out: MemSink<'a>,
}

/// A journal of which nobody asks.
fn no_journal(alloc: Global) -> MemJournals<'static> {
    MemJournals::new(Vec::new(alloc), &[], &[])
}

/// What each link of a run holds, and the run's exit code.
#[derive(Drop)]
pub struct Served {
    pub status: u8,
    pub held: Vec<Vec<u8>>,
}

/// Serves these links, of which the one at `place` has calls that go so.
pub fn serve<R: Threads + Sync>(
    rt: &R,
    alloc: Global,
    requests: &[&[u8]],
    place: usize,
    calls: Calls<'_>,
) -> Result<Served, Wrong> {
    let mut lent = Lent {
        journals: no_journal(alloc),
        door: door_of(alloc, requests, place, calls)?,
        out: MemSink::new(alloc, ROOM, usize::MAX, &[])?,
    };
    let served = serve_by(rt, alloc, &mut lent);
    drop(lent);
    served
}

/// Serves the links of a door.
fn serve_by<R: Threads + Sync>(
    rt: &R,
    alloc: Global,
    lent: &mut Lent<'_, MemDoor<'_>>,
) -> Result<Served, Wrong> {
    let folder = [service_file(TWICE)];
    let status = status_of(rt, alloc, &["serve", "s"], &folder, lent);
    Ok(Served {
        status: status?,
        held: held_by(alloc, lent.door.returned())?,
    })
}

/// A door with these links.
pub fn door_of<'a>(
    alloc: Global,
    requests: &[&'a [u8]],
    place: usize,
    calls: Calls<'a>,
) -> Result<MemDoor<'a>, Wrong> {
    let mut links = Vec::new(alloc);
    match add_links(alloc, &mut links, requests, place, calls) {
        Ok(()) => Ok(MemDoor::new(alloc, links)?),
        Err(wrong) => {
            drop(links);
            Err(wrong)
        }
    }
}

fn add_links<'a>(
    alloc: Global,
    links: &mut Vec<MemLink<'a>>,
    requests: &[&'a [u8]],
    place: usize,
    calls: Calls<'a>,
) -> Result<(), Wrong> {
    for (number, request) in requests.iter().enumerate() {
        let these = if number == place {
            calls
        } else {
            sound(NonZeroUsize::MAX)
        };
        links.push(link_of(alloc, request, these)?)?;
    }
    Ok(())
}

/// A link whose client sends this request.
fn link_of<'a>(alloc: Global, request: &'a [u8], calls: Calls<'a>) -> Result<MemLink<'a>, Wrong> {
    let piece = calls.piece.get();
    Ok(MemLink {
        source: MemSource::new(request, piece, calls.failing_reads),
        sink: MemSink::new(alloc, ROOM, piece, calls.failing_writes)?,
    })
}

/// What each of these links holds.
pub fn held_by(alloc: Global, links: &[MemLink<'_>]) -> Result<Vec<Vec<u8>>, Wrong> {
    let mut held = Vec::new(alloc);
    for link in links {
        held.push(Vec::from_slice(alloc, link.sink.bytes())?)?;
    }
    Ok(held)
}

fn words_of(alloc: Global, words: &[&str]) -> Result<Words, Memory> {
    let mut all = Words::new(alloc);
    for word in words {
        all.push(Text::of(alloc, word)?)?;
    }
    Ok(all)
}

/// The exit code of a run by these words.
pub fn status_of<R: Threads + Sync, D: WideDoor>(
    rt: &R,
    alloc: Global,
    words: &[&str],
    folder: &[MemFile<'_>],
    lent: &mut Lent<'_, D>,
) -> Result<u8, Wrong> {
    let words = words_of(alloc, words)?;
    let status = counted::<Brand, R, D>(rt, alloc, &words, folder, lent, Blank::new(1));
    drop(words);
    Ok(status)
}

/// Runs the program with keys from 1, and a count of steps that nobody reads, and gives its exit code.
fn counted<L: Ledger, R: Threads + Sync, D: WideDoor>(
    rt: &R,
    alloc: Global,
    words: &Words,
    folder: &[MemFile<'_>],
    lent: &mut Lent<'_, D>,
    blank: Blank,
) -> u8
    requires name { blank.name ≡ L.name }
    requires parts { blank.parts ≡ L.parts }
    requires some { 0 < blank.parts }
{
    let mut steps: Steps<L> = Steps::new(blank);
    let mut files = MemFiles::new(folder, &[]);
    let mut keys = MemKeys::new(&[1, 2, 3, 4, 5, 6]);
    run(
        rt,
        alloc,
        words,
        &mut files,
        &mut lent.journals,
        &mut lent.door,
        &mut keys,
        &mut lent.out,
        &Quiet,
        &mut steps,
    )
    .code()
}
