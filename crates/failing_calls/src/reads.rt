//! Failures of the files that a command reads before its work: the service, formats, texts, saved sessions, scripts and journals. Each
//! read of one fails in its turn, and nothing is printed then.
use crate::beside::left_by;
use crate::memory::GUESTS;
use crate::runs::{Replayed, told, whole_file};
use crate::wrongs::Wrong;
use bw_out::MemFile;
use std::alloc::Global;
use std::thread::Threads;

/// How many bytes one read takes.
const PIECE: usize = 7;

/// More calls than any run makes.
const CALLS_MOST: u64 = 100_000;

/// The exit code of a run whose file could not be read.
const READ_FAULT: u8 = 5;

/// The exit code of a run whose service is refused.
const REFUSED: u8 = 3;

/// A request of the guest book.
const REQUEST: &[u8] = b"GET /visit HTTP/1.1\r\nHost: a\r\n\r\n";

/// The files that no run leaves: a guest book, a service that is refused and the schema that refuses it, a request of the guest
/// book, formats of its field, texts, and a script.
const FILES: [(&str, &[u8]); 7] = [
    ("s", GUESTS),
    (
        "b",
        b"service A { html H = <html><p href=\"x\">x</p></html>; session s() { exit H; } }",
    ),
    ("x", b"schema 1\nroot x\nelement x\n"),
    ("r", REQUEST),
    ("f", b"who [A-Za-z]+\n"),
    ("t", b"who Bo\n"),
    ("v", b"visit\nwho=Bo\n"),
];

/// A command, the file of which a read fails, and the exit code of a run in which none does.
#[derive(Clone, Copy)]
struct Trial {
    words: &'static [&'static str],
    file: &'static str,
    code: u8,
}

/// Words of which two files are read.
const EXPLAINED: &[&str] = &["check", "b", "--schema", "x", "--explain"];

const TRIALS: [Trial; 13] = [
    Trial {
        words: &["check", "s"],
        file: "s",
        code: 0,
    },
    Trial {
        words: EXPLAINED,
        file: "b",
        code: REFUSED,
    },
    Trial {
        words: EXPLAINED,
        file: "x",
        code: REFUSED,
    },
    Trial {
        words: &["light", "f", "t"],
        file: "f",
        code: 0,
    },
    Trial {
        words: &["light", "f", "t"],
        file: "t",
        code: 0,
    },
    Trial {
        words: &["replay", "s", "r", "--formats", "f"],
        file: "f",
        code: 0,
    },
    Trial {
        words: &["replay", "s", "r", "--load", "l"],
        file: "l",
        code: 0,
    },
    Trial {
        words: &["freeze", "s", "r", "--load", "l"],
        file: "l",
        code: 0,
    },
    Trial {
        words: &["freeze", "s", "r"],
        file: "r",
        code: 0,
    },
    Trial {
        words: &["freeze", "s", "--journal", "j"],
        file: "j",
        code: 0,
    },
    Trial {
        words: &["freeze", "s", "--journal", "k"],
        file: "k",
        code: 0,
    },
    Trial {
        words: &["serve", "s", "--journal", "k", "--rotate", "1"],
        file: "k",
        code: 0,
    },
    Trial {
        words: &["visit", "s", "v"],
        file: "v",
        code: 0,
    },
];

/// The files that other runs leave: saved sessions, a journal, and one that begins at a saved world and goes on.
#[derive(Drop)]
struct Left {
    saved: Vec<u8>,
    journal: Vec<u8>,
    anew: Vec<u8>,
}

impl Left {
    /// What these runs leave.
    fn new<R: Threads + Sync>(rt: &R, alloc: Global) -> Result<Left, Wrong> {
        let folder = [whole_file("s", GUESTS), whole_file("r", REQUEST)];
        let saved = told(rt, alloc, &["freeze", "s", "r"], &folder)?.output;
        let journal = left_by(
            rt,
            alloc,
            &["replay", "s", "r", "--journal", "j"],
            &folder,
            b"",
        )?;
        let anew = begun_anew(rt, alloc, &journal)?;
        Ok(Left {
            saved,
            journal,
            anew,
        })
    }
}

/// A journal that begins at the world which this one brings about, and has an entry behind it.
fn begun_anew<R: Threads + Sync>(rt: &R, alloc: Global, journal: &[u8]) -> Result<Vec<u8>, Wrong> {
    let begun = at_its_world(rt, alloc, journal)?;
    gone_on(rt, alloc, &begun)
}

/// A journal that begins at the world which this one brings about.
fn at_its_world<R: Threads + Sync>(
    rt: &R,
    alloc: Global,
    journal: &[u8],
) -> Result<Vec<u8>, Wrong> {
    let folder = [whole_file("s", GUESTS), whole_file("j", journal)];
    left_by(
        rt,
        alloc,
        &["serve", "s", "--journal", "j", "--rotate", "1"],
        &folder,
        journal,
    )
}

/// A journal behind one more request.
fn gone_on<R: Threads + Sync>(rt: &R, alloc: Global, journal: &[u8]) -> Result<Vec<u8>, Wrong> {
    let folder = [
        whole_file("s", GUESTS),
        whole_file("r", REQUEST),
        whole_file("j", journal),
    ];
    left_by(
        rt,
        alloc,
        &["replay", "s", "r", "--journal", "j"],
        &folder,
        journal,
    )
}

/// All files, of which the reads of one fail whose numbers these are.
fn folder_of<'a>(
    alloc: Global,
    left: &'a Left,
    file: &str,
    failing: &'a [u64],
) -> Result<Vec<MemFile<'a>>, Wrong> {
    let mut folder = Vec::new(alloc);
    for (name, content) in FILES {
        folder.push(file_of(name, content, file, failing))?;
    }
    folder.push(file_of("l", &left.saved, file, failing))?;
    folder.push(file_of("j", &left.journal, file, failing))?;
    folder.push(file_of("k", &left.anew, file, failing))?;
    Ok(folder)
}

/// A file, whose reads fail where it is the one of this name.
fn file_of<'a>(name: &'a str, content: &'a [u8], file: &str, failing: &'a [u64]) -> MemFile<'a> {
    MemFile {
        name,
        content,
        piece: PIECE,
        failing: if name == file { failing } else { &[] },
    }
}

/// What a trial prints where a read of its file fails, if it has so many.
fn run_of<R: Threads + Sync>(
    rt: &R,
    alloc: Global,
    left: &Left,
    trial: Trial,
    failing: &[u64],
) -> Result<Replayed, Wrong> {
    let folder = folder_of(alloc, left, trial.file, failing)?;
    told(rt, alloc, trial.words, &folder)
}

/// How many reads of a trial's file there are to fail.
fn try_one<R: Threads + Sync>(
    rt: &R,
    alloc: Global,
    left: &Left,
    trial: Trial,
) -> Result<u32, Wrong> {
    for call in 1..CALLS_MOST {
        let got = run_of(rt, alloc, left, trial, &[call])?;
        let (status, is_quiet) = (got.status, got.output.is_empty());
        drop(got);
        if status == trial.code {
            return Ok(u32::try_from(call - 1).unwrap_or(0));
        }
        if status != READ_FAULT {
            return Err(Wrong::Status(call));
        }
        if !is_quiet {
            return Err(Wrong::Output(call));
        }
    }
    Err(Wrong::Status(CALLS_MOST))
}

/// Has each read of each of these files fail in its turn, and gives how many there are.
pub fn try_all<R: Threads + Sync>(rt: &R, alloc: Global) -> Result<u32, Wrong> {
    let left = Left::new(rt, alloc)?;
    let mut tally = 0u32;
    for trial in TRIALS {
        tally = tally.saturating_add(try_one(rt, alloc, &left, trial)?);
    }
    Ok(tally)
}
