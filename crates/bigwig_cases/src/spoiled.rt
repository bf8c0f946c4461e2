//! Saved sessions that are spoiled. A case has lines `words ..` and `file ..`, as those of whole runs, and says of a file `l` of
//! saved sessions, which is none of these,
//!
//! - `piece PARTS`: its next bytes
//! - `up LINE`, `down LINE`, `turned LINE`: what comes of each byte of the pieces behind, where it alone is one more, is one
//!   less, or has its highest bit turned: the line by which the file is refused, or `loaded`
//!
//! The program is run by the words, `freeze s r --load l` where there is no such line, over each file of so many first bytes of
//! `l`, which is to be refused as malformed, and over each with one byte changed. Where that is loaded, its very bytes are to be
//! saved. By `tries N` the case wants that there are so many files.
use crate::outcomes::{Outcome, outcome_of};
use crate::outside::Outside;
use bw_out::Quiet;
use case_files::{Case, Fault, Line, Texts, Verdict};
use std::alloc::{AllocError, Global};
use std::thread::Threads;

/// The name of the file.
const SAVED: &str = "l";

/// The exit code where saved sessions are refused, and the line where they are malformed.
const REFUSED: u8 = 11;

const MALFORMED: &str = "load malformed";

/// What is said of a file that is loaded.
const LOADED: &str = "loaded";

/// What comes of the three other bytes that are tried in a place.
#[derive(Clone, Copy)]
struct Comes<'a> {
    up: &'a str,
    down: &'a str,
    turned: &'a str,
}

/// Another byte in a place, and what comes of it.
#[derive(Clone, Copy)]
struct Change<'a> {
    at: usize,
    byte: u8,
    comes: &'a str,
}

/// A file of saved sessions, with what is wanted of the files that are nearly the same.
#[derive(Drop)]
struct SpoiledCase<'a> {
    outside: Outside<'a>,
    comes: Comes<'a>,
    bytes: Vec<u8>,
    changes: Vec<Change<'a>>,
    tries: usize,
}

/// Tries a case.
pub fn try_case<R: Threads + Sync>(
    rt: &R,
    alloc: Global,
    texts: &Texts<'_>,
    case: &Case<'_>,
) -> Result<Verdict, Fault> {
    let mut spoiled = SpoiledCase::new(alloc)?;
    let verdict = spoiled.tried(rt, alloc, texts, case);
    drop(spoiled);
    verdict
}

/// So many files, in words.
fn told(alloc: Global, tries: usize) -> Result<String, AllocError> {
    format!(in alloc; "tries {tries}")
}

/// What is to come of a file with these bytes, where this is said of it.
fn wanted(alloc: Global, comes: &str, bytes: &[u8]) -> Result<Outcome, Fault> {
    if comes == LOADED {
        return Ok(Outcome::of(alloc, 0, Vec::from_slice(alloc, bytes)?));
    }
    let mut line = comes.as_bytes().to_vec(alloc)?;
    line.push(b'\n')?;
    Ok(Outcome::of(alloc, REFUSED, line))
}

impl<'a> SpoiledCase<'a> {
    /// The case without a line.
    fn new(alloc: Global) -> Result<SpoiledCase<'a>, Fault> {
        let comes = Comes {
            up: MALFORMED,
            down: MALFORMED,
            turned: MALFORMED,
        };
        Ok(SpoiledCase {
            outside: Outside::new(alloc, "freeze s r --load l")?,
            comes,
            bytes: Vec::new(alloc),
            changes: Vec::new(alloc),
            tries: 0,
        })
    }

    /// Takes all lines of a case, and tries it.
    fn tried<R: Threads + Sync>(
        &mut self,
        rt: &R,
        alloc: Global,
        texts: &Texts<'_>,
        case: &Case<'a>,
    ) -> Result<Verdict, Fault> {
        for line in &case.lines {
            self.take(alloc, texts, *line)?;
        }
        self.verdict(rt, alloc)
    }

    /// Takes the next line.
    fn take(&mut self, alloc: Global, texts: &Texts<'_>, line: Line<'a>) -> Result<(), Fault> {
        match line.key {
            "up" => self.comes.up = line.value,
            "down" => self.comes.down = line.value,
            "turned" => self.comes.turned = line.value,
            "tries" => self.tries = line.value.parse()?,
            "piece" => self.take_piece(alloc, texts, line.value)?,
            _ => self.outside.take(alloc, texts, line)?,
        }
        Ok(())
    }

    /// Takes the file's next bytes, of each of which three others are tried.
    fn take_piece(&mut self, alloc: Global, texts: &Texts<'_>, parts: &str) -> Result<(), Fault> {
        let piece = texts.join(alloc, parts)?;
        for byte in &piece {
            self.take_byte(*byte)?;
        }
        drop(piece);
        Ok(())
    }

    /// Takes the file's next byte.
    fn take_byte(&mut self, byte: u8) -> Result<(), Fault> {
        let Comes { up, down, turned } = self.comes;
        self.take_change(byte.wrapping_add(1), up)?;
        self.take_change(byte.wrapping_sub(1), down)?;
        self.take_change(byte ^ 0x80, turned)?;
        self.bytes.push(byte)?;
        Ok(())
    }

    /// Takes another byte for the next one, of which this comes.
    fn take_change(&mut self, byte: u8, comes: &'a str) -> Result<(), Fault> {
        let at = self.bytes.len();
        self.changes.push(Change { at, byte, comes })?;
        Ok(())
    }

    /// What is wanted, and what comes: that of the first file that is wrong, if one is.
    fn verdict<R: Threads + Sync>(&mut self, rt: &R, alloc: Global) -> Result<Verdict, Fault> {
        match self.verdict_on_cuts(rt, alloc)? {
            Verdict::Right => {}
            wrong => return Ok(wrong),
        }
        match self.verdict_on_changes(rt, alloc)? {
            Verdict::Right => {}
            wrong => return Ok(wrong),
        }
        let tries = self.bytes.len().saturating_add(self.changes.len());
        Ok(Verdict::of(told(alloc, self.tries)?, told(alloc, tries)?))
    }

    /// The same of the files that are cut.
    fn verdict_on_cuts<R: Threads + Sync>(
        &mut self,
        rt: &R,
        alloc: Global,
    ) -> Result<Verdict, Fault> {
        for length in 0..self.bytes.len() {
            let first = self.bytes.get(..length).ok_or(Fault::Malformed)?;
            let content = Vec::from_slice(alloc, first)?;
            match self.verdict_on(rt, alloc, content, MALFORMED)? {
                Verdict::Right => {}
                wrong => return Ok(wrong),
            }
        }
        Ok(Verdict::Right)
    }

    /// The same of those with one byte changed.
    fn verdict_on_changes<R: Threads + Sync>(
        &mut self,
        rt: &R,
        alloc: Global,
    ) -> Result<Verdict, Fault> {
        for number in 0..self.changes.len() {
            let change = *self.changes.get(number).ok_or(Fault::Malformed)?;
            let mut content = Vec::from_slice(alloc, &self.bytes)?;
            *content.get_mut(change.at).ok_or(Fault::Malformed)? = change.byte;
            match self.verdict_on(rt, alloc, content, change.comes)? {
                Verdict::Right => {}
                wrong => return Ok(wrong),
            }
        }
        Ok(Verdict::Right)
    }

    /// The verdict on a file with these bytes, of which this is said.
    fn verdict_on<R: Threads + Sync>(
        &mut self,
        rt: &R,
        alloc: Global,
        content: Vec<u8>,
        comes: &str,
    ) -> Result<Verdict, Fault> {
        let wanted = wanted(alloc, comes, &content)?;
        let shown = wanted.shown(alloc);
        drop(wanted);
        let shown = shown?;
        self.outside.add_file(alloc, SAVED, content)?;
        let got = outcome_of(rt, alloc, &self.outside, &Quiet);
        self.outside.drop_file();
        let got = got?;
        let came = got.shown(alloc);
        drop(got);
        Ok(Verdict::of(shown, came?))
    }
}
