//! What comes of a run.
ghost use Rattle.std.specs.Prelude.{◌≡◌, ◌<◌};

use crate::door::CaseDoor;
use crate::journal::JournalBytes;
use crate::links::held_by;
use crate::outside::Outside;
use bigwig::run;
use bw_lang::Words;
use bw_out::{Keys, MemFiles, MemKeys, MemSink, Pulse, Steps};
use bw_stable::MemJournals;
use case_files::{Fault, Line, Texts, escaped};
use std::alloc::{AllocError, Global};
use std::marker::Brand;
use std::sync::ledger::{Blank, Ledger};
use std::thread::Threads;

/// What comes of a run: the exit code, how many keys were drawn, what was printed, the port that was asked for, what each
/// link that was given back holds, and what the journal holds.
#[derive(Drop)]
pub struct Outcome {
    pub status: u8,
    drawn: usize,
    output: Vec<u8>,
    port: Option<u16>,
    links: Vec<Vec<u8>>,
    pub journal: JournalBytes,
}

impl Outcome {
    /// This exit code and this output, and nothing else.
    pub fn of(alloc: Global, status: u8, output: Vec<u8>) -> Outcome {
        Outcome {
            status,
            drawn: 0,
            output,
            port: None,
            links: Vec::new(alloc),
            journal: JournalBytes::of(Vec::new(alloc)),
        }
    }

    /// This output, this port, one link that holds this, for which a key was drawn, and this journal.
    pub fn served(
        alloc: Global,
        output: Vec<u8>,
        port: u16,
        held: Vec<u8>,
        journal: JournalBytes,
    ) -> Result<Outcome, AllocError> {
        Ok(Outcome {
            status: 0,
            drawn: 1,
            output,
            port: Some(port),
            links: vec![in alloc; held]?,
            journal,
        })
    }

    /// Takes the next line, which says what is wanted.
    pub fn take(&mut self, alloc: Global, texts: &Texts<'_>, line: Line<'_>) -> Result<(), Fault> {
        match line.key {
            "status" => self.status = line.value.parse()?,
            "drawn" => self.drawn = line.value.parse()?,
            "output" => self.output = texts.join(alloc, line.value)?,
            "port" => self.port = Some(line.value.parse()?),
            "holds" => self.links.push(texts.join(alloc, line.value)?)?,
            _ => return Err(Fault::Malformed),
        }
        Ok(())
    }

    /// What was printed.
    pub fn output(&self) -> &[u8] {
        &self.output
    }

    /// Wants that this is printed.
    pub fn want_output(&mut self, output: Vec<u8>) {
        self.output = output;
    }

    /// What was printed, alone.
    pub fn into_output(self) -> Vec<u8> {
        let Outcome {
            status: _,
            drawn: _,
            output,
            port: _,
            links: _,
            journal: _,
        } = self;
        output
    }

    /// What the journal holds.
    pub fn into_journal(self) -> JournalBytes {
        let Outcome {
            status: _,
            drawn: _,
            output: _,
            port: _,
            links: _,
            journal,
        } = self;
        journal
    }

    /// The outcome in words.
    pub fn shown(&self, alloc: Global) -> Result<String, AllocError> {
        let status = self.status;
        let drawn = self.drawn;
        let output = escaped(alloc, &self.output)?;
        let port = self.port.unwrap_or(0);
        let mut shown = format!(in alloc;
            "status {status}, drawn {drawn}, output \"{output}\", port {port}"
        )?;
        for held in &self.links {
            show_held(alloc, &mut shown, "link", held)?;
        }
        if !self.journal.bytes().is_empty() {
            show_held(alloc, &mut shown, "journal", self.journal.bytes())?;
        }
        Ok(shown)
    }
}

/// Puts what a link or a journal holds behind the other words.
fn show_held(alloc: Global, shown: &mut String, what: &str, held: &[u8]) -> Result<(), AllocError> {
    let held = escaped(alloc, held)?;
    write!(shown, ", {what} \"{held}\"")
}

/// What the program is lent beside files.
#[derive(Drop)]
struct Lent<'a> {
    journals: MemJournals<'a>,
    door: CaseDoor<'a>,
    keys: MemKeys<'a>,
    out: MemSink<'a>,
}

impl<'a> Lent<'a> {
    /// What a run over this outside is lent.
    fn of(alloc: Global, outside: &'a Outside<'_>) -> Result<Lent<'a>, AllocError> {
        Ok(Lent {
            journals: outside.journal.journals(alloc)?,
            door: outside.door(alloc)?,
            keys: MemKeys::new(&outside.keys),
            out: outside.out.in_memory(alloc)?,
        })
    }
}

/// Runs the program over this outside. The check makes its threads by `rt`, and tells `pulse` as it begins a piece.
pub fn outcome_of<R: Threads + Sync, P: Pulse>(
    rt: &R,
    alloc: Global,
    outside: &Outside<'_>,
    pulse: &P,
) -> Result<Outcome, Fault> {
    let mut lent = Lent::of(alloc, outside)?;
    let outcome = outcome_over(rt, alloc, outside, pulse, &mut lent);
    drop(lent);
    outcome
}

/// The same over what it is lent.
fn outcome_over<R: Threads + Sync, P: Pulse>(
    rt: &R,
    alloc: Global,
    outside: &Outside<'_>,
    pulse: &P,
    lent: &mut Lent<'_>,
) -> Result<Outcome, Fault> {
    let status = status_over(rt, alloc, outside, pulse, lent)?;
    Ok(Outcome {
        status,
        drawn: drawn_of(&outside.keys, lent.keys.draw()),
        output: Vec::from_slice(alloc, lent.out.bytes())?,
        port: lent.door.port(),
        links: held_by(alloc, lent.door.returned())?,
        journal: JournalBytes::of(content_of(alloc, &lent.journals)?),
    })
}

/// What the journal's file holds.
fn content_of(alloc: Global, journals: &MemJournals<'_>) -> Result<Vec<u8>, AllocError> {
    match journals.file() {
        Some(content) => Vec::from_slice(alloc, content),
        None => Ok(Vec::new(alloc)),
    }
}

/// The exit code of that run. The words are copied, so that this is tried as well.
fn status_over<R: Threads + Sync, P: Pulse>(
    rt: &R,
    alloc: Global,
    outside: &Outside<'_>,
    pulse: &P,
    lent: &mut Lent<'_>,
) -> Result<u8, Fault> {
    let words = outside.words.copy()?;
    let status = status_by(rt, alloc, outside, &words, pulse, lent);
    drop(words);
    status
}

/// The same by these words.
fn status_by<R: Threads + Sync, P: Pulse>(
    rt: &R,
    alloc: Global,
    outside: &Outside<'_>,
    words: &Words,
    pulse: &P,
    lent: &mut Lent<'_>,
) -> Result<u8, Fault> {
    let folder = outside.folder(alloc)?;
    let mut files = MemFiles::new(&folder, &outside.failing_fetches);
    Ok(counted::<Brand, R, P>(rt, alloc, words, &mut files, pulse, lent, Blank::new(1)))
}

/// Runs the program with a count of steps that nobody reads, and gives its exit code.
fn counted<L: Ledger, R: Threads + Sync, P: Pulse>(
    rt: &R,
    alloc: Global,
    words: &Words,
    files: &mut MemFiles<'_>,
    pulse: &P,
    lent: &mut Lent<'_>,
    blank: Blank,
) -> u8
    requires name { blank.name ≡ L.name }
    requires parts { blank.parts ≡ L.parts }
    requires some { 0 < blank.parts }
{
    let mut steps: Steps<L> = Steps::new(blank);
    run(
        rt,
        alloc,
        words,
        files,
        &mut lent.journals,
        &mut lent.door,
        &mut lent.keys,
        &mut lent.out,
        pulse,
        &mut steps,
    )
    .code()
}

/// How many of these keys were drawn: those in front of the next one to come.
fn drawn_of(keys: &[u64], next: u64) -> usize {
    keys.iter()
        .position(|key| *key == next)
        .unwrap_or(keys.len())
}
