//! Journals that are torn. A case has lines `file ..`, `link ..`, `keys ..`, `journal NAME` and then `journal_head PARTS`, or
//! `journal_saved NAME PARTS`, and `journal_entry KEY PARTS`, as those of whole runs, with one link.
//!
//! The journal is cut at each byte of its last two parts, where its head is a part as each entry is (but one with a saved world is
//! none of the two: a part of it is damage), and the program is begun with what is left: `serve s --journal j`. Whichever byte it
//! is, the link is to be answered as behind the entries that are whole, and the journal then to hold these, and behind them the
//! entry of the link's bytes with the first key. By a line `holds N PARTS` for each number of whole entries that is left, the case
//! wants what the link then holds, and by `cuts N` that there are so many cuts.
use crate::journal::JournalBytes;
use crate::outcomes::{Outcome, outcome_of};
use crate::outside::Outside;
use bw_out::Quiet;
use case_files::{Case, Fault, Line, Texts, Verdict};
use std::alloc::{AllocError, Global};
use std::mem;
use std::thread::Threads;

/// What is printed, and the port.
const SERVING: &[u8] = b"serving 8080\n";

const PORT: u16 = 8_080;

/// What a link holds behind so many entries.
#[derive(Drop)]
struct Held {
    entries: usize,
    bytes: Vec<u8>,
}

/// A journal and the link that comes once it was torn, with what is wanted.
#[derive(Drop)]
struct TornCase<'a> {
    outside: Outside<'a>,
    /// The bytes that come over the link.
    message: Vec<u8>,
    /// What the journal holds in front of its head, behind it, and behind each entry.
    states: Vec<JournalBytes>,
    held: Vec<Held>,
    cuts: usize,
}

/// Tries a case.
pub fn try_case<R: Threads + Sync>(
    rt: &R,
    alloc: Global,
    texts: &Texts<'_>,
    case: &Case<'_>,
) -> Result<Verdict, Fault> {
    let mut torn = TornCase::new(alloc)?;
    let verdict = torn.tried(rt, alloc, texts, case);
    drop(torn);
    verdict
}

/// So many cuts, in words.
fn told(alloc: Global, cuts: usize) -> Result<String, AllocError> {
    format!(in alloc; "cuts {cuts}")
}

impl<'a> TornCase<'a> {
    /// The case without a line.
    fn new(alloc: Global) -> Result<TornCase<'a>, Fault> {
        let states = vec![in alloc; JournalBytes::of(Vec::new(alloc))]?;
        Ok(TornCase {
            outside: Outside::new(alloc, "serve s --journal j")?,
            message: Vec::new(alloc),
            states,
            held: Vec::new(alloc),
            cuts: 0,
        })
    }

    /// Takes all lines of a case, and tries it.
    fn tried<R: Threads + Sync>(
        &mut self,
        rt: &R,
        alloc: Global,
        texts: &Texts<'_>,
        case: &Case<'a>,
    ) -> Result<Verdict, Fault> {
        for line in &case.lines {
            self.take(alloc, texts, *line)?;
        }
        self.verdict(rt, alloc)
    }

    /// Takes the next line.
    fn take(&mut self, alloc: Global, texts: &Texts<'_>, line: Line<'a>) -> Result<(), Fault> {
        match line.key {
            "cuts" => {
                self.cuts = line.value.parse()?;
                Ok(())
            }
            "holds" => self.take_held(alloc, texts, line.value),
            "link" => {
                self.message = texts.join(alloc, line.value)?;
                self.outside.take(alloc, texts, line)
            }
            "journal_head" | "journal_saved" | "journal_entry" => {
                self.outside.take(alloc, texts, line)?;
                self.states.push(self.outside.journal.holds.copy(alloc)?)?;
                Ok(())
            }
            _ => self.outside.take(alloc, texts, line),
        }
    }

    /// Takes in `N PARTS`.
    fn take_held(
        &mut self,
        alloc: Global,
        texts: &Texts<'_>,
        definition: &str,
    ) -> Result<(), Fault> {
        let (number, parts) = definition.split_once(' ').ok_or(Fault::Malformed)?;
        let held = Held {
            entries: number.parse()?,
            bytes: texts.join(alloc, parts)?,
        };
        self.held.push(held)?;
        Ok(())
    }

    /// What is wanted, and what comes: that of the first cut that is wrong, if one is.
    fn verdict<R: Threads + Sync>(&mut self, rt: &R, alloc: Global) -> Result<Verdict, Fault> {
        let last = self.states.len().saturating_sub(1);
        let most = self.length_of(last)?;
        let least = self.length_of(last.saturating_sub(2))?;
        for len in least..=most {
            match self.verdict_at(rt, alloc, len)? {
                Verdict::Right => {}
                wrong => return Ok(wrong),
            }
        }
        Ok(Verdict::of(
            told(alloc, self.cuts)?,
            told(alloc, most.saturating_sub(least).saturating_add(1))?,
        ))
    }

    /// How many bytes the journal has at this state.
    fn length_of(&self, state: usize) -> Result<usize, Fault> {
        let state = self.states.get(state).ok_or(Fault::Malformed)?;
        Ok(state.bytes().len())
    }

    /// The verdict on the journal's first bytes, so many.
    fn verdict_at<R: Threads + Sync>(
        &mut self,
        rt: &R,
        alloc: Global,
        len: usize,
    ) -> Result<Verdict, Fault> {
        let left = self.first_bytes(alloc, len)?;
        drop(mem::replace(&mut self.outside.journal.holds, left));
        let got = outcome_of(rt, alloc, &self.outside, &Quiet)?;
        let shown = got.shown(alloc);
        drop(got);
        let shown = shown?;
        Ok(Verdict::of(self.wanted(alloc, len)?, shown))
    }

    /// The journal's first bytes, so many.
    fn first_bytes(&self, alloc: Global, len: usize) -> Result<JournalBytes, Fault> {
        let whole = self.states.last().ok_or(Fault::Malformed)?;
        let first = whole.bytes().get(..len).ok_or(Fault::Malformed)?;
        Ok(JournalBytes::of(Vec::from_slice(alloc, first)?))
    }

    /// What is wanted where so many bytes are left, in words.
    fn wanted(&self, alloc: Global, len: usize) -> Result<String, Fault> {
        let entries = self.entries_in(len);
        let outcome = self.outcome_behind(alloc, entries)?;
        let shown = outcome.shown(alloc);
        drop(outcome);
        Ok(shown?)
    }

    /// How many whole entries the journal's first bytes have, so many.
    fn entries_in(&self, len: usize) -> usize {
        let whole = self
            .states
            .iter()
            .filter(|state| state.bytes().len() <= len)
            .count();
        whole.saturating_sub(2)
    }

    /// What is to come of the run behind so many entries.
    fn outcome_behind(&self, alloc: Global, entries: usize) -> Result<Outcome, Fault> {
        let key = self.outside.keys.first().ok_or(Fault::Malformed)?;
        let state = self
            .states
            .get(entries.saturating_add(1))
            .ok_or(Fault::Malformed)?;
        let mut journal = state.copy(alloc)?;
        journal.put_entry(*key, &self.message)?;
        let output = Vec::from_slice(alloc, SERVING)?;
        let held = Vec::from_slice(alloc, self.held_behind(entries)?)?;
        Ok(Outcome::served(alloc, output, PORT, held, journal)?)
    }

    /// What the link is to hold behind so many entries.
    fn held_behind(&self, entries: usize) -> Result<&[u8], Fault> {
        for held in &self.held {
            if held.entries == entries {
                return Ok(&held.bytes);
            }
        }
        Err(Fault::Malformed)
    }
}
