//! Cases of whole runs. A case has the lines
//!
//! - `words WORD ..`: the words of the command line; `replay s r` where there is no such line
//! - `file NAME PARTS`: a file
//! - `read_piece N`, `failing_reads N ..`: of that file, how many bytes one read gives at most, and the numbers of
//!   the reads that fail; any number, and none
//! - `failing_fetches N ..`: the numbers of the fetches of files that fail; none
//! - `room N`, `write_piece N`, `failing_writes N ..`: of standard output, how many bytes it has room for, how many
//!   one write takes at most, and the numbers of the writes that fail; 65,536, any number, and none
//! - `keys N ..`: the keys to come, no two alike and none 0; 11, 12 and 13. `keys_to N`: 1, 2 and so on to N
//! - `link PARTS`: a link to come, whose client sends this
//! - `link_read_piece N`, `link_failing_reads N ..`, `link_room N`, `link_write_piece N`, `link_failing_writes N ..`: the
//!   same of that link as of files and of standard output
//! - `failing_listens N ..`, `failing_nexts N ..`: the numbers of the calls of the door that fail; none
//! - `awaited N ..`: the numbers of the links that aren't at hand when they are looked for; none
//! - `journal NAME`: there is a journal of this name; where there is no such line, there is no file of one
//! - `journal_head PARTS`, `journal_entry KEY PARTS`, `journal_bytes PARTS`: behind what it holds are the head of the
//!   service whose file is the text, the entry of a key and a message, these bytes
//! - `journal_saved NAME PARTS`: so is the head of the service whose file is the text of that name, which begins at the saved
//!   world of these bytes
//! - `journal_cut N`, `journal_turn N`: then its last N bytes are cut off; the byte behind the first N is another one
//! - `journal_read_piece N`, `journal_failing_reads N ..`: as of files
//! - `journal_failing_openings N ..`, `journal_failing_calls N ..`: the numbers of its openings that fail, and of the cuts,
//!   pieces kept and steps of a new file since it was opened; none
//!
//! and wants, by `status N`, `drawn N` and `output PARTS`, the exit code, how many keys are drawn, and all that is
//! printed; 0, 0 and nothing. It wants, by `port N`, that this port is asked for, and none where there is no such line;
//! and, by a line `holds PARTS` for each link that is given back, what that link then holds. It wants, by `kept_head PARTS`,
//! `kept_saved NAME PARTS`, `kept_entry KEY PARTS` and `kept_bytes PARTS`, that the journal then holds these, one behind the
//! other, and by `kept` in front of them, what it held before; nothing where there is no such line.
//!
//! A line `again NAME` ends a run. What its lines want of it has to come; then another run begins, with the same words, files
//! and keys, and with the journal as it is left, as the file of this name. So does a line `printed NAME N`, which wants that what
//! is printed has N bytes, whichever they are, and has them as one more file of this name.
//!
//! A case of a service has the service's text for its name, and is run over no request. Its line `line TEXT` is the
//! line that is printed, with code 3; where there is none, nothing is printed.
use crate::outcomes::{Outcome, outcome_of};
use crate::outside::Outside;
use bw_out::Quiet;
use case_files::{Case, Fault, Line, Texts, Verdict};
use std::alloc::Global;
use std::mem;
use std::thread::Threads;

/// The exit code where a service is refused.
const REFUSED: u8 = 3;

/// A run, and what is wanted of it.
#[derive(Drop)]
struct RunCase<'a> {
    outside: Outside<'a>,
    wanted: Outcome,
}

/// Tries a run.
pub fn try_case<R: Threads + Sync>(
    rt: &R,
    alloc: Global,
    texts: &Texts<'_>,
    case: &Case<'_>,
) -> Result<Verdict, Fault> {
    let mut run_case = RunCase::new(alloc)?;
    let verdict = run_case.tried(rt, alloc, texts, case);
    drop(run_case);
    verdict
}

/// Tries the run of the service that is the case's name.
pub fn try_service<R: Threads + Sync>(
    rt: &R,
    alloc: Global,
    case: &Case<'_>,
) -> Result<Verdict, Fault> {
    let mut run_case = RunCase::new(alloc)?;
    let verdict = run_case.service_tried(rt, alloc, case);
    drop(run_case);
    verdict
}

/// A service is refused by this line.
fn refusal(alloc: Global, line: &str) -> Result<Outcome, Fault> {
    let mut output = line.as_bytes().to_vec(alloc)?;
    output.push(b'\n')?;
    Ok(Outcome::of(alloc, REFUSED, output))
}

impl<'a> RunCase<'a> {
    /// The case without a line.
    fn new(alloc: Global) -> Result<RunCase<'a>, Fault> {
        Ok(RunCase {
            outside: Outside::new(alloc, "replay s r")?,
            wanted: Outcome::of(alloc, 0, Vec::new(alloc)),
        })
    }

    /// Takes all lines of a case, and tries it.
    fn tried<R: Threads + Sync>(
        &mut self,
        rt: &R,
        alloc: Global,
        texts: &Texts<'_>,
        case: &Case<'a>,
    ) -> Result<Verdict, Fault> {
        for line in &case.lines {
            if let Some(wrong) = self.pass(rt, alloc, texts, *line)? {
                return Ok(wrong);
            }
        }
        self.verdict(rt, alloc)
    }

    /// Takes the next line. Where it ends a run that is wrong, the verdict on that run is given.
    fn pass<R: Threads + Sync>(
        &mut self,
        rt: &R,
        alloc: Global,
        texts: &Texts<'_>,
        line: Line<'a>,
    ) -> Result<Option<Verdict>, Fault> {
        match line.key {
            "again" => self.end_run(rt, alloc, line.value),
            "printed" => self.end_printed(rt, alloc, line.value),
            _ => {
                self.take(alloc, texts, line)?;
                Ok(None)
            }
        }
    }

    /// Ends a run, with the verdict on it where it is wrong. The next one has its journal, as the file of this name.
    fn end_run<R: Threads + Sync>(
        &mut self,
        rt: &R,
        alloc: Global,
        name: &'a str,
    ) -> Result<Option<Verdict>, Fault> {
        match self.verdict(rt, alloc)? {
            Verdict::Right => {
                self.go_on(alloc, name);
                Ok(None)
            }
            wrong => Ok(Some(wrong)),
        }
    }

    /// The same by `NAME N`. The next run has what is printed, so many bytes, as a file of this name.
    fn end_printed<R: Threads + Sync>(
        &mut self,
        rt: &R,
        alloc: Global,
        definition: &'a str,
    ) -> Result<Option<Verdict>, Fault> {
        let (name, length) = definition.split_once(' ').ok_or(Fault::Malformed)?;
        let length = length.parse()?;
        let got = outcome_of(rt, alloc, &self.outside, &Quiet)?;
        let verdict = self.verdict_on(alloc, &got, length);
        let printed = got.into_output();
        match verdict? {
            Verdict::Right => {
                let next = Outcome::of(alloc, 0, Vec::new(alloc));
                drop(mem::replace(&mut self.wanted, next));
                self.outside.add_file(alloc, name, printed)?;
                Ok(None)
            }
            wrong => {
                drop(printed);
                Ok(Some(wrong))
            }
        }
    }

    /// The verdict on what came, where so many bytes were to be printed.
    fn verdict_on(
        &mut self,
        alloc: Global,
        got: &Outcome,
        length: usize,
    ) -> Result<Verdict, Fault> {
        if got.output().len() == length {
            self.wanted
                .want_output(Vec::from_slice(alloc, got.output())?);
        }
        let shown = got.shown(alloc)?;
        Ok(Verdict::of(self.wanted.shown(alloc)?, shown))
    }

    /// Begins another run, with the journal as it is wanted to be left, as the file of this name.
    fn go_on(&mut self, alloc: Global, name: &'a str) {
        let next = Outcome::of(alloc, 0, Vec::new(alloc));
        let wanted = mem::replace(&mut self.wanted, next);
        self.outside.go_on(alloc, name, wanted.into_journal());
    }

    /// Takes the lines of a case of a service, and tries it.
    fn service_tried<R: Threads + Sync>(
        &mut self,
        rt: &R,
        alloc: Global,
        case: &Case<'a>,
    ) -> Result<Verdict, Fault> {
        let service = case.name.as_bytes().to_vec(alloc)?;
        self.outside.add_file(alloc, "s", service)?;
        self.outside.add_file(alloc, "r", Vec::new(alloc))?;
        for line in &case.lines {
            self.take_refusal(alloc, *line)?;
        }
        self.verdict(rt, alloc)
    }

    /// Takes the line that a service is refused by.
    fn take_refusal(&mut self, alloc: Global, line: Line<'_>) -> Result<(), Fault> {
        if line.key != "line" {
            return Err(Fault::Malformed);
        }
        let wanted = refusal(alloc, line.value)?;
        drop(mem::replace(&mut self.wanted, wanted));
        Ok(())
    }

    /// Takes the next line.
    fn take(&mut self, alloc: Global, texts: &Texts<'_>, line: Line<'a>) -> Result<(), Fault> {
        match line.key {
            "status" | "drawn" | "output" | "port" | "holds" => {
                self.wanted.take(alloc, texts, line)
            }
            "kept" => self.keep_all(alloc),
            _ => self.take_given(alloc, texts, line),
        }
    }

    /// Wants that the journal holds what it held before.
    fn keep_all(&mut self, alloc: Global) -> Result<(), Fault> {
        let journal = self.outside.journal.holds.copy(alloc)?;
        drop(mem::replace(&mut self.wanted.journal, journal));
        Ok(())
    }

    /// Takes the next line, which says what the journal is to hold then, or what there is before.
    fn take_given(
        &mut self,
        alloc: Global,
        texts: &Texts<'_>,
        line: Line<'a>,
    ) -> Result<(), Fault> {
        match line.key.strip_prefix("kept_") {
            Some(key) => self.wanted.journal.take(alloc, texts, Line { key, ..line }),
            None => self.outside.take(alloc, texts, line),
        }
    }

    /// What is wanted, and what comes.
    fn verdict<R: Threads + Sync>(&self, rt: &R, alloc: Global) -> Result<Verdict, Fault> {
        let outcome = outcome_of(rt, alloc, &self.outside, &Quiet)?;
        let got = outcome.shown(alloc);
        drop(outcome);
        let got = got?;
        Ok(Verdict::of(self.wanted.shown(alloc)?, got))
    }
}
