//! Cases of reads and writes that are interrupted. A case has the lines
//!
//! - `read N` or `write N`: a read into four bytes by a reader that gives N of them at most, or a write of four bytes
//!   by a writer that takes N of them at most
//! - `interrupted N` or `broken N`: so many calls of the reader or writer fail first, as interrupted or with a broken
//!   pipe; none
//!
//! and wants, by `first R` and `second R`, what two such reads or writes in a row come to: a number of bytes, or
//! `failed`.

ghost use Rattle.std.specs.Prelude.{◌≤◌, IfOk};

use bw_out::{Failed, Reading, Sink, Source, Writing};
use case_files::{Case, Fault, Line, Verdict};
use std::alloc::{AllocError, Global};
use std::io;
use std::io::{ErrorKind, Read, Write};

/// A reader and writer whose first calls fail, and whose later ones give or take at most so many bytes.
#[derive(Clone, Copy)]
struct Failing {
    failures: u64,
    kind: ErrorKind,
    most: usize,
}

impl Failing {
    /// How many bytes the next call gives or takes, of these many.
    fn call(&mut self, length: usize) -> io::Result<usize>
        ensures { IfOk result (λ count. count ≤ length) }
    {
        if self.failures > 0 {
            self.failures -= 1;
            return Err(io::Error::from(self.kind));
        }
        Ok(self.most.min(length))
    }
}

impl Read for Failing {
    fn read(&mut self, buf: &mut [u8]) -> io::Result<usize> {
        self.call(buf.len())
    }
}

impl Write for Failing {
    fn write(&mut self, buf: &[u8]) -> io::Result<usize> {
        self.call(buf.len())
    }

    fn flush(&mut self) -> io::Result<()> {
        Ok(())
    }
}

/// Which side is tried.
#[derive(Clone, Copy)]
enum Side {
    Read,
    Write,
}

/// Two calls in a row, and what is wanted of them.
#[derive(Clone, Copy)]
struct RetryCase<'a> {
    side: Side,
    failing: Failing,
    first: &'a str,
    second: &'a str,
}

/// Tries two calls in a row.
pub fn try_case(alloc: Global, case: &Case<'_>) -> Result<Verdict, Fault> {
    let mut retry_case = RetryCase::new();
    for line in &case.lines {
        retry_case.take(*line)?;
    }
    let first = retry_case.first;
    let second = retry_case.second;
    Ok(Verdict::of(
        format!(in alloc; "{first}, then {second}")?,
        retry_case.got(alloc)?,
    ))
}

impl<'a> RetryCase<'a> {
    /// The case without a line.
    fn new() -> RetryCase<'a> {
        RetryCase {
            side: Side::Read,
            failing: Failing {
                failures: 0,
                kind: ErrorKind::Interrupted,
                most: 0,
            },
            first: "",
            second: "",
        }
    }

    /// Takes the next line.
    fn take(&mut self, line: Line<'a>) -> Result<(), Fault> {
        match line.key {
            "read" => {
                self.side = Side::Read;
                self.failing.most = line.value.parse()?;
            }
            "write" => {
                self.side = Side::Write;
                self.failing.most = line.value.parse()?;
            }
            "interrupted" => {
                self.failing.kind = ErrorKind::Interrupted;
                self.failing.failures = line.value.parse()?;
            }
            "broken" => {
                self.failing.kind = ErrorKind::BrokenPipe;
                self.failing.failures = line.value.parse()?;
            }
            "first" => self.first = line.value,
            "second" => self.second = line.value,
            _ => return Err(Fault::Malformed),
        }
        Ok(())
    }

    /// What comes.
    fn got(&self, alloc: Global) -> Result<String, AllocError> {
        let (first, second) = match self.side {
            Side::Read => {
                let mut reading = Reading::new(self.failing);
                let mut buffer = [0; 4];
                (reading.read(&mut buffer), reading.read(&mut buffer))
            }
            Side::Write => {
                let mut writing = Writing::new(self.failing);
                (writing.write(b"four"), writing.write(b"four"))
            }
        };
        let first = shown(alloc, first)?;
        let second = shown(alloc, second)?;
        format!(in alloc; "{first}, then {second}")
    }
}

fn shown(alloc: Global, outcome: Result<usize, Failed>) -> Result<String, AllocError> {
    match outcome {
        Ok(count) => format!(in alloc; "{count}"),
        Err(Failed) => format!(in alloc; "failed"),
    }
}
