//! What came of cases.

use crate::fault::Fault;
use std::{fmt, io};

/// What came of a case.
#[derive(Drop)]
pub enum Verdict {
    /// What was wanted.
    Right,
    /// Something else.
    Wrong { wanted: String, got: String },
    /// It wasn't tried, since a line of it isn't written as the format says.
    Malformed,
}

impl Verdict {
    /// The verdict where this was wanted and that came.
    pub fn of(wanted: String, got: String) -> Verdict {
        if wanted.as_str() == got.as_str() {
            Verdict::Right
        } else {
            Verdict::Wrong { wanted, got }
        }
    }

    /// Prints the line of the case of this name, where something else came than what was wanted.
    pub fn print(&self, rt: &impl Print, name: &str) -> io::Result<()> {
        match self {
            Verdict::Right => Ok(()),
            Verdict::Wrong { wanted, got } => println!(rt; "{name}: wanted {wanted}; got {got}"),
            Verdict::Malformed => println!(rt; "{name}: {}", Fault::Malformed),
        }
    }
}

/// How many cases were tried, and how many of them were wrong.
#[derive(Clone, Copy, Default)]
pub struct Tally {
    cases: usize,
    wrong: usize,
}

impl Tally {
    /// Counts a case.
    pub fn count(&mut self, verdict: &Verdict) {
        self.cases = self.cases.saturating_add(1);
        if !matches!(verdict, Verdict::Right) {
            self.wrong = self.wrong.saturating_add(1);
        }
    }

    /// Whether a case was wrong.
    pub fn has_wrong(&self) -> bool {
        self.wrong > 0
    }
}

impl fmt::Display for Tally {
    fn fmt<W: fmt::Write>(&self, f: &mut fmt::Formatter<W>) -> fmt::Result {
        let cases = self.cases;
        let wrong = self.wrong;
        write!(f, "{cases} cases, {wrong} wrong")
    }
}
