//! The trial of files of cases.

use crate::fault::Fault;
use crate::tables::{Case, Table};
use crate::texts::Texts;
use crate::verdicts::{Tally, Verdict};
use std::alloc::Global;
use std::fs;
use std::process::ExitCode;
use std::rt::Files;

/// A kind of cases, which has a file of its own.
pub trait Kind: Copy {
    /// The file that has the cases, in the folder where the program runs.
    fn file_name(self) -> &'static str;

    /// Tries a case of this kind.
    fn try_case(self, alloc: Global, texts: &Texts<'_>, case: &Case<'_>) -> Result<Verdict, Fault>;
}

/// Tries the cases of these kinds. It ends with failure where a case was wrong or couldn't be tried.
pub fn try_files<R: Files + AllocGlobal + Print, K: Kind>(rt: &R, kinds: &[K]) -> ExitCode {
    let mut code = ExitCode::SUCCESS;
    for kind in kinds {
        match try_file(rt, *kind) {
            Ok(tally) => {
                if tally.has_wrong() {
                    code = ExitCode::FAILURE;
                }
            }
            Err(fault) => {
                let _ = println!(rt; "{}: {fault}", kind.file_name());
                code = ExitCode::FAILURE;
            }
        }
    }
    code
}

/// Tries the cases of a file, and prints those that are wrong and the tally.
fn try_file<R: Files + AllocGlobal + Print, K: Kind>(rt: &R, kind: K) -> Result<Tally, Fault> {
    let alloc = rt.alloc();
    let file = fs::read_to_string(rt, kind.file_name())?;
    let table = Table::read(alloc, &file)?;
    let mut tally = Tally::default();
    for case in &table.cases {
        let verdict = match kind.try_case(alloc, &table.texts, case) {
            Err(Fault::Malformed) => Verdict::Malformed,
            tried => tried?,
        };
        verdict.print(rt, case.name)?;
        tally.count(&verdict);
    }
    println!(rt; "{}: {tally}", kind.file_name())?;
    Ok(tally)
}
