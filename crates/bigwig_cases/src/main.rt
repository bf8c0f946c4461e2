//! Worked examples of the whole program, kept as data: runs over files, journals, keys, an output and a door in memory,
//! worlds at their limits, and reads and writes that are interrupted. `case_files` says how the files are written, and the module that
//! reads a file which lines a case has. Behind them two workers of a check have to meet.
#![tactic(auto)]

mod answers;
mod channels;
mod door;
mod files;
mod journal;
mod links;
mod outcomes;
mod outside;
mod retries;
mod runs;
mod spoiled;
mod torn;
mod workers;
mod worlds;

use case_files::{Case, Fault, Table, Tally, Texts, Verdict};
use std::alloc::Global;
use std::fs;
use std::process::ExitCode;
use std::rt::Files;
use std::thread::Threads;

/// What is tried.
#[derive(Clone, Copy)]
enum Subject {
    /// Runs of the whole program.
    Runs,
    /// Runs of the whole program over requests that interleave sessions.
    Sessions,
    /// Runs of the whole program that serve links.
    Serves,
    /// Runs of the whole program that serve links, or answer requests, beside a journal.
    Journals,
    /// The same of journals that begin at saved worlds.
    Anew,
    /// Journals that are cut at each byte of their ends.
    Torn,
    /// Runs of the whole program that check services.
    Checks,
    /// Runs of the whole program that show the source of services that are refused.
    Sources,
    /// Runs of the whole program that explain why services are refused.
    Explained,
    /// Runs of the whole program by services that are the names of the cases.
    Services,
    /// Reads and writes that are interrupted.
    Retries,
    /// Worlds at their limits.
    Worlds,
    /// Runs of the whole program by the services of the folder `examples`.
    Examples,
    /// Runs of the whole program that light texts, and that answer requests by formats of fields.
    Formats,
    /// Runs of the whole program that save sessions, and that go on from saved ones.
    Saved,
    /// Saved sessions of which bytes are changed, or lost.
    Spoiled,
    /// Runs of the whole program that visit services.
    Visits,
}

impl Subject {
    /// The file that has the cases, in the folder where the program runs.
    fn file_name(self) -> &'static str {
        match self {
            Subject::Runs => "run.cases",
            Subject::Sessions => "world.cases",
            Subject::Serves => "serve.cases",
            Subject::Journals => "journal.cases",
            Subject::Anew => "anew.cases",
            Subject::Torn => "torn.cases",
            Subject::Checks => "check.cases",
            Subject::Sources => "source.cases",
            Subject::Explained => "explain.cases",
            Subject::Services => "services.cases",
            Subject::Retries => "retries.cases",
            Subject::Worlds => "worlds.cases",
            Subject::Examples => "examples.cases",
            Subject::Formats => "formats.cases",
            Subject::Saved => "saved.cases",
            Subject::Spoiled => "spoiled.cases",
            Subject::Visits => "visit.cases",
        }
    }
}

/// What is tried, in this order.
const SUBJECTS: [Subject; 17] = [
    Subject::Runs,
    Subject::Sessions,
    Subject::Serves,
    Subject::Journals,
    Subject::Anew,
    Subject::Torn,
    Subject::Checks,
    Subject::Sources,
    Subject::Explained,
    Subject::Services,
    Subject::Retries,
    Subject::Worlds,
    Subject::Examples,
    Subject::Formats,
    Subject::Saved,
    Subject::Spoiled,
    Subject::Visits,
];

/// Tries a case. The check makes its threads by `rt`.
fn try_case<R: Threads + Sync>(
    rt: &R,
    alloc: Global,
    subject: Subject,
    texts: &Texts<'_>,
    case: &Case<'_>,
) -> Result<Verdict, Fault> {
    let tried = match subject {
        Subject::Runs
        | Subject::Sessions
        | Subject::Serves
        | Subject::Journals
        | Subject::Anew
        | Subject::Checks
        | Subject::Sources
        | Subject::Explained
        | Subject::Examples
        | Subject::Formats
        | Subject::Saved
        | Subject::Visits => runs::try_case(rt, alloc, texts, case),
        Subject::Spoiled => spoiled::try_case(rt, alloc, texts, case),
        Subject::Services => runs::try_service(rt, alloc, case),
        Subject::Torn => torn::try_case(rt, alloc, texts, case),
        Subject::Retries => retries::try_case(alloc, case),
        Subject::Worlds => worlds::try_case(rt, alloc, texts, case),
    };
    match tried {
        Err(Fault::Malformed) => Ok(Verdict::Malformed),
        tried => tried,
    }
}

/// Tries the cases of a table, and prints those that are wrong.
fn try_cases<R: AllocGlobal + Print + Threads + Sync>(
    rt: &R,
    subject: Subject,
    table: &Table<'_>,
) -> Result<Tally, Fault> {
    let mut tally = Tally::default();
    for case in &table.cases {
        let verdict = try_case(rt, rt.alloc(), subject, &table.texts, case)?;
        tally.count(&verdict);
        let printed = verdict.print(rt, case.name);
        drop(verdict);
        printed?;
    }
    Ok(tally)
}

/// The same of a file's text.
fn try_text<R: AllocGlobal + Print + Threads + Sync>(
    rt: &R,
    subject: Subject,
    text: &str,
) -> Result<Tally, Fault> {
    let table = Table::read(rt.alloc(), text)?;
    let tally = try_cases(rt, subject, &table);
    drop(table);
    tally
}

/// Tries the cases of a file, and prints those that are wrong and the tally.
fn try_file<R: Files + AllocGlobal + Print + Threads + Sync>(
    rt: &R,
    subject: Subject,
) -> Result<Tally, Fault> {
    let text = fs::read_to_string(rt, subject.file_name())?;
    let tally = try_text(rt, subject, &text);
    drop(text);
    let tally = tally?;
    println!(rt; "{}: {tally}", subject.file_name())?;
    Ok(tally)
}

fn main(rt: HostRuntime) -> ExitCode {
    let mut code = ExitCode::SUCCESS;
    for subject in SUBJECTS {
        match try_file(&rt, subject) {
            Ok(tally) => {
                if tally.has_wrong() {
                    code = ExitCode::FAILURE;
                }
            }
            Err(fault) => {
                let _ = println!(&rt; "{}: {fault}", subject.file_name());
                code = ExitCode::FAILURE;
            }
        }
    }
    if let Err(fault) = workers::try_meeting(&rt) {
        let _ = println!(&rt; "workers: {fault}");
        code = ExitCode::FAILURE;
    }
    code
}
