//! Worked examples of documents that share their parts, and of turns of small services that make them, kept as data.
//! `case_files` says how the files are written, and the heads of `documents` and `turns` which lines their cases have.
#![tactic(auto)]

mod both;
mod documents;
mod mix;
mod plain;
mod said;
mod stack;
mod steps;
mod talks;
mod turns;

use bw_types::Typed;
use case_files::{Case, Fault, Kind, Texts, Verdict, service_of, try_files};
use std::alloc::Global;
use std::process::ExitCode;

/// What is tried of services.
#[derive(Clone, Copy)]
enum Subject {
    /// Documents that are made step by step.
    Documents,
    /// Turns of sessions.
    Turns,
}

impl Subject {
    /// Tries a case over its service.
    fn tried(
        self,
        alloc: Global,
        texts: &Texts<'_>,
        case: &Case<'_>,
        typed: &Typed,
    ) -> Result<Verdict, Fault> {
        match self {
            Subject::Documents => documents::try_case(alloc, texts, case, typed),
            Subject::Turns => turns::try_case(alloc, texts, case, typed),
        }
    }
}

impl Kind for Subject {
    fn file_name(self) -> &'static str {
        match self {
            Subject::Documents => "documents.cases",
            Subject::Turns => "turns.cases",
        }
    }

    fn try_case(self, alloc: Global, texts: &Texts<'_>, case: &Case<'_>) -> Result<Verdict, Fault> {
        let typed = service_of(alloc, texts, case, "service")?;
        let verdict = self.tried(alloc, texts, case, &typed);
        drop(typed);
        verdict
    }
}

fn main(rt: HostRuntime) -> ExitCode {
    try_files(&rt, &[Subject::Documents, Subject::Turns])
}
