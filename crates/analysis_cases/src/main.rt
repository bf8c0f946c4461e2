//! Worked examples of the analysis, kept as data: services with their flows, with what is found out of them, and with
//! the faults of their page graphs; and below these, summaries of documents, and least solutions beside the plain ones.
//! The module of each file says how its cases are written, and `case_files` how a file is.
#![tactic(auto)]

mod facts;
mod flows;
mod graphs;
mod pages;
mod sets;
mod summaries;
mod values;

use case_files::{Case, Fault, Kind, Texts, Verdict, try_files};
use std::alloc::Global;
use std::process::ExitCode;

/// The files of cases.
#[derive(Clone, Copy)]
enum Table {
    /// Services and their flows.
    Flows,
    /// Services and their facts.
    Facts,
    /// Services and their page graphs.
    Pages,
    /// Services, their page graphs, and pages that show their faults.
    Explained,
    /// Summaries of documents.
    Summaries,
    /// Cells and what they hold.
    Sets,
}

impl Kind for Table {
    fn file_name(self) -> &'static str {
        match self {
            Table::Flows => "flows.cases",
            Table::Facts => "facts.cases",
            Table::Pages => "pages.cases",
            Table::Explained => "explained.cases",
            Table::Summaries => "summaries.cases",
            Table::Sets => "sets.cases",
        }
    }

    fn try_case(self, alloc: Global, texts: &Texts<'_>, case: &Case<'_>) -> Result<Verdict, Fault> {
        match self {
            Table::Flows => flows::try_case(alloc, texts, case),
            Table::Facts => facts::try_case(alloc, texts, case),
            Table::Pages => pages::try_case(alloc, texts, case),
            Table::Explained => pages::try_case(alloc, texts, case),
            Table::Summaries => summaries::try_case(alloc, texts, case),
            Table::Sets => sets::try_case(alloc, case),
        }
    }
}

fn main(rt: HostRuntime) -> ExitCode {
    try_files(
        &rt,
        &[
            Table::Flows,
            Table::Facts,
            Table::Pages,
            Table::Explained,
            Table::Summaries,
            Table::Sets,
        ],
    )
}
