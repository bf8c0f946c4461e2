//! Worked examples of reading, kept as data: expressions that are grouped, texts that become tokens, insides of
//! templates that become items, the controls in them, pages that are read, schemas that are read, pages that are judged
//! by them, and requests that are read, with the replies that are written. `case_files` says how the files are written,
//! and the head of each module which lines its cases have.
#![tactic(auto)]

mod controls;
mod pages;
mod requests;
mod schemas;
mod shapes;
mod templates;
mod tokens;
mod valid;

use case_files::{Case, Fault, Kind, Texts, Verdict, try_files};
use std::alloc::Global;
use std::process::ExitCode;

/// What is read.
#[derive(Clone, Copy)]
enum Reading {
    /// Expressions that are grouped.
    Shapes,
    /// Texts that become tokens.
    Tokens,
    /// Insides of templates that become items.
    Templates,
    /// Controls in templates.
    Controls,
    /// Bytes that are a page or none.
    Pages,
    /// Texts of schemas.
    Schemas,
    /// Pages that are judged by schemas.
    Valid,
    /// Requests and replies.
    Requests,
}

impl Kind for Reading {
    fn file_name(self) -> &'static str {
        match self {
            Reading::Shapes => "shapes.cases",
            Reading::Tokens => "tokens.cases",
            Reading::Templates => "templates.cases",
            Reading::Controls => "controls.cases",
            Reading::Pages => "pages.cases",
            Reading::Schemas => "schemas.cases",
            Reading::Valid => "valid.cases",
            Reading::Requests => "requests.cases",
        }
    }

    fn try_case(self, alloc: Global, texts: &Texts<'_>, case: &Case<'_>) -> Result<Verdict, Fault> {
        match self {
            Reading::Shapes => shapes::try_case(alloc, case),
            Reading::Tokens => tokens::try_case(alloc, texts, case),
            Reading::Templates => templates::try_case(alloc, texts, case),
            Reading::Controls => controls::try_case(alloc, texts, case),
            Reading::Pages => pages::try_case(alloc, texts, case),
            Reading::Schemas => schemas::try_case(alloc, texts, case),
            Reading::Valid => valid::try_case(alloc, texts, case),
            Reading::Requests => requests::try_case(alloc, texts, case),
        }
    }
}

fn main(rt: HostRuntime) -> ExitCode {
    try_files(
        &rt,
        &[
            Reading::Shapes,
            Reading::Tokens,
            Reading::Templates,
            Reading::Controls,
            Reading::Pages,
            Reading::Schemas,
            Reading::Valid,
            Reading::Requests,
        ],
    )
}
