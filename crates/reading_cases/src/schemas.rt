//! Cases of texts of schemas. A case has the line `text PARTS`, a schema's text, and wants `read`, or why it is
//! refused: `malformed`, `version N`, `repeated NAME`, `unknown NAME` or `too long`.

use bw_schema::{SchemaFault, read_schema};
use case_files::{Case, Fault, Texts, Verdict};
use std::alloc::Global;

/// Tries a schema's text.
pub fn try_case(alloc: Global, texts: &Texts<'_>, case: &Case<'_>) -> Result<Verdict, Fault> {
    let text = case.text_of(alloc, texts, "text")?;
    let got = answer(alloc, &text)?;
    Ok(Verdict::of(case.wanted(alloc, &["text"])?, got))
}

/// What comes of a schema's text.
fn answer(alloc: Global, text: &[u8]) -> Result<String, Fault> {
    match read_schema(alloc, text) {
        Ok(schema) => {
            drop(schema);
            Ok(String::from_str(alloc, "read")?)
        }
        Err(fault) => refusal(alloc, fault),
    }
}

/// Why a text is refused, where there was memory.
pub fn refusal(alloc: Global, fault: SchemaFault) -> Result<String, Fault> {
    let words = refusal_words(alloc, &fault);
    drop(fault);
    words
}

fn refusal_words(alloc: Global, fault: &SchemaFault) -> Result<String, Fault> {
    Ok(match fault {
        SchemaFault::Malformed => String::from_str(alloc, "malformed")?,
        SchemaFault::Version(version) => format!(in alloc; "version {version}")?,
        SchemaFault::Repeated(name) => format!(in alloc; "repeated {}", name.as_str())?,
        SchemaFault::Unknown(name) => format!(in alloc; "unknown {}", name.as_str())?,
        SchemaFault::TooLong => String::from_str(alloc, "too long")?,
        SchemaFault::Memory => return Err(Fault::Memory),
    })
}
