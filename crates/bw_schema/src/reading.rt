//! The text of a schema is read.
ghost use Rattle.std.specs.Prelude.{◌≡◌, IfOk, IfErr};
ghost use Rattle.bw_schema.specs.Steps.Reading as spec;
ghost use Rattle.bw_schema.specs.Reads.{Reads, IsSchemaRefused};

use crate::building::rules_of;
use crate::claims::check;
use crate::fault::SchemaFault;
use crate::lines::{Line, text_of, version_of};
use crate::rules::{Rule, Rules};
use crate::schema::Schema;
use crate::words::said;
use bw_lang::{Name, Words};
use std::alloc::Global;
use std::str;

/// The greatest number of bytes of a schema's text.
pub const MAX_SCHEMA_BYTES: usize = 1_048_576;

/// The rules of the lines, if they declare nothing twice and all that they use.
fn judged(alloc: Global, root: &Name, lines: &[Line]) -> Result<Vec<Rule>, SchemaFault>
    ensures { spec.Answers (λ rules. rules.items) result (spec.judged root.now lines.now) }
{
    check(alloc, root, lines)?;
    Ok(rules_of(alloc, lines)?)
}

/// The root and the rules of the text behind the first line, in a schema of this version.
fn behind_version(
    alloc: Global,
    version: u64,
    said: &[Words],
) -> Result<(Name, Vec<Rule>), SchemaFault>
    ensures { spec.Answers (λ x. (x.0, x.1.items)) result (spec.judged_text (spec.text_of version said.now)) }
{
    let (root, lines) = text_of(alloc, version, said)?;
    let rules = judged(alloc, &root, lines.as_slice())?;
    Ok((root, rules))
}

/// The root and the rules of all that a text says.
fn read_said(alloc: Global, said: &[Words]) -> Result<(Name, Vec<Rule>), SchemaFault>
    ensures { spec.Answers (λ x. (x.0, x.1.items)) result (spec.read_said said.now) }
{
    let [first, rest @ ..] = said else {
        return Err(SchemaFault::Malformed);
    };
    let Some(version) = version_of(first.as_slice()) else {
        return Err(SchemaFault::Malformed);
    };
    if version != 1 && version != 2 {
        return Err(SchemaFault::Version(version));
    }
    behind_version(alloc, version, rest)
}

/// The root and the rules of a text.
#[tactic(auto, unfolding(crate::specs::Steps::Reading::read))]
fn read(alloc: Global, bytes: &[u8]) -> Result<(Name, Vec<Rule>), SchemaFault>
    ensures { spec.Answers (λ x. (x.0, x.1.items)) result (spec.read bytes.now) }
{
    if bytes.len() > MAX_SCHEMA_BYTES {
        return Err(SchemaFault::TooLong);
    }
    match str::from_utf8(bytes) {
        Ok(text) => read_said(alloc, said(alloc, text)?.as_slice()),
        Err(_) => Err(SchemaFault::Malformed),
    }
}

/// Reads the text of a schema, of version 1 or 2 (docs/SCHEMA.md).
///
/// It answers the schema exactly where the text reads as one, and a text reads as one schema at most. It refuses, in this
/// order: `TooLong` where there are more than `MAX_SCHEMA_BYTES` bytes; `Malformed` where the bytes aren't UTF-8 or the first
/// line isn't `schema` and a number of one to nine digits; `Version` where that number is neither 1 nor 2; `Malformed`
/// where another line isn't as it has to be; `Repeated` with what is declared twice, the first in the order of lines; and
/// `Unknown` with what is used and not declared, the first in the order of lines, and in a line from left to right. Only
/// want of memory comes at any text. It takes time that grows with the number of the bytes.
pub fn read_schema(alloc: Global, bytes: &[u8]) -> Result<Schema, SchemaFault>
    ensures ok { IfOk result (λ s. Reads bytes.now s.root s.elements) }
    ensures refused { IfErr result (λ e. IsSchemaRefused bytes.now e) }
{
    let (root, rules) = read(alloc, bytes)?;
    Ok(Schema {
        root,
        elements: Rules::from_vec(rules),
    })
}
