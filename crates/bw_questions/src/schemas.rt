//! The schemas by which services and pages are judged.
ghost use Rattle.std.specs.Prelude.{◌≡◌, IfSome, IsErrOf, Some};
ghost use Rattle.bw_out.specs.Causes.{Shows};
ghost use Rattle.bw_questions.specs.Asked as asked;
ghost use Rattle.bw_questions.specs.Asked.{rules, schema};
ghost use Rattle.bw_questions.specs.Questions.{IsAnswer};

use crate::lines::schema_line;
use crate::loading::{fetch_bytes, refused};
use crate::stop::Stop;
use bw_command::Refusal;
use bw_lang::{Memory, Text};
use bw_out::Files;
use bw_schema::{MAX_SCHEMA_BYTES, Schema, built_in, read_schema};
use std::alloc::Global;

/// One byte more than a schema file may have.
const SCHEMA_FRONT: usize = MAX_SCHEMA_BYTES + 1;

/// The built-in schema.
pub fn default_schema(alloc: Global) -> Result<Schema, Stop>
    ensures answers { IsAnswer (λ s. s) asked.built_in result }
    ensures no_read { IsErrOf result Stop.ReadFault → ⊥ }
{
    match built_in(alloc) {
        Ok(schema) => Ok(schema),
        Err(Memory) => Err(Stop::Memory),
    }
}

/// The schema of a file, or the built-in one where none is named.
pub fn load_schema<F: Files>(
    alloc: Global,
    files: &mut F,
    named: &Option<Text>,
) -> Result<Schema, Stop>
    ensures answers { IfSome (F.told files.old) (λ disk. IsAnswer (λ s. s) (schema disk named.now) result) }
    ensures told { F.told files.new ≡ F.told files.old }
    ensures read_fault { Shows (IsErrOf result Stop.ReadFault) (F.faults files.old) (F.faults files.new) }
{
    match named {
        None => default_schema(alloc),
        Some(name) => load_rules(alloc, files, name.as_str()),
    }
}

/// The schema of a file, which is closed again: of its first 1,048,577 bytes, which tell what all of them are.
fn load_rules<F: Files>(alloc: Global, files: &mut F, name: &str) -> Result<Schema, Stop>
    ensures answers { IfSome (F.told files.old) (λ disk. IsAnswer (λ s. s) (schema disk (Some name.now)) result) }
    ensures told { F.told files.new ≡ F.told files.old }
    ensures read_fault { Shows (IsErrOf result Stop.ReadFault) (F.faults files.old) (F.faults files.new) }
{
    match fetch_bytes(alloc, files, name, SCHEMA_FRONT) {
        Ok(bytes) => rules_of(alloc, &bytes),
        Err(stop) => Err(stop),
    }
}

/// The schema that these bytes read as.
fn rules_of(alloc: Global, bytes: &[u8]) -> Result<Schema, Stop>
    ensures answers { IsAnswer (λ s. s) (rules bytes.now) result }
    ensures no_read { IsErrOf result Stop.ReadFault → ⊥ }
{
    match read_schema(alloc, bytes) {
        Ok(schema) => Ok(schema),
        Err(fault) => Err(refused(Refusal::Schema, schema_line(alloc, &fault))),
    }
}
