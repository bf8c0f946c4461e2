//! What the files give: the formats of fields.
ghost use Rattle.std.specs.Prelude.{◌≡◌, IfSome, IsErrOf};
ghost use Rattle.bw_out.specs.Causes.{Shows};
ghost use Rattle.bw_questions.specs.Asked as asked;
ghost use Rattle.bw_questions.specs.Asked.{formats_in, formats_file};
ghost use Rattle.bw_questions.specs.Questions.{IsAnswer};

use crate::lines::format_line;
use crate::loading::{fetch_bytes, refused};
use crate::stop::Stop;
use bw_command::Refusal;
use bw_format::{Formats, read_formats};
use bw_lang::Text;
use bw_out::Files;
use std::alloc::Global;

/// One byte more than a file of formats may have.
const FORMATS_FRONT: usize = 65_537;

/// The formats of the file that is named, or none where none is named.
pub fn formats_for<F: Files>(
    alloc: Global,
    files: &mut F,
    named: &Option<Text>,
) -> Result<Formats, Stop>
    ensures answers { IfSome (F.told files.old) (λ disk. IsAnswer (λ f. f) (asked.formats disk named.now) result) }
    ensures told { F.told files.new ≡ F.told files.old }
    ensures read_fault { Shows (IsErrOf result Stop.ReadFault) (F.faults files.old) (F.faults files.new) }
{
    match named {
        Some(name) => load_formats(alloc, files, name.as_str()),
        None => Ok(Formats::none()),
    }
}

/// The formats of a file, which is closed again: of its first 65,537 bytes, which tell what all of them are.
pub fn load_formats<F: Files>(alloc: Global, files: &mut F, name: &str) -> Result<Formats, Stop>
    ensures answers { IfSome (F.told files.old) (λ disk. IsAnswer (λ f. f) (formats_file disk name.now) result) }
    ensures told { F.told files.new ≡ F.told files.old }
    ensures read_fault { Shows (IsErrOf result Stop.ReadFault) (F.faults files.old) (F.faults files.new) }
{
    match fetch_bytes(alloc, files, name, FORMATS_FRONT) {
        Ok(bytes) => formats_of(alloc, &bytes),
        Err(stop) => Err(stop),
    }
}

/// The formats that these bytes read as.
fn formats_of(alloc: Global, bytes: &[u8]) -> Result<Formats, Stop>
    ensures answers { IsAnswer (λ f. f) (formats_in bytes.now) result }
    ensures no_read { IsErrOf result Stop.ReadFault → ⊥ }
{
    match read_formats(alloc, bytes) {
        Ok(formats) => Ok(formats),
        Err(fault) => Err(refused(Refusal::Formats, format_line(alloc, &fault))),
    }
}
