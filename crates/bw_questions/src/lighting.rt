//! `light`: the lights of texts.
ghost use Rattle.std.specs.Prelude.{◌≡◌, ◌≢◌, IfSome, IsErrOf, string_bytes};
ghost use Rattle.bw_out.specs.Causes.{Shows};
ghost use Rattle.bw_questions.specs.Asked.{lit, lit_file, lights};
ghost use Rattle.bw_questions.specs.Asked.Work.{prints};
ghost use Rattle.bw_questions.specs.Lines as spec;
ghost use Rattle.bw_questions.specs.Questions.{IsAnswer};
ghost use Rattle.bw_questions.specs.Reports.{SaysLine};
ghost use Rattle.bw_command.specs.declared.status.Refusal.TheVariants as refusals;

use crate::formats::load_formats;
use crate::lines::no_texts_line;
use crate::loading::{fetch_bytes, refused};
use crate::stop::Stop;
use bw_command::Refusal;
use bw_format::Formats;
use bw_lang::Memory;
use bw_out::Files;
use std::alloc::Global;

/// The bytes of a file of texts.
pub const MAX_TEXTS_BYTES: usize = 1_048_576;

/// One byte more than a file of texts may have.
const TEXTS_FRONT: usize = 1_048_577;

/// The lights of the texts of a file: the file of formats is read first, then the texts.
pub fn load_lights<F: Files>(
    alloc: Global,
    files: &mut F,
    formats: &str,
    texts: &str,
) -> Result<String, Stop>
    ensures answers { IfSome (F.told files.old) (λ disk. IsAnswer (λ s. prints (string_bytes s)) (lights disk formats.now texts.now) result) }
    ensures told { F.told files.new ≡ F.told files.old }
    ensures read_fault { Shows (IsErrOf result Stop.ReadFault) (F.faults files.old) (F.faults files.new) }
{
    match load_formats(alloc, files, formats) {
        Ok(formats) => {
            let lit = light_file(alloc, files, &formats, texts);
            drop(formats);
            lit
        }
        Err(stop) => Err(stop),
    }
}

/// The lights of the texts of a file, which is closed again: of its first 1,048,577 bytes, which tell what all of them are.
fn light_file<F: Files>(
    alloc: Global,
    files: &mut F,
    formats: &Formats,
    name: &str,
) -> Result<String, Stop>
    ensures answers { IfSome (F.told files.old) (λ disk. IsAnswer (λ s. prints (string_bytes s)) (lit_file disk name.now formats.now) result) }
    ensures told { F.told files.new ≡ F.told files.old }
    ensures read_fault { Shows (IsErrOf result Stop.ReadFault) (F.faults files.old) (F.faults files.new) }
{
    match fetch_bytes(alloc, files, name, TEXTS_FRONT) {
        Ok(bytes) => lights_of(alloc, formats, &bytes),
        Err(stop) => Err(stop),
    }
}

/// The lights of texts.
fn lights_of(alloc: Global, formats: &Formats, bytes: &[u8]) -> Result<String, Stop>
    ensures answers { IsAnswer (λ s. prints (string_bytes s)) (lit formats.now bytes.now) result }
    ensures no_read { IsErrOf result Stop.ReadFault → ⊥ }
{
    if bytes.len() > MAX_TEXTS_BYTES {
        return Err(no_texts(alloc));
    }
    match str::from_utf8(bytes) {
        Ok(text) => match bw_lights::lights(alloc, formats, text) {
            Ok(printed) => Ok(printed),
            Err(Memory) => Err(Stop::Memory),
        },
        Err(_) => Err(no_texts(alloc)),
    }
}

/// That the bytes are no texts.
fn no_texts(alloc: Global) -> Stop
    ensures says { SaysLine refusals.Formats spec.no_texts_line result }
    ensures no_read { result ≢ Stop.ReadFault }
{
    refused(Refusal::Formats, no_texts_line(alloc))
}
