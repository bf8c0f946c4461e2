//! What the files give: the service.
ghost use Rattle.std.specs.Prelude.{◌≡◌, ◌≢◌, ◌≤◌, ◌++◌, List, ℕ, IfOk, IfErr, IfSome, IsErrOf, is_some, length, take, Some};
ghost use Rattle.bw_diagnose.specs.Known.{IsLent};
ghost use Rattle.bw_lang.specs.Service.Reads.{IsReadable, Reads};
ghost use Rattle.bw_lang.specs.declared.limits.TheConstants.{MAX_FILE_BYTES};
ghost use Rattle.bw_out.specs.Causes.{Shows};
ghost use Rattle.bw_syntax.specs.Told.{IsTold};
ghost use Rattle.bw_syntax.specs.declared.fault.SyntaxFault.TheVariants as faults;
ghost use Rattle.bw_types.specs.declared.fault.TypeFault.TheVariants as types;
ghost use Rattle.bw_questions.specs.Asked.{file, typed, service_text, service_file};
ghost use Rattle.bw_questions.specs.Behind.{shown_if, shown_of, shown_file, AreKept, behind_syntax, behind_aim};
ghost use Rattle.bw_questions.specs.Lines as lines;
ghost use Rattle.bw_questions.specs.Questions.{IsAnswer, IsStop, line};
ghost use Rattle.bw_questions.specs.Reports.{SaysLine, SaysText};
ghost use Rattle.bw_command.specs.declared.status.Refusal.TheVariants as refusals;

use crate::lines::{no_file_line, syntax_line, type_line};
use crate::seen::{Aimed, Seen};
use crate::sight::{aim_if, kept, push_behind_syntax, push_behind_type, seen_as};
use crate::stop::Stop;
use bw_command::Refusal;
use bw_diagnose::Paper;
use bw_lang::limits::MAX_FILE_BYTES;
use bw_lang::{Memory, Service};
use bw_out::{Failed, Files, ReadStop, read_up_to};
use bw_syntax::{SyntaxFault, Told, read_told, tell};
use bw_types::{TypeFault, Typed, resolve};
use std::alloc::Global;

/// One byte more than a service file may have.
const SERVICE_FRONT: usize = MAX_FILE_BYTES + 1;

/// A service that is well typed, with the text of its file, and the tokens of that, where it is shown.
#[derive(Drop)]
pub struct Loaded {
    pub typed: Typed,
    pub text: Vec<u8>,
    pub told: Option<Told>,
}

/// The same without the text.
#[derive(Drop)]
pub struct Read {
    pub typed: Typed,
    pub told: Option<Told>,
}

/// That this is refused, or isn't there, with the line that says why.
pub fn refused(refusal: Refusal, line: Result<Vec<u8>, Memory>) -> Stop
    ensures line { IfOk line (λ l. SaysLine refusal l.items result) }
    ensures memory { IfErr line (λ e. result ≡ Stop.Memory) }
    ensures no_read { result ≢ Stop.ReadFault }
{
    match line {
        Ok(line) => said(refusal, line),
        Err(Memory) => Stop::Memory,
    }
}

/// That this is refused, with a line to which its end is added.
fn said(refusal: Refusal, line: Vec<u8>) -> Stop
    ensures { SaysLine refusal line.items result }
{
    let mut text = line;
    match text.push(b'\n') {
        Ok(()) => Stop::Says(refusal, text),
        Err(_) => Stop::Memory,
    }
}

/// That there is no file of this name.
pub fn no_file(alloc: Global, name: &str) -> Stop
    ensures { SaysLine refusals.File (lines.no_file_line name.now) result }
{
    refused(Refusal::File, no_file_line(alloc, name))
}

/// The first `most` bytes of a file, or all of them. The file is closed again.
pub fn fetch_bytes<F: Files>(
    alloc: Global,
    files: &mut F,
    name: &str,
    most: usize,
) -> Result<Vec<u8>, Stop>
    ensures found { IfOk result (λ bytes. IfSome (F.told files.old)
        (λ disk. (content : List ℕ) × (disk name.now ≡ Some content) × (bytes.items ≡ take most content))) }
    ensures stops { IfErr result (λ stop. IfSome (F.told files.old) (λ disk. IsStop (file disk name.now) stop)) }
    ensures told { F.told files.new ≡ F.told files.old }
    ensures read_fault { Shows (IsErrOf result Stop.ReadFault) (F.faults files.old) (F.faults files.new) }
{
    match files.fetch(name) {
        Err(Failed) => Err(Stop::ReadFault),
        Ok(None) => Err(no_file(alloc, name)),
        Ok(Some(mut file)) => {
            let read = read_up_to(alloc, &mut file, most);
            files.close(file);
            match read {
                Ok(bytes) => Ok(bytes),
                Err(ReadStop::Fault) => Err(Stop::ReadFault),
                Err(ReadStop::Memory) => Err(Stop::Memory),
            }
        }
    }
}

/// That this is refused, with a text that has its ends of lines.
pub fn refused_text(refusal: Refusal, text: Result<Vec<u8>, Memory>) -> Stop
    ensures text { IfOk text (λ t. SaysText refusal t.items result) }
    ensures memory { IfErr text (λ e. result ≡ Stop.Memory) }
    ensures no_read { result ≢ Stop.ReadFault }
{
    match text {
        Ok(text) => Stop::Says(refusal, text),
        Err(Memory) => Stop::Memory,
    }
}

/// The service of a file, which is closed again: of its first 1,048,577 bytes, which tell what all of them are. Where it is
/// refused and `source` is set, its source is shown.
pub fn load_service<F: Files>(
    alloc: Global,
    files: &mut F,
    name: &str,
    source: bool,
) -> Result<Loaded, Stop>
    ensures answers { IfSome (F.told files.old) (λ disk.
        IsAnswer (λ l. l.typed.service) (service_file (shown_file source disk name.now) disk name.now) result) }
    ensures text { IfOk result (λ l. IfSome (F.told files.old) (λ disk. disk name.now ≡ Some l.text.items)) }
    ensures short { IfOk result (λ l. length l.text.items ≤ MAX_FILE_BYTES) }
    ensures kept { IfOk result (λ l. AreKept source l.text.items l.told) }
    ensures reads { IfOk result (λ l. Reads l.text.items l.typed.service) }
    ensures told { F.told files.new ≡ F.told files.old }
    ensures read_fault { Shows (IsErrOf result Stop.ReadFault) (F.faults files.old) (F.faults files.new) }
{
    let text = fetch_bytes(alloc, files, name, SERVICE_FRONT)?;
    match typed_of(alloc, &text, name, source) {
        Ok(read) => {
            let Read { typed, told } = read;
            Ok(Loaded { typed, text, told })
        }
        Err(stop) => Err(stop),
    }
}

/// The service that these bytes of a file read as, where it is well typed. Where it is refused and `source` is set, its source
/// is shown.
pub fn typed_of(alloc: Global, bytes: &[u8], name: &str, source: bool) -> Result<Read, Stop>
    ensures answers { IsAnswer (λ r. r.typed.service) (service_text (shown_if source name.now bytes.now) bytes.now) result }
    ensures kept { IfOk result (λ r. AreKept source bytes.now r.told) }
    ensures no_read { IsErrOf result Stop.ReadFault → ⊥ }
{
    match tell(alloc, bytes) {
        Ok(told) => typed_told(alloc, bytes, told, name, source),
        Err(fault) => {
            let text = syntax_text(alloc, bytes, name, source, &Told::none(alloc), &fault);
            Err(refused_text(Refusal::Service, text))
        }
    }
}

/// The same of bytes whose tokens these are.
fn typed_told(
    alloc: Global,
    bytes: &[u8],
    told: Told,
    name: &str,
    source: bool,
) -> Result<Read, Stop>
    requires { IsTold bytes.now told }
    ensures answers { IsAnswer (λ r. r.typed.service) (service_text (shown_if source name.now bytes.now) bytes.now) result }
    ensures kept { IfOk result (λ r. AreKept source bytes.now r.told) }
    ensures no_read { IsErrOf result Stop.ReadFault → ⊥ }
{
    match read_told(alloc, bytes, &told) {
        Ok(service) => typed_kept(alloc, service, kept(told, source), name, bytes),
        Err(fault) => {
            let text = syntax_text(alloc, bytes, name, source, &told, &fault);
            drop(told);
            Err(refused_text(Refusal::Service, text))
        }
    }
}

/// The same of a service, where the tokens of its text are kept.
fn typed_kept(
    alloc: Global,
    service: Service,
    told: Option<Told>,
    name: &str,
    bytes: &[u8],
) -> Result<Read, Stop>
    requires reads { Reads bytes.now service }
    requires told { IfSome told (IsTold bytes.now) }
    ensures answers { IsAnswer (λ r. r.typed.service) (typed (shown_if (is_some told) name.now bytes.now) service) result }
    ensures kept { IfOk result (λ r. r.told ≡ told) }
    ensures no_read { IsErrOf result Stop.ReadFault → ⊥ }
{
    match resolved(alloc, service, seen_as(name, bytes, &told)) {
        Ok(typed) => Ok(Read { typed, told }),
        Err(stop) => {
            drop(told);
            Err(stop)
        }
    }
}

/// The line of a text that is read as no service, and what is shown behind it. Want of memory has no line.
fn syntax_text(
    alloc: Global,
    bytes: &[u8],
    name: &str,
    source: bool,
    told: &Told,
    fault: &SyntaxFault,
) -> Result<Vec<u8>, Memory>
    requires { IsLent bytes.now told.now fault.now }
    ensures text { IfOk result (λ text. text.items ≡ line (lines.syntax_line fault.now)
        ++ behind_syntax (shown_if source name.now bytes.now) fault.now) }
    ensures reason { IfOk result (λ text. fault.now ≢ faults.Memory) }
{
    let mut text = syntax_line(alloc, fault)?;
    text.push(b'\n')?;
    if source {
        let paper = Paper {
            name: name.as_bytes(),
            text: bytes,
        };
        push_behind_syntax(&mut text, alloc, paper, told, fault)?;
        Ok(text)
    } else {
        Ok(text)
    }
}

/// A service, where it is well typed. What is known of its first test that fails is sought first, where it is shown: a
/// refusal drops the service.
fn resolved(alloc: Global, service: Service, how: Option<Seen<'_>>) -> Result<Typed, Stop>
    requires readable { IsReadable service }
    requires reads { IfSome (shown_of how) (λ shown. Reads shown.text service) }
    ensures answers { IsAnswer (λ t. t.service) (typed (shown_of how.entry) service) result }
    ensures no_read { IsErrOf result Stop.ReadFault → ⊥ }
{
    let Ok(aimed) = aim_if(alloc, &service, how) else {
        drop(service);
        return Err(Stop::Memory);
    };
    match resolve(alloc, service) {
        Ok(typed) => Ok(typed),
        Err(fault) => Err(refused_text(Refusal::Service, type_text(alloc, &aimed, &fault))),
    }
}

/// The line of a service that isn't well typed, and what is shown behind it. Want of memory has no line.
fn type_text(alloc: Global, aimed: &Option<Aimed<'_>>, fault: &TypeFault) -> Result<Vec<u8>, Memory>
    ensures text { IfOk result (λ text. text.items ≡ line (lines.type_line fault.now) ++ behind_aim aimed.now fault.now) }
    ensures reason { IfOk result (λ text. fault.now ≢ types.Memory) }
{
    let mut text = type_line(alloc, fault)?;
    text.push(b'\n')?;
    push_behind_type(&mut text, alloc, aimed, fault)?;
    Ok(text)
}
