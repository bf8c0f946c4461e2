//! Services that the check accepts.
ghost use Rattle.std.specs.Prelude.{◌≡◌, ◌≤◌, false, length, None, Some, IfOk, IfSome, IsErrOf, codes};
ghost use Rattle.bw_lang.specs.declared.limits.TheConstants.{MAX_FILE_BYTES};
ghost use Rattle.bw_lang.specs.Service.Reads.{Reads};
ghost use Rattle.bw_out.specs.Causes.{Shows};
ghost use Rattle.bw_questions.specs.Asked as asked;
ghost use Rattle.bw_questions.specs.Asked.{accepted_file, check_work};
ghost use Rattle.bw_questions.specs.Asked.Work.{prints};
ghost use Rattle.bw_questions.specs.Behind.{shown_of};
ghost use Rattle.bw_questions.specs.Checks.{ruled_by};
ghost use Rattle.bw_command.specs.Commands.{AreWorkers};
ghost use Rattle.bw_questions.specs.FaultLines as lines;
ghost use Rattle.bw_questions.specs.Questions.{IsAnswer, line};

use crate::fault_lines::check_stop;
use crate::formats::formats_for;
use crate::loading::{Loaded, Read, load_service, typed_of};
use crate::schemas::{default_schema, load_schema};
use crate::seen::Seen;
use crate::sight::{seen_as, sight_if};
use crate::stop::Stop;
use crate::tools::Tools;
use bw_check::{Checked, check};
use bw_command::{Judging, Named};
use bw_format::Formats;
use bw_lang::{Memory, Text, Words};
use bw_out::{Files, Pulse};
use bw_schema::Schema;
use bw_types::Typed;
use std::alloc::Global;
use std::thread::Threads;

/// A service that is accepted, and the formats of its fields.
#[derive(Drop)]
pub struct Served {
    pub checked: Checked,
    pub formats: Formats,
}

/// A service that is accepted, and the text of its file.
#[derive(Drop)]
pub struct Kept {
    pub served: Served,
    pub text: Vec<u8>,
}

/// The service of a file, where it is accepted.
pub fn load_checked<R: Threads + Sync, F: Files, P: Pulse>(
    tools: &Tools<R, P>,
    files: &mut F,
    named: Named<'_, '_, '_>,
) -> Result<Served, Stop>
    requires { AreWorkers named.judging.now.workers }
    ensures answers { IfSome (F.told files.old) (λ disk.
        IsAnswer ruled_by (accepted_file disk named.entry.service.now named.entry.judging.now named.entry.formats.now) result) }
    ensures told { F.told files.new ≡ F.told files.old }
    ensures read_fault { Shows (IsErrOf result Stop.ReadFault) (F.faults files.old) (F.faults files.new) }
{
    match load_kept(tools, files, named) {
        Ok(kept) => {
            let Kept { served, text } = kept;
            drop(text);
            Ok(served)
        }
        Err(stop) => Err(stop),
    }
}

/// The same with the text of the file: the service file is read first, then the schema and the formats, and then comes the
/// check.
pub fn load_kept<R: Threads + Sync, F: Files, P: Pulse>(
    tools: &Tools<R, P>,
    files: &mut F,
    named: Named<'_, '_, '_>,
) -> Result<Kept, Stop>
    requires { AreWorkers named.judging.now.workers }
    ensures text { IfOk result (λ kept. IfSome (F.told files.old) (λ disk. disk named.entry.service.now ≡ Some kept.text.items)) }
    ensures short { IfOk result (λ kept. length kept.text.items ≤ MAX_FILE_BYTES) }
    ensures answers { IfSome (F.told files.old) (λ disk.
        IsAnswer (λ kept. ruled_by kept.served) (accepted_file disk named.entry.service.now named.entry.judging.now named.entry.formats.now) result) }
    ensures told { F.told files.new ≡ F.told files.old }
    ensures read_fault { Shows (IsErrOf result Stop.ReadFault) (F.faults files.old) (F.faults files.new) }
{
    let name = named.service.as_str();
    let loaded = load_service(tools.alloc, files, name, named.judging.source)?;
    let Loaded { typed, text, told } = loaded;
    let how = seen_as(name, &text, &told);
    match load_schema(tools.alloc, files, &named.judging.schema) {
        Ok(schema) => match checked_with(tools, files, typed, schema, named, how) {
            Ok(served) => {
                drop(told);
                Ok(Kept { served, text })
            }
            Err(stop) => {
                drop(told);
                drop(text);
                Err(stop)
            }
        },
        Err(stop) => {
            drop(told);
            drop(typed);
            drop(text);
            Err(stop)
        }
    }
}

/// The same of a service and a schema: the formats are read, and then comes the check.
fn checked_with<R: Threads + Sync, F: Files, P: Pulse>(
    tools: &Tools<R, P>,
    files: &mut F,
    typed: Typed,
    schema: Schema,
    named: Named<'_, '_, '_>,
    how: Option<Seen<'_>>,
) -> Result<Served, Stop>
    requires workers { AreWorkers named.judging.now.workers }
    requires reads { IfSome (shown_of how) (λ shown. Reads shown.text typed.service) }
    ensures answers { IfSome (F.told files.old) (λ disk.
        IsAnswer ruled_by (asked.checked_with (shown_of how.entry) disk named.entry.formats.now typed.service schema) result) }
    ensures told { F.told files.new ≡ F.told files.old }
    ensures read_fault { Shows (IsErrOf result Stop.ReadFault) (F.faults files.old) (F.faults files.new) }
{
    match formats_for(tools.alloc, files, named.formats) {
        Ok(formats) => checked(tools, typed, schema, formats, named.judging.workers, how),
        Err(stop) => {
            drop(typed);
            drop(schema);
            Err(stop)
        }
    }
}

/// That the service of a file is accepted.
pub fn load_accepted<R: Threads + Sync, F: Files, P: Pulse>(
    tools: &Tools<R, P>,
    files: &mut F,
    service: &Text,
    judging: &Judging,
) -> Result<(), Stop>
    requires { AreWorkers judging.now.workers }
    ensures answers { IfSome (F.told files.old) (λ disk.
        IsAnswer (λ done. prints (line (codes "accepted"))) (check_work disk service.now judging.now false) result) }
    ensures told { F.told files.new ≡ F.told files.old }
    ensures read_fault { Shows (IsErrOf result Stop.ReadFault) (F.faults files.old) (F.faults files.new) }
{
    let named = Named {
        service,
        judging,
        formats: &None,
    };
    match load_checked(tools, files, named) {
        Ok(served) => {
            drop(served);
            Ok(())
        }
        Err(stop) => Err(stop),
    }
}

/// The service of a text, without formats, where it is accepted by the built-in schema.
pub fn made_checked<R: Threads + Sync, P: Pulse>(
    tools: &Tools<R, P>,
    text: &[u8],
    workers: u32,
) -> Result<Served, Stop>
    requires { AreWorkers workers }
    ensures answers { IsAnswer ruled_by (asked.accepted_text text.now) result }
    ensures no_read { IsErrOf result Stop.ReadFault → ⊥ }
{
    let read = typed_of(tools.alloc, text, "", false)?;
    let Read { typed, told } = read;
    drop(told);
    match default_schema(tools.alloc) {
        Ok(schema) => checked(tools, typed, schema, Formats::none(), workers, None),
        Err(stop) => {
            drop(typed);
            Err(stop)
        }
    }
}

/// The service, where the check accepts it by the schema. The names of its templates are taken first, for the lines of its
/// faults, and where it is shown also the places of its statements: a refusal drops the service and the formats.
fn checked<R: Threads + Sync, P: Pulse>(
    tools: &Tools<R, P>,
    typed: Typed,
    schema: Schema,
    formats: Formats,
    workers: u32,
    how: Option<Seen<'_>>,
) -> Result<Served, Stop>
    requires workers { AreWorkers workers }
    requires reads { IfSome (shown_of how) (λ shown. Reads shown.text typed.service) }
    ensures answers { IsAnswer ruled_by (asked.checked (shown_of how.entry) typed.service schema formats) result }
    ensures no_read { IsErrOf result Stop.ReadFault → ⊥ }
{
    let Ok(names) = page_names(tools.alloc, &typed) else {
        drop(typed);
        drop(schema);
        drop(formats);
        return Err(Stop::Memory);
    };
    let Ok(sight) = sight_if(tools.alloc, typed.service(), how) else {
        drop(typed);
        drop(schema);
        drop(formats);
        return Err(Stop::Memory);
    };
    match check(tools.rt, tools.alloc, typed, schema, workers, tools.pulse) {
        Ok(checked) => Ok(Served { checked, formats }),
        Err(fault) => {
            drop(formats);
            Err(check_stop(tools.alloc, names.as_slice(), &fault, &sight))
        }
    }
}

/// The names of the templates by their numbers, and behind them those of the wrappers of shown and of last pages.
pub fn page_names(alloc: Global, typed: &Typed) -> Result<Words, Memory>
    ensures { IfOk result (λ names. names ≡ lines.page_names typed.now.service) }
{
    let mut names = Words::new(alloc);
    for template in typed.service().templates.as_slice() {
        names.push(Text::of(alloc, template.name.as_str())?)?;
    }
    names.push(Text::of(alloc, "(show)")?)?;
    names.push(Text::of(alloc, "(exit)")?)?;
    Ok(names)
}
