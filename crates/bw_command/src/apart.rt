//! The words of `freeze` and `visit` are read.
ghost use Rattle.std.specs.Prelude.{◌≡◌, None, Some, IfOk, IsErrOf};
ghost use Rattle.bw_command.specs.Commands as spec;
ghost use Rattle.bw_command.specs.Words as words;

use crate::command::{Command, MAX_REQUESTS};
use crate::numbers::number_or;
use crate::reading::{judging_by, owned, owned_option};
use crate::words::{Line, WordsFault};
use std::alloc::Global;

/// `freeze SERVICE REQUESTS`, or `freeze SERVICE` where a journal is named.
pub fn freeze_by(alloc: Global, line: &Line<'_>) -> Result<Command, WordsFault>
    ensures ok { IfOk result (λ c. (spec.freeze_by (words.line_of line.now) ≡ Some c) × spec.IsInRange c) }
    ensures refused { IsErrOf result WordsFault.Refused → spec.freeze_by (words.line_of line.now) ≡ None }
{
    if line.port.is_some() || line.rotate.is_some() {
        return Err(WordsFault::Refused);
    }
    match line.journal {
        None => requests_by(alloc, line),
        Some(journal) => preserve_by(alloc, line, journal),
    }
}

/// `freeze SERVICE REQUESTS`, from saved sessions where they are named.
fn requests_by(alloc: Global, line: &Line<'_>) -> Result<Command, WordsFault>
    ensures ok { IfOk result (λ c. (spec.requests_by (words.line_of line.now) ≡ Some c) × spec.IsInRange c) }
    ensures refused { IsErrOf result WordsFault.Refused → spec.requests_by (words.line_of line.now) ≡ None }
{
    let service = line.first.ok_or(WordsFault::Refused)?;
    let requests = line.second.ok_or(WordsFault::Refused)?;
    let most = number_or(1, MAX_REQUESTS, MAX_REQUESTS, line.limit).ok_or(WordsFault::Refused)?;
    let judging = judging_by(alloc, line)?;
    let service = owned(alloc, service)?;
    let requests = owned(alloc, requests)?;
    let formats = owned_option(alloc, line.formats)?;
    Ok(Command::Freeze {
        service,
        requests,
        judging,
        formats,
        load: owned_option(alloc, line.load)?,
        most,
    })
}

/// `freeze SERVICE` of what a journal brings about.
fn preserve_by(alloc: Global, line: &Line<'_>, journal: &str) -> Result<Command, WordsFault>
    ensures ok { IfOk result (λ c. (spec.preserve_by (words.line_of line.now) journal.now ≡ Some c) × spec.IsInRange c) }
    ensures refused { IsErrOf result WordsFault.Refused → spec.preserve_by (words.line_of line.now) journal.now ≡ None }
{
    if line.limit.is_some() || line.load.is_some() || line.second.is_some() {
        return Err(WordsFault::Refused);
    }
    let service = line.first.ok_or(WordsFault::Refused)?;
    let judging = judging_by(alloc, line)?;
    let service = owned(alloc, service)?;
    let formats = owned_option(alloc, line.formats)?;
    Ok(Command::Preserve {
        service,
        judging,
        formats,
        journal: owned(alloc, journal)?,
    })
}

/// `visit SERVICE SCRIPT`.
pub fn visit_by(alloc: Global, line: &Line<'_>) -> Result<Command, WordsFault>
    ensures ok { IfOk result (λ c. (spec.visit_by (words.line_of line.now) ≡ Some c) × spec.IsInRange c) }
    ensures refused { IsErrOf result WordsFault.Refused → spec.visit_by (words.line_of line.now) ≡ None }
{
    if line.limit.is_some()
        || line.port.is_some()
        || line.journal.is_some()
        || line.load.is_some()
        || line.rotate.is_some()
    {
        return Err(WordsFault::Refused);
    }
    let service = line.first.ok_or(WordsFault::Refused)?;
    let script = line.second.ok_or(WordsFault::Refused)?;
    let judging = judging_by(alloc, line)?;
    Ok(Command::Visit {
        service: owned(alloc, service)?,
        script: owned(alloc, script)?,
        judging,
        formats: owned_option(alloc, line.formats)?,
    })
}
