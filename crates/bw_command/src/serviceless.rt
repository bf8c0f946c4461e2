//! The words of `valid`, `make` and `light` are read, which name no service.
ghost use Rattle.std.specs.Prelude.{◌≡◌, None, Some, IfOk, IfErr, IsErrOf};
ghost use Rattle.bw_command.specs.Commands as spec;
ghost use Rattle.bw_command.specs.Words as words;

use crate::command::{Command, MAX_WORKERS};
use crate::numbers::{number_in, number_or};
use crate::reading::{is_written, owned, owned_option};
use crate::words::{Line, WordsFault};
use bw_make::MAX_PAGES;
use std::alloc::Global;

/// `valid PAGE`.
pub fn valid_by(alloc: Global, line: &Line<'_>) -> Result<Command, WordsFault>
    ensures ok { IfOk result (λ c. (spec.valid_by (words.line_of line.now) ≡ Some c) × spec.IsInRange c) }
    ensures refused { IsErrOf result WordsFault.Refused → spec.valid_by (words.line_of line.now) ≡ None }
{
    if line.workers.is_some()
        || line.limit.is_some()
        || line.port.is_some()
        || line.formats.is_some()
        || line.journal.is_some()
        || line.load.is_some()
        || line.rotate.is_some()
        || is_written(line.source)
        || line.second.is_some()
    {
        return Err(WordsFault::Refused);
    }
    let page = line.first.ok_or(WordsFault::Refused)?;
    Ok(Command::Valid {
        page: owned(alloc, page)?,
        schema: owned_option(alloc, line.schema)?,
    })
}

/// `make N`.
pub fn make_by(line: &Line<'_>) -> Result<Command, WordsFault>
    ensures ok { IfOk result (λ c. (spec.make_by (words.line_of line.now) ≡ Some c) × spec.IsInRange c) }
    ensures refused { IfErr result (λ e. (e ≡ WordsFault.Refused) × (spec.make_by (words.line_of line.now) ≡ None)) }
{
    if line.schema.is_some()
        || line.limit.is_some()
        || line.port.is_some()
        || line.formats.is_some()
        || line.journal.is_some()
        || line.load.is_some()
        || line.rotate.is_some()
        || is_written(line.source)
        || line.second.is_some()
    {
        return Err(WordsFault::Refused);
    }
    let count = line.first.ok_or(WordsFault::Refused)?;
    let count = number_in(1, MAX_PAGES, count).ok_or(WordsFault::Refused)?;
    let workers = number_or(1, MAX_WORKERS, 1, line.workers).ok_or(WordsFault::Refused)?;
    Ok(Command::Make { count, workers })
}

/// `light FORMATS TEXTS`.
pub fn light_by(alloc: Global, line: &Line<'_>) -> Result<Command, WordsFault>
    ensures ok { IfOk result (λ c. (spec.light_by (words.line_of line.now) ≡ Some c) × spec.IsInRange c) }
    ensures refused { IsErrOf result WordsFault.Refused → spec.light_by (words.line_of line.now) ≡ None }
{
    if line.schema.is_some()
        || line.workers.is_some()
        || line.limit.is_some()
        || line.port.is_some()
        || line.formats.is_some()
        || line.journal.is_some()
        || line.load.is_some()
        || line.rotate.is_some()
        || is_written(line.source)
    {
        return Err(WordsFault::Refused);
    }
    let formats = line.first.ok_or(WordsFault::Refused)?;
    let texts = line.second.ok_or(WordsFault::Refused)?;
    Ok(Command::Light {
        formats: owned(alloc, formats)?,
        texts: owned(alloc, texts)?,
    })
}
