//! The words of the command line are read.
ghost use Rattle.std.specs.Prelude.{◌≡◌, None, Some, IfOk, IfErr, IsErrOf};
ghost use Rattle.bw_command.specs.Commands as spec;
ghost use Rattle.bw_command.specs.Numbers.{number_or};
ghost use Rattle.bw_command.specs.Words as words;
ghost use Rattle.bw_command.specs.declared.command.TheConstants.{DEFAULT_PORT, MAX_PORT};

use crate::apart::{freeze_by, visit_by};
use crate::command::{
    Command, DEFAULT_PORT, Judging, MAX_LINKS, MAX_PORT, MAX_REQUESTS, MAX_ROTATE, MAX_WORKERS,
};
use crate::numbers::{number_if, number_in, number_or};
use crate::serviceless::{light_by, make_by, valid_by};
use crate::words::{Line, WordsFault, read_line, texts_of};
use bw_lang::{Memory, Text, Words};
use std::alloc::Global;

/// The command that the words give. `Refused` comes exactly where they are refused, and `Memory` for want of memory
/// alone.
pub fn read_words(alloc: Global, words: &Words) -> Result<Command, WordsFault>
    ensures ok { IfOk result (λ c. (spec.command_of words.now ≡ Some c) × spec.IsInRange c) }
    ensures refused { IsErrOf result WordsFault.Refused → spec.command_of words.now ≡ None }
{
    match texts_of(alloc, words) {
        Ok(texts) => match read_line(alloc, &texts) {
            Ok(line) => command_by(alloc, &line),
            Err(fault) => Err(fault),
        },
        Err(Memory) => Err(WordsFault::Memory),
    }
}

/// The command that is written so.
fn command_by(alloc: Global, line: &Line<'_>) -> Result<Command, WordsFault>
    ensures ok { IfOk result (λ c. (spec.command_by (words.line_of line.now) ≡ Some c) × spec.IsInRange c) }
    ensures refused { IsErrOf result WordsFault.Refused → spec.command_by (words.line_of line.now) ≡ None }
{
    let name = line.command.ok_or(WordsFault::Refused)?;
    if name == "check" {
        check_by(alloc, line)
    } else if is_written(line.explain) {
        Err(WordsFault::Refused)
    } else {
        other_by(alloc, name, line)
    }
}

/// The command of this name, which isn't `check`.
fn other_by(alloc: Global, name: &str, line: &Line<'_>) -> Result<Command, WordsFault>
    ensures ok { IfOk result (λ c. (spec.other_by name.now (words.line_of line.now) ≡ Some c) × spec.IsInRange c) }
    ensures refused { IsErrOf result WordsFault.Refused → spec.other_by name.now (words.line_of line.now) ≡ None }
{
    if name == "replay" {
        replay_by(alloc, line)
    } else if name == "serve" {
        serve_by(alloc, line)
    } else if name == "valid" {
        valid_by(alloc, line)
    } else if name == "make" {
        make_by(line)
    } else if name == "light" {
        light_by(alloc, line)
    } else if name == "freeze" {
        freeze_by(alloc, line)
    } else if name == "visit" {
        visit_by(alloc, line)
    } else {
        Err(WordsFault::Refused)
    }
}

/// A text of its own.
pub fn owned(alloc: Global, text: &str) -> Result<Text, WordsFault>
    ensures ok { IfOk result (λ own. own ≡ text.now) }
    ensures memory { IfErr result (λ e. e ≡ WordsFault.Memory) }
{
    match Text::of(alloc, text) {
        Ok(own) => Ok(own),
        Err(Memory) => Err(WordsFault::Memory),
    }
}

/// The same, where there is one.
pub fn owned_option(alloc: Global, text: Option<&str>) -> Result<Option<Text>, WordsFault>
    ensures ok { IfOk result (λ own. own ≡ words.text_of text.entry) }
    ensures memory { IfErr result (λ e. e ≡ WordsFault.Memory) }
{
    match text {
        Some(text) => Ok(Some(owned(alloc, text)?)),
        None => Ok(None),
    }
}

/// Whether a flag is written.
pub fn is_written(text: Option<&str>) -> bool
    ensures { result ≡ spec.is_written (words.text_of text.entry) }
{
    match text {
        Some(text) => text == "true",
        None => false,
    }
}

/// What a service is judged by: the schema that is named, if one is, and by 1 worker where no number is named; and whether
/// its source is shown where it is refused.
pub fn judging_by(alloc: Global, line: &Line<'_>) -> Result<Judging, WordsFault>
    ensures ok { IfOk result (λ j. (spec.judging_by (words.line_of line.now) ≡ Some j) × spec.AreWorkers j.workers) }
    ensures refused { IsErrOf result WordsFault.Refused → spec.judging_by (words.line_of line.now) ≡ None }
{
    let workers = number_or(1, MAX_WORKERS, 1, line.workers).ok_or(WordsFault::Refused)?;
    let schema = owned_option(alloc, line.schema)?;
    Ok(Judging {
        schema,
        workers,
        source: is_written(line.source),
    })
}

/// `check SERVICE`, with a page that shows its first fault of an element or without.
fn check_by(alloc: Global, line: &Line<'_>) -> Result<Command, WordsFault>
    ensures ok { IfOk result (λ c. (spec.check_by (words.line_of line.now) ≡ Some c) × spec.IsInRange c) }
    ensures refused { IsErrOf result WordsFault.Refused → spec.check_by (words.line_of line.now) ≡ None }
{
    if line.limit.is_some()
        || line.port.is_some()
        || line.formats.is_some()
        || line.journal.is_some()
        || line.load.is_some()
        || line.rotate.is_some()
        || line.second.is_some()
    {
        return Err(WordsFault::Refused);
    }
    let service = line.first.ok_or(WordsFault::Refused)?;
    let judging = judging_by(alloc, line)?;
    Ok(Command::Check {
        service: owned(alloc, service)?,
        judging,
        explain: is_written(line.explain),
    })
}

/// Whether no file of saved sessions is named beside a journal.
fn begins_once(line: &Line<'_>) -> bool
    ensures { result ≡ spec.begins_once (words.line_of line.now) }
{
    line.journal.is_none() || line.load.is_none()
}

/// Whether a journal is named where it is said when it is begun anew.
fn rotates_one(line: &Line<'_>) -> bool
    ensures { result ≡ spec.rotates_one (words.line_of line.now) }
{
    line.rotate.is_none() || line.journal.is_some()
}

/// `replay SERVICE REQUESTS`, beside a journal or from saved sessions where they are named.
fn replay_by(alloc: Global, line: &Line<'_>) -> Result<Command, WordsFault>
    ensures ok { IfOk result (λ c. (spec.replay_by (words.line_of line.now) ≡ Some c) × spec.IsInRange c) }
    ensures refused { IsErrOf result WordsFault.Refused → spec.replay_by (words.line_of line.now) ≡ None }
{
    if line.port.is_some() || line.rotate.is_some() || !begins_once(line) {
        return Err(WordsFault::Refused);
    }
    let service = line.first.ok_or(WordsFault::Refused)?;
    let requests = line.second.ok_or(WordsFault::Refused)?;
    let most = number_or(1, MAX_REQUESTS, MAX_REQUESTS, line.limit).ok_or(WordsFault::Refused)?;
    let judging = judging_by(alloc, line)?;
    let service = owned(alloc, service)?;
    let requests = owned(alloc, requests)?;
    let formats = owned_option(alloc, line.formats)?;
    match line.journal {
        None => Ok(Command::Replay {
            service,
            requests,
            judging,
            formats,
            load: owned_option(alloc, line.load)?,
            most,
        }),
        Some(journal) => Ok(Command::Resume {
            service,
            requests,
            judging,
            formats,
            journal: owned(alloc, journal)?,
            most,
        }),
    }
}

/// `serve SERVICE`, beside a journal or from saved sessions where they are named.
fn serve_by(alloc: Global, line: &Line<'_>) -> Result<Command, WordsFault>
    ensures ok { IfOk result (λ c. (spec.serve_by (words.line_of line.now) ≡ Some c) × spec.IsInRange c) }
    ensures refused { IsErrOf result WordsFault.Refused → spec.serve_by (words.line_of line.now) ≡ None }
{
    if line.second.is_some() || !begins_once(line) || !rotates_one(line) {
        return Err(WordsFault::Refused);
    }
    let service = line.first.ok_or(WordsFault::Refused)?;
    let rotate = number_if(1, MAX_ROTATE, line.rotate).ok_or(WordsFault::Refused)?;
    let port = port_of(line.port).ok_or(WordsFault::Refused)?;
    let most = number_or(1, MAX_LINKS, MAX_LINKS, line.limit).ok_or(WordsFault::Refused)?;
    let judging = judging_by(alloc, line)?;
    let service = owned(alloc, service)?;
    let formats = owned_option(alloc, line.formats)?;
    match line.journal {
        None => Ok(Command::Serve {
            service,
            judging,
            formats,
            load: owned_option(alloc, line.load)?,
            port,
            most,
        }),
        Some(journal) => Ok(Command::Keep {
            service,
            judging,
            formats,
            journal: owned(alloc, journal)?,
            rotate,
            port,
            most,
        }),
    }
}

/// The port that is named, and 8080 where none is.
fn port_of(text: Option<&str>) -> Option<u16>
    ensures { result ≡ number_or 1 MAX_PORT DEFAULT_PORT (words.text_of text.entry) }
{
    match text {
        None => Some(DEFAULT_PORT),
        Some(text) => match number_in(1, MAX_PORT, text) {
            Some(port) => Some(port as u16),
            None => None,
        },
    }
}
