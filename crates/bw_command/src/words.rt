//! The words of the command line, read by clap.
ghost use Rattle.std.specs.Prelude.{◌≡◌, ◌≢◌, [], map, IfOk, IsErrOf};
ghost use Rattle.clap.specs.Words.{app_of, with_rule, new_rule, matches_of, found_of, rows_of};
ghost use Rattle.bw_command.specs.Words.{bare, bigwig, option_rule, flag_rule, IsTaken, written_in, written_by, line_of};

use bw_lang::{Memory, Words};
use clap::error::ErrorKind;
use clap::{Arg, ArgAction, ArgMatches, Command};
use std::alloc::{AllocError, Global};

/// The parts of a command line, as they are written.
#[derive(Clone, Copy)]
pub struct Line<'a> {
    pub command: Option<&'a str>,
    pub first: Option<&'a str>,
    pub second: Option<&'a str>,
    pub schema: Option<&'a str>,
    pub workers: Option<&'a str>,
    pub limit: Option<&'a str>,
    pub port: Option<&'a str>,
    pub formats: Option<&'a str>,
    pub journal: Option<&'a str>,
    pub load: Option<&'a str>,
    pub rotate: Option<&'a str>,
    /// `true` where the source of a refusal is shown, and else `false`.
    pub source: Option<&'a str>,
    /// `true` where a page is asked for that shows a fault, and else `false`.
    pub explain: Option<&'a str>,
}

/// Why words give no line or no command.
#[derive(Clone, Copy, PartialEq, Eq)]
pub enum WordsFault {
    /// They are refused.
    Refused,
    /// There was no memory.
    Memory,
}

/// One more word.
fn with_word<'a>(
    alloc: Global,
    command: Command<'a>,
    id: &'a str,
) -> Result<Command<'a>, AllocError>
    ensures { IfOk result (λ r. app_of r ≡ with_rule (app_of command.entry) (new_rule id.entry.now)) }
{
    command.arg(Arg::new(alloc, id))
}

/// One more option, which takes one value.
fn with_option<'a>(
    alloc: Global,
    command: Command<'a>,
    id: &'a str,
) -> Result<Command<'a>, AllocError>
    ensures { IfOk result (λ r. app_of r ≡ with_rule (app_of command.entry) (option_rule id.entry.now)) }
{
    command.arg(Arg::new(alloc, id).long(id))
}

/// One more option, which takes none.
fn with_flag<'a>(
    alloc: Global,
    command: Command<'a>,
    id: &'a str,
) -> Result<Command<'a>, AllocError>
    ensures { IfOk result (λ r. app_of r ≡ with_rule (app_of command.entry) (flag_rule id.entry.now)) }
{
    command.arg(Arg::new(alloc, id).long(id).action(ArgAction::SetTrue))
}

/// The command line without words and options. It asks for neither help nor a version.
fn bare<'a>(alloc: Global) -> Command<'a>
    ensures { app_of result ≡ bare }
{
    Command::new(alloc, "bigwig")
        .no_binary_name(true)
        .disable_help_flag(true)
        .disable_version_flag(true)
}

/// The whole command line: a command word, up to two further words, eight options and two flags.
fn whole<'a>(alloc: Global) -> Result<Command<'a>, AllocError>
    ensures { IfOk result (λ r. app_of r ≡ bigwig) }
{
    let c = with_word(alloc, bare(alloc), "command")?;
    let c = with_word(alloc, c, "first")?;
    let c = with_word(alloc, c, "second")?;
    let c = with_option(alloc, c, "schema")?;
    let c = with_option(alloc, c, "workers")?;
    let c = with_option(alloc, c, "limit")?;
    let c = with_option(alloc, c, "port")?;
    let c = with_option(alloc, c, "formats")?;
    let c = with_option(alloc, c, "journal")?;
    let c = with_option(alloc, c, "load")?;
    let c = with_option(alloc, c, "rotate")?;
    let c = with_flag(alloc, c, "show-source")?;
    with_flag(alloc, c, "explain")
}

/// The line of clap's matches.
fn line_of<'a>(matches: &ArgMatches<'a>) -> Line<'a>
    ensures { line_of result ≡ written_in (rows_of (found_of matches.now)) }
{
    Line {
        command: matches.get_str("command"),
        first: matches.get_str("first"),
        second: matches.get_str("second"),
        schema: matches.get_str("schema"),
        workers: matches.get_str("workers"),
        limit: matches.get_str("limit"),
        port: matches.get_str("port"),
        formats: matches.get_str("formats"),
        journal: matches.get_str("journal"),
        load: matches.get_str("load"),
        rotate: matches.get_str("rotate"),
        source: matches.get_str("show-source"),
        explain: matches.get_str("explain"),
    }
}

/// The line of these words, which don't begin with the program's name. `Refused` comes exactly where clap finds fault
/// with them.
pub fn read_line<'a>(alloc: Global, words: &'a [&'a str]) -> Result<Line<'a>, WordsFault>
    ensures ok { IfOk result (λ l. IsTaken (map (λ s. s.now) words.entry.now)
        × (line_of l ≡ written_by (map (λ s. s.now) words.entry.now))) }
    ensures refused { IsErrOf result WordsFault.Refused → ¬ (IsTaken (map (λ s. s.now) words.entry.now)) }
{
    let Ok(command) = whole(alloc) else {
        return Err(WordsFault::Memory);
    };
    match command.try_get_matches_from(words) {
        Ok(matches) => Ok(line_of(&matches)),
        Err(e) => match e.kind() {
            ErrorKind::OutOfMemory => Err(WordsFault::Memory),
            _ => Err(WordsFault::Refused),
        },
    }
}

/// The texts of words.
pub fn texts_of<'a>(alloc: Global, words: &'a Words) -> Result<Vec<&'a str>, Memory>
    ensures { IfOk result (λ texts. map (λ s. s.now) texts.items ≡ words.entry.now) }
{
    let mut texts = Vec::new(alloc);
    for word in words.as_slice() {
        texts.push(word.as_str())?;
    }
    Ok(texts)
}
