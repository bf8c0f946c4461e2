//! The bytes of replies.
ghost use Rattle.std.specs.Prelude.{[], IfOk};
ghost use Rattle.bw_http.specs.Replies.{IsReply};

use bw_http::{Allow, Reply, write_reply};
use bw_lang::{FieldNames, NameTable, Text, TurnFault};
use bw_out::{MemSink, WriteFault};
use bw_page::Sheet;
use case_files::Fault;
use std::alloc::Global;

/// The bytes of the reply of this kind, with `|` for CR LF and `/` for LF alone.
pub fn written(alloc: Global, kind: &str) -> Result<String, Fault> {
    let mut sink = MemSink::new(alloc, 1024, 16, &[])?;
    let written = written_through(alloc, kind, &mut sink);
    drop(sink);
    written
}

/// The same, through this sink, which has no bytes yet.
fn written_through(alloc: Global, kind: &str, sink: &mut MemSink<'_>) -> Result<String, Fault> {
    if kind == "lacking" {
        write_lacking(alloc, sink)?;
    } else {
        write_kind(alloc, kind, sink)?;
    }
    with_ends(alloc, sink.bytes())
}

/// These bytes, with `|` for CR LF and `/` for LF alone.
fn with_ends(alloc: Global, bytes: &[u8]) -> Result<String, Fault> {
    let text = String::from_utf8_lossy(alloc, bytes)?;
    let lines = text.replace(alloc, "\r\n", "|")?;
    Ok(lines.replace(alloc, "\n", "/")?)
}

/// Writes the reply of this kind, which names no field.
fn write_kind(alloc: Global, kind: &str, sink: &mut MemSink<'_>) -> Result<(), Fault> {
    let reply = reply(alloc, kind)?;
    let fields = FieldNames::of(NameTable::new(alloc));
    let wrote = write_reply(reply, &fields, sink);
    drop(fields);
    wrote.map_err(untried)
}

/// Writes the reply to a form that lacks a field whose name has the ends of lines.
fn write_lacking(alloc: Global, sink: &mut MemSink<'_>) -> Result<(), Fault> {
    let mut names = NameTable::new(alloc);
    let Ok(_) = names.add("a\r\nb\n") else {
        drop(names);
        return Err(Fault::Memory);
    };
    let fields = FieldNames::of(names);
    let wrote = write_reply(Reply::Lacking(fields.number("a\r\nb\n")), &fields, sink);
    drop(fields);
    wrote.map_err(untried)
}

/// Why a case can't be tried whose reply doesn't fit into its sink.
fn untried(_fault: WriteFault) -> Fault {
    Fault::Malformed
}

/// A sheet with this text alone.
fn sheet(alloc: Global, text: &str) -> Result<Sheet, Fault> {
    let text = Text::of(alloc, text)?;
    let sheet = Sheet::plain(alloc, &text);
    drop(text);
    Ok(sheet?)
}

/// The reply of this kind, none of which names a field.
fn reply(alloc: Global, kind: &str) -> Result<Reply, Fault>
    ensures { IfOk result (IsReply []) }
{
    Ok(match kind {
        "index" => Reply::Index(sheet(alloc, "go\nstop\n")?),
        "page" => Reply::Page(sheet(alloc, "<html></html>")?),
        "final" => Reply::Final(sheet(alloc, "")?),
        "no such" => Reply::NoSuch,
        "method get" => Reply::Method(Allow::Get),
        "method get post" => Reply::Method(Allow::GetPost),
        "stale" => Reply::Stale(4_294_967_295),
        "failed" => Reply::Failed(TurnFault::StringTooLong(32_768)),
        "spent" => Reply::Failed(TurnFault::Spent),
        "bad" => Reply::Bad,
        "length required" => Reply::LengthRequired,
        "body too long" => Reply::BodyTooLong,
        "media" => Reply::Media,
        "head too long" => Reply::HeadTooLong,
        "no numbers" => Reply::NoNumbers,
        "no turns" => Reply::NoTurns,
        "memory" => Reply::Memory,
        _ => return Err(Fault::Malformed),
    })
}
