//! Answers to links over a world, and what is said of them.

use crate::links::CaseLink;
use bw_format::Formats;
use bw_http::Intake;
use bw_lang::Memory;
use bw_out::{MemKeys, MemLink, Steps};
use bw_world::{StreamEnd, World, answer};
use case_files::{Fault, escaped, put_line};
use std::alloc::{AllocError, Global};
use std::sync::ledger::Ledger;

/// A longer output is told by its number of bytes alone.
const LONG: usize = 4_096;

/// Answers a link, and says what was written to it.
pub fn answer_link<L: Ledger>(
    alloc: Global,
    link: &CaseLink,
    world: &mut World,
    keys: &mut MemKeys<'_>,
    steps: &mut Steps<L>,
    said: &mut String,
) -> Result<(), Fault> {
    let mut link = link.in_memory(alloc)?;
    let answered = say_answer(alloc, &mut link, world, keys, steps, said);
    drop(link);
    answered
}

/// The same over the link in memory.
fn say_answer<L: Ledger>(
    alloc: Global,
    link: &mut MemLink<'_>,
    world: &mut World,
    keys: &mut MemKeys<'_>,
    steps: &mut Steps<L>,
    said: &mut String,
) -> Result<(), Fault> {
    let end = end_of(alloc, world, link, keys, steps)?;
    say_output(alloc, said, link.sink.bytes(), end)?;
    Ok(())
}

/// Answers the link, without formats of fields, and gives how it ends.
fn end_of<L: Ledger>(
    alloc: Global,
    world: &mut World,
    link: &mut MemLink<'_>,
    keys: &mut MemKeys<'_>,
    steps: &mut Steps<L>,
) -> Result<StreamEnd, Memory> {
    let mut intake = Intake::new(alloc)?;
    let formats = Formats::none();
    let end = answer(
        alloc,
        world,
        &formats,
        &mut intake,
        link,
        keys,
        u32::MAX,
        steps,
    );
    drop(formats);
    drop(intake);
    Ok(end)
}

/// Says what was written to a link that ended so.
fn say_output(
    alloc: Global,
    said: &mut String,
    bytes: &[u8],
    end: StreamEnd,
) -> Result<(), AllocError> {
    if bytes.len() > LONG {
        put_line(said, "bytes ")?;
        write!(said, "{}", bytes.len())?;
    } else {
        put_line(said, "output ")?;
        said.push_str(&escaped(alloc, bytes)?)?;
    }
    if end == StreamEnd::WriteFault {
        put_line(said, "write fault")?;
    }
    Ok(())
}
