//! Cases of worlds: sessions whose numbers or turns run out, more of them than can be live, and replies that can't be
//! written. A case has the lines
//!
//! - `service PARTS`: a service
//! - `next N`, `first N`: the number that the next session gets, and that of a first turn; 1 and 1
//! - `write_piece N`, `failing_writes N ..`: of the link that comes next, how many bytes one write takes at most, and the
//!   numbers of the writes that fail; any number, and none
//! - `link PARTS`: the bytes that come over a link. The links of a case are answered one after another
//!
//! The keys are 1, 2, 3 and so on, one for each request. It wants, for each link, `output PARTS`, what was written to it,
//! or `bytes N` where that is long, and behind it `write fault` where a write failed; and then `live N`, how many sessions
//! are live.
ghost use Rattle.std.specs.Prelude.{◌≡◌, ◌<◌};

use crate::answers::answer_link;
use crate::channels::CaseSink;
use crate::links::CaseLink;
use bw_check::{Checked, check};
use bw_out::{MemKeys, Quiet, Steps};
use bw_schema::built_in;
use bw_types::Typed;
use bw_world::World;
use case_files::{Case, Fault, Texts, Verdict, put_line, service_of};
use std::alloc::{AllocError, Global};
use std::marker::Brand;
use std::mem;
use std::sync::ledger::{Blank, Ledger};
use std::thread::Threads;

/// The room of a link.
const ROOM: usize = 1_048_576;

/// The last key.
const KEYS: u64 = 2_048;

/// Tries a case.
pub fn try_case<R: Threads + Sync>(
    rt: &R,
    alloc: Global,
    texts: &Texts<'_>,
    case: &Case<'_>,
) -> Result<Verdict, Fault> {
    let got = got(rt, alloc, texts, case)?;
    Ok(Verdict::of(wanted(alloc, texts, case)?, got))
}

/// What a case wants: its lines of answers, parted by `; `.
fn wanted(alloc: Global, texts: &Texts<'_>, case: &Case<'_>) -> Result<String, Fault> {
    let mut wanted = String::new(alloc);
    for line in &case.lines {
        match line.key {
            "service" | "next" | "first" | "write_piece" | "failing_writes" | "link" => {}
            "output" => {
                put_line(&mut wanted, "output ")?;
                wanted.push_str(&texts.join_escaped(alloc, line.value)?)?;
            }
            _ => put_line(&mut wanted, line.text)?,
        }
    }
    Ok(wanted)
}

/// What comes of a case.
fn got<R: Threads + Sync>(
    rt: &R,
    alloc: Global,
    texts: &Texts<'_>,
    case: &Case<'_>,
) -> Result<String, Fault> {
    let mut said = String::new(alloc);
    say_world(rt, alloc, texts, case, &mut said)?;
    Ok(said)
}

fn say_world<R: Threads + Sync>(
    rt: &R,
    alloc: Global,
    texts: &Texts<'_>,
    case: &Case<'_>,
    said: &mut String,
) -> Result<(), Fault> {
    let mut world = world_of(rt, alloc, texts, case)?;
    let said = say_links(alloc, texts, case, &mut world, said);
    drop(world);
    said
}

/// The world as it begins.
fn world_of<R: Threads + Sync>(
    rt: &R,
    alloc: Global,
    texts: &Texts<'_>,
    case: &Case<'_>,
) -> Result<World, Fault> {
    let next = number_of(case, "next")?;
    let first = number_of(case, "first")?;
    let checked = checked_service(rt, alloc, service_of(alloc, texts, case, "service")?)?;
    new_world(alloc, checked, next, first)
}

/// The number of the line with that word; 1 where there is none.
fn number_of(case: &Case<'_>, word: &str) -> Result<u64, Fault> {
    match case.value_of(word) {
        Some(number) => Ok(number.parse()?),
        None => Ok(1),
    }
}

/// The service, which has to be accepted by the built-in schema.
fn checked_service<R: Threads + Sync>(
    rt: &R,
    alloc: Global,
    typed: Typed,
) -> Result<Checked, Fault> {
    let Ok(schema) = built_in(alloc) else {
        drop(typed);
        return Err(Fault::Memory);
    };
    match check(rt, alloc, typed, schema, 1, &Quiet) {
        Ok(checked) => Ok(checked),
        Err(fault) => {
            drop(fault);
            Err(Fault::Malformed)
        }
    }
}

fn new_world(alloc: Global, checked: Checked, next: u64, first: u64) -> Result<World, Fault> {
    let first = u32::try_from(first).unwrap_or(0);
    if next == 0 || next > 4_294_967_296 || first == 0 {
        drop(checked);
        return Err(Fault::Malformed);
    }
    Ok(World::new_at(alloc, checked, next, first)?)
}

/// Answers the links of a case, and says what was written to them and how many sessions are live.
fn say_links(
    alloc: Global,
    texts: &Texts<'_>,
    case: &Case<'_>,
    world: &mut World,
    said: &mut String,
) -> Result<(), Fault> {
    let keys = keys_from_one(alloc)?;
    counted::<Brand>(
        alloc,
        texts,
        case,
        world,
        &mut MemKeys::new(&keys),
        said,
        Blank::new(1),
    )?;
    put_line(said, "live ")?;
    write!(said, "{}", world.live())?;
    Ok(())
}

fn keys_from_one(alloc: Global) -> Result<Vec<u64>, AllocError> {
    let mut keys = Vec::new(alloc);
    for key in 0..KEYS {
        keys.push(key + 1)?;
    }
    Ok(keys)
}

/// Answers the links with a count of steps that nobody reads.
fn counted<L: Ledger>(
    alloc: Global,
    texts: &Texts<'_>,
    case: &Case<'_>,
    world: &mut World,
    keys: &mut MemKeys<'_>,
    said: &mut String,
    blank: Blank,
) -> Result<(), Fault>
    requires name { blank.name ≡ L.name }
    requires parts { blank.parts ≡ L.parts }
    requires some { 0 < blank.parts }
{
    let mut steps: Steps<L> = Steps::new(blank);
    answer_links(alloc, texts, case, world, keys, &mut steps, said)
}

/// Answers the links one after another. What is said of how a link is written counts for that link alone.
fn answer_links<L: Ledger>(
    alloc: Global,
    texts: &Texts<'_>,
    case: &Case<'_>,
    world: &mut World,
    keys: &mut MemKeys<'_>,
    steps: &mut Steps<L>,
    said: &mut String,
) -> Result<(), Fault> {
    let mut sink = CaseSink::of(alloc, ROOM);
    for line in &case.lines {
        match line.key {
            "write_piece" | "failing_writes" => sink.take(alloc, *line)?,
            "link" => {
                let sent = texts.join(alloc, line.value)?;
                let this = mem::replace(&mut sink, CaseSink::of(alloc, ROOM));
                let link = CaseLink::of(alloc, sent, this);
                let answered = answer_link(alloc, &link, world, keys, steps, said);
                drop(link);
                answered?;
            }
            _ => {}
        }
    }
    Ok(())
}
