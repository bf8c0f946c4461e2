//! `make`: a made service, its check and its turns.
ghost use Rattle.std.specs.Prelude.{◌≡◌, ◌≢◌, ◌≤◌, ◌<◌, ◌++◌, IfOk, IsErrOf, OnOk};
ghost use Rattle.bw_model.specs.Sessions.{empty};
ghost use Rattle.bw_out.specs.Causes.{Shows};
ghost use Rattle.bw_world.specs.Stands.{StandsFor};
ghost use Rattle.bw_questions.specs.Asked.{made_work};
ghost use Rattle.bw_questions.specs.Asked.Work.{prints};
ghost use Rattle.bw_command.specs.Commands.{AreWorkers};
ghost use Rattle.bw_questions.specs.Making as spec;
ghost use Rattle.bigwig.specs.Sending.{IsSent};
ghost use Rattle.bigwig.specs.Outcomes.{Speaks};
ghost use Rattle.bw_questions.specs.Questions.{IsAnswer, line};
ghost use Rattle.bw_make.specs.declared.TheConstants.{MAX_PAGES};

use bw_check::Checked;
use bw_http::{Method, Path, Reply, Request};
use bw_lang::{Memory, Name, Submission, Text};
use bw_make::make;
use bw_out::{Pulse, Sink, Steps};
use bw_questions::{Served, Status, Stop, Tools, made_checked, print_text, report};
use bw_world::World;
use itoa::Buffer;
use std::alloc::Global;
use std::marker::Brand;
use std::sync::ledger::{Blank, Ledger};
use std::thread::Threads;

/// `make`: makes a service of so many pages, checks it, runs its turns and prints what they sent.
pub fn make_command<R: Threads + Sync, W: Sink, P: Pulse>(
    tools: &Tools<R, P>,
    count: u32,
    workers: u32,
    out: &mut W,
) -> Status
    requires count { (1 ≤ count) × (count ≤ MAX_PAGES) }
    requires workers { AreWorkers workers }
    ensures comes { Speaks (made_work count) (W.held out.old) (W.held out.new) result }
    ensures others { (result ≢ Status.Usage) × ((result ≢ Status.ReadFault) × (result ≢ Status.DoorFault)) }
    ensures no_journal { result ≢ Status.JournalFault }
    ensures write_fault { Shows (result ≡ Status.WriteFault) (W.write_faults out.old) (W.write_faults out.new) }
{
    match made_text(tools, count, workers) {
        Ok(text) => print_text(out, Status::Done, &text),
        Err(stop) => report(out, stop),
    }
}

/// What is printed of a made service.
fn made_text<R: Threads + Sync, P: Pulse>(
    tools: &Tools<R, P>,
    count: u32,
    workers: u32,
) -> Result<Vec<u8>, Stop>
    requires count { (1 ≤ count) × (count ≤ MAX_PAGES) }
    requires workers { AreWorkers workers }
    ensures answers { IsAnswer (λ text. prints text.items) (made_work count) result }
    ensures no_read { IsErrOf result Stop.ReadFault → ⊥ }
{
    let Ok(text) = make(tools.alloc, count) else {
        return Err(Stop::Memory);
    };
    let served = made_checked(tools, text.as_bytes(), workers)?;
    let Served { checked, formats } = served;
    drop(formats);
    match turns::<Brand>(tools.alloc, checked, count, text.len(), Blank::new(1)) {
        Ok(lines) => Ok(lines),
        Err(Memory) => Err(Stop::Memory),
    }
}

/// The turns of the made service over a world of their own, and the lines that tell of them. The count of their steps is
/// read by nobody.
fn turns<L: Ledger>(
    alloc: Global,
    checked: Checked,
    count: u32,
    length: usize,
    blank: Blank,
) -> Result<Vec<u8>, Memory>
    requires count { count ≤ MAX_PAGES }
    requires name { blank.name ≡ L.name }
    requires parts { blank.parts ≡ L.parts }
    requires some { 0 < blank.parts }
    ensures { IfOk result (λ text. text.items ≡ spec.lines_of count length
        (spec.sent checked.typed.service (empty checked.typed.service) (spec.requests count))) }
{
    let mut steps: Steps<L> = Steps::new(blank);
    let mut world = World::new(alloc, checked)?;
    let sent = send(alloc, &mut world, count, &mut steps);
    drop(world);
    match sent {
        Ok(sent) => lines_of(alloc, count, length, sent),
        Err(Memory) => Err(Memory),
    }
}

/// Sends the requests of a session of so many pages, and adds up the lengths of the pages that come.
fn send<L: Ledger>(
    alloc: Global,
    world: &mut World,
    count: u32,
    steps: &mut Steps<L>,
) -> Result<u128, Memory>
    requires count { count ≤ MAX_PAGES }
    requires stands { StandsFor world.old (empty world.old.service) }
    ensures { IfOk result (λ sent. sent ≡ spec.sent world.old.service (empty world.old.service) (spec.requests count)) }
{
    let first = first_request(alloc)?;
    let mut sent = u128::from(send_one(alloc, world, &first, steps)?);
    for turn in 0..count {
        let next = next_request(alloc, turn + 1)?;
        sent += u128::from(send_one(alloc, world, &next, steps)?);
    }
    Ok(sent)
}

/// Sends one request, with key 0, and gives the length of the page that comes.
fn send_one<L: Ledger>(
    alloc: Global,
    world: &mut World,
    request: &Request,
    steps: &mut Steps<L>,
) -> Result<u64, Memory>
    ensures sent { IfOk result (IsSent world.old world.new request.now) }
    ensures service { world.new.service ≡ world.old.service }
{
    let reply = world.handle(alloc, request, 0, steps);
    match &reply {
        Reply::Page(page) => Ok(page.length()),
        Reply::Final(page) => Ok(page.length()),
        Reply::Memory => Err(Memory),
        _ => Ok(0),
    }
}

/// The request that begins the made session.
fn first_request(alloc: Global) -> Result<Request, Memory>
    ensures { IfOk result (λ r. r ≡ spec.first_request) }
{
    Ok(Request {
        method: Method::Get,
        path: Path::Start(Name::of(alloc, "go")?),
        form: Submission::new(alloc),
    })
}

/// The form that is sent at a turn.
fn next_request(alloc: Global, turn: u32) -> Result<Request, Memory>
    ensures { IfOk result (λ r. r ≡ spec.next_request turn) }
{
    let mut form = Submission::new(alloc);
    form.push(
        Text::of(alloc, "f")?,
        Text::of(alloc, Buffer::new().format(turn))?,
    )?;
    Ok(Request {
        method: Method::Post,
        path: Path::Turn {
            number: 1,
            key: 0,
            turn,
        },
        form,
    })
}

/// The five lines.
fn lines_of(alloc: Global, count: u32, length: usize, sent: u128) -> Result<Vec<u8>, Memory>
    ensures { IfOk result (λ text. text.items ≡ spec.lines_of count length sent) }
{
    let mut text = Vec::new(alloc);
    push_line(&mut text, b"made ", Buffer::new().format(count))?;
    push_line(&mut text, b"bytes ", Buffer::new().format(length))?;
    push_line(&mut text, b"accepted", "")?;
    push_line(&mut text, b"turns ", Buffer::new().format(count))?;
    push_line(&mut text, b"sent ", Buffer::new().format(sent))?;
    Ok(text)
}

/// One line more: words, and a number.
fn push_line(text: &mut Vec<u8>, words: &[u8], number: &str) -> Result<(), Memory>
    ensures { OnOk result (text.new.items ≡ text.old.items ++ line (words.now ++ number.now)) }
{
    text.extend_from_slice(words)?;
    text.extend_from_slice(number.as_bytes())?;
    text.push(b'\n')?;
    Ok(())
}
