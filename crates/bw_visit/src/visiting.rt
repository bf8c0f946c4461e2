//! A scripted user visits a service.
ghost use Rattle.std.specs.Prelude.{◌≡◌, ◌<◌, [], length};
ghost use Rattle.bw_http.specs.Paths.{spelling};
ghost use Rattle.bw_http.specs.declared.request.Path.TheVariants.{Start};
ghost use Rattle.bw_out.specs.Causes.{Shows};
ghost use Rattle.bw_user.specs.Messages.{get};
ghost use Rattle.bw_visit.specs.Ends.{Visited, IsTurned, GoesOn};
ghost use Rattle.bw_visit.specs.Exchanges.{AreSame, standing};
ghost use Rattle.bw_visit.specs.Scripts.{AreLines};

use crate::exchange::exchange;
use crate::lent::{Host, Room};
use crate::messages::{body_in, put_get};
use crate::script::Script;
use crate::turns::{After, go_on};
use bw_lang::{Memory, Text};
use bw_out::{Keys, Sink, Steps, WriteFault, write_all};
use std::sync::ledger::Ledger;

/// How a visit ends.
#[derive(Drop)]
pub enum VisitEnd {
    /// No line is left, or the last reply has no form.
    Done,
    /// A line names an answer that no control has.
    Unknown(Text),
    /// A reply could not be printed.
    WriteFault,
    /// There was no memory.
    Memory,
}

/// What came of one message.
#[derive(Drop)]
pub(crate) enum Turned<'a> {
    /// A further message is to be sent, and these lines are left.
    Goes(&'a str),
    /// The visit ended.
    Ended(VisitEnd),
}

/// Sends the message, prints the reply to it, and makes the next message.
fn turn<'a, K: Keys, W: Sink, L: Ledger>(
    host: &mut Host<'_, '_, '_, K, Steps<L>>,
    room: &mut Room<'_>,
    lines: &'a str,
    out: &mut W,
) -> Turned<'a>
    requires some { 0 < length room.old.message.items }
    requires lines { AreLines lines.now }
    ensures turned { IsTurned room.old.message.items lines.now (standing K.Keys host.old) room.new.message.items (standing K.Keys host.new) (W.held out.old)
        (W.held out.new) result }
    ensures goes_on { GoesOn lines.now room.new.message.items result }
    ensures write_fault { Shows (result ≡ Turned.Ended VisitEnd.WriteFault) (W.write_faults out.old) (W.write_faults out.new) }
    ensures service { host.new.world.now.service ≡ host.old.world.now.service }
    ensures same { AreSame host.old host.new }
{
    if !exchange(host, room) {
        return Turned::Ended(VisitEnd::Memory);
    }
    match write_all(out, room.sink.bytes()) {
        Ok(()) => {}
        Err(WriteFault) => return Turned::Ended(VisitEnd::WriteFault),
    }
    room.message.clear();
    let body = body_in(room.sink.bytes());
    match go_on(host.alloc, body, lines, &mut room.message) {
        After::Over => Turned::Ended(VisitEnd::Done),
        After::Unknown(name) => Turned::Ended(VisitEnd::Unknown(name)),
        After::Memory => Turned::Ended(VisitEnd::Memory),
        After::Sends(later) => Turned::Goes(later),
    }
}

/// Visits the session that a script names, as one client: sends a GET of its start, and then, while the last reply has a form
/// and a line is left, fills in that form by the answers of the line and posts it to its target. The replies are printed.
///
/// `Unknown` comes where a line has an answer for which the form has no control, and `WriteFault` exactly where the count of
/// the output rose. Memory is taken first; after `Memory` the replies so far are printed.
pub fn visit<K: Keys, W: Sink, L: Ledger>(
    host: &mut Host<'_, '_, '_, K, Steps<L>>,
    script: &Script<'_>,
    out: &mut W,
) -> VisitEnd
    requires { AreLines script.now.lines.now }
    ensures visited { Visited (get (spelling (Start script.now.name.now))) script.now.lines.now (standing K.Keys host.old) (standing K.Keys host.new)
        (W.held out.old) (W.held out.new) result }
    ensures write_fault { Shows (result ≡ VisitEnd.WriteFault) (W.write_faults out.old) (W.write_faults out.new) }
    ensures service { host.new.world.now.service ≡ host.old.world.now.service }
    ensures same { AreSame host.old host.new }
{
    match Room::new(host.alloc) {
        Ok(mut room) => {
            let end = visit_in(host, &mut room, script, out);
            drop(room);
            end
        }
        Err(Memory) => VisitEnd::Memory,
    }
}

/// The same in this room.
fn visit_in<K: Keys, W: Sink, L: Ledger>(
    host: &mut Host<'_, '_, '_, K, Steps<L>>,
    room: &mut Room<'_>,
    script: &Script<'_>,
    out: &mut W,
) -> VisitEnd
    requires none { room.old.message.items ≡ [] }
    requires lines { AreLines script.now.lines.now }
    ensures visited { Visited (get (spelling (Start script.now.name.now))) script.now.lines.now (standing K.Keys host.old) (standing K.Keys host.new)
        (W.held out.old) (W.held out.new) result }
    ensures write_fault { Shows (result ≡ VisitEnd.WriteFault) (W.write_faults out.old) (W.write_faults out.new) }
    ensures service { host.new.world.now.service ≡ host.old.world.now.service }
    ensures same { AreSame host.old host.new }
{
    match put_get(script.name.as_bytes(), &mut room.message) {
        Ok(()) => visit_from(host, room, script.lines, out),
        Err(Memory) => VisitEnd::Memory,
    }
}

/// Sends the message, and then a further one for each line; prints the replies.
fn visit_from<K: Keys, W: Sink, L: Ledger>(
    host: &mut Host<'_, '_, '_, K, Steps<L>>,
    room: &mut Room<'_>,
    lines: &str,
    out: &mut W,
) -> VisitEnd
    requires some { 0 < length room.old.message.items }
    requires lines { AreLines lines.now }
    ensures visited { Visited room.old.message.items lines.now (standing K.Keys host.old) (standing K.Keys host.new) (W.held out.old) (W.held out.new) result }
    ensures write_fault { Shows (result ≡ VisitEnd.WriteFault) (W.write_faults out.old) (W.write_faults out.new) }
    ensures service { host.new.world.now.service ≡ host.old.world.now.service }
    ensures same { AreSame host.old host.new }
{
    let mut rest = lines;
    loop {
        match turn(host, room, rest, out) {
            Turned::Goes(later) => rest = later,
            Turned::Ended(end) => return end,
        }
    }
}
