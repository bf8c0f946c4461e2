//! What doors and clients do in the trials.
use bw_door::{Lack, Limits, PortDoor, Settles};
use bw_out::{Door, Sink, Source, write_all};
use std::alloc::Global;
use std::io::{Read, Write};
use std::net::{Ipv4Addr, Net, TcpStream};
use std::process::Abort;
use std::sync::Wait;
use std::time::{Clock, Duration};

// Each step of a function makes those behind it dearer to prove. So a test is a few calls of short functions, and what fails ends
// it by `expect`, and not by `?`.

/// A message is whole once it has a line feed.
#[derive(Drop)]
pub(crate) struct Lines;

impl Settles for Lines {
    fn lack(&mut self, bytes: &[u8]) -> Option<Lack> {
        if bytes.contains(&b'\n') {
            None
        } else {
            Some(Lack::Line)
        }
    }
}

/// A door at no port yet.
pub(crate) fn new_door<R: Net + Clock + Wait + Abort + Copy>(
    rt: R,
    alloc: Global,
    limits: Limits,
) -> PortDoor<R, Lines> {
    PortDoor::new(rt, alloc, limits, Lines).expect(&rt, "a door")
}

/// A door at a port of the system's choice, and that port.
pub(crate) fn listening<R: Net + Clock + Wait + Abort + Copy>(
    rt: R,
    alloc: Global,
    limits: Limits,
) -> (PortDoor<R, Lines>, u16) {
    let mut door = new_door(rt, alloc, limits);
    door.listen(0).ok().expect(&rt, "a port");
    let port = door.port().expect(&rt, "its number");
    (door, port)
}

/// A client of a port, whose reads end after some time.
pub(crate) fn connect<R: Net<Stream = TcpStream> + Abort>(rt: &R, port: u16) -> TcpStream {
    let stream = TcpStream::connect(rt, (Ipv4Addr::LOCALHOST, port)).expect(rt, "a client");
    stream
        .set_read_timeout(Some(Duration::from_secs(20)))
        .expect(rt, "a time");
    stream
}

/// A client sends bytes.
pub(crate) fn say<R: Abort>(rt: &R, client: &mut TcpStream, bytes: &[u8]) {
    client.write_all(bytes).expect(rt, "sent");
}

/// A client of a port, which sends bytes.
pub(crate) fn connect_and_say<R: Net<Stream = TcpStream> + Abort>(
    rt: &R,
    port: u16,
    bytes: &[u8],
) -> TcpStream {
    let mut client = connect(rt, port);
    say(rt, &mut client, bytes);
    client
}

/// A client gets these bytes at one read, and no more of them.
pub(crate) fn hear<R: Abort>(rt: &R, client: &mut TcpStream, bytes: &[u8], note: &str) {
    let mut room = [0u8; 8];
    let count = client.read(&mut room).expect(rt, note);
    assert_eq!(rt; count, bytes.len(), "{note}");
    assert!(rt; room.starts_with(bytes), "{note}");
}

/// A client gets its end, and goes.
pub(crate) fn hear_end<R: Abort>(rt: &R, mut client: TcpStream, note: &str) {
    hear(rt, &mut client, b"", note);
}

/// The next link of a door, which may be given back.
pub(crate) fn next_link<R: Abort, D: Door>(rt: &R, door: &mut D) -> D::Link
    ensures { D.awaits door.new }
{
    door.next().ok().expect(rt, "no fault").expect(rt, "a link")
}

/// A link gives these bytes of its message at one read, and no more of them.
pub(crate) fn ask<R: Abort, L: Source>(rt: &R, link: &mut L, bytes: &[u8]) {
    let mut room = [0u8; 8];
    let count = link.read(&mut room).ok().expect(rt, "read");
    assert_eq!(rt; count, bytes.len());
    assert!(rt; room.starts_with(bytes));
}

/// Sends bytes on a link.
pub(crate) fn reply<R: Abort, L: Sink>(rt: &R, link: &mut L, bytes: &[u8]) {
    assert!(rt; write_all(link, bytes).is_ok());
}

/// The next link of a door has this message, and is given back with nothing sent.
pub(crate) fn receive<R: Abort, D: Door>(rt: &R, door: &mut D, message: &[u8]) {
    let mut link = next_link(rt, door);
    ask(rt, &mut link, message);
    door.give_back(link);
}

/// The next link of a door has this message, and gets this reply.
pub(crate) fn answer<R: Abort, D: Door>(rt: &R, door: &mut D, message: &[u8], bytes: &[u8]) {
    let mut link = next_link(rt, door);
    ask(rt, &mut link, message);
    reply(rt, &mut link, bytes);
    door.give_back(link);
}

/// The next link of a door is given back with nothing read or sent.
pub(crate) fn pass_over<R: Abort, D: Door>(rt: &R, door: &mut D) {
    let link = next_link(rt, door);
    door.give_back(link);
}

/// All replies of a door are sent.
pub(crate) fn finish<R: Net + Clock + Wait + Abort + Copy>(rt: R, door: &mut PortDoor<R, Lines>) {
    assert!(&rt; door.finish().is_ok());
}
