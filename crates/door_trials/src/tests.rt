//! Many clients on one thread, over the system's own sockets.
use crate::acts::{
    Lines, answer, ask, connect, connect_and_say, finish, hear, hear_end, listening, new_door,
    next_link, pass_over, receive, reply, say,
};
use bw_door::{Limits, PortDoor};
use bw_out::{Door, Failed, Source};
use std::alloc::Global;
use std::io::{ErrorKind, Read};
use std::net::{Net, Shutdown, TcpStream};
use std::process::Abort;
use std::sync::Wait;
use std::time::Clock;

/// The numbers of the clients in the test of many. None of them is a line feed.
const FIRST: u8 = 32;

const LAST: u8 = 92;

/// More than the system takes of a reply that nobody reads: so many pieces of so many bytes.
const PIECES: u32 = 512;

const PIECE: usize = 65_536;

/// A door tells this of the last of its calls that failed.
fn tell<R: Net + Clock + Wait + Abort + Copy>(
    rt: R,
    door: &PortDoor<R, Lines>,
    error: Option<ErrorKind>,
) {
    assert!(&rt; door.last_error() == error);
}

#[test]
fn asks_for_a_port_first(rt: HostRuntime) {
    let mut door = new_door(&rt, rt.alloc(), Limits::usual());
    assert!(rt;
        matches!(door.next(), Err(Failed)),
        "no port is listened on"
    );
    tell(&rt, &door, None);
}

/// The next link of a door has this message, is read beyond it, which fails, and gets a reply.
fn read_too_much<R: Abort, D: Door>(rt: &R, door: &mut D, message: &[u8]) {
    let mut link = next_link(rt, door);
    ask(rt, &mut link, message);
    assert!(rt; link.read(&mut [0u8; 8]).is_err(), "no more was read");
    reply(rt, &mut link, b"too late");
    door.give_back(link);
}

#[test]
fn serves_those_who_are_ready(rt: HostRuntime) {
    let (mut door, port) = listening(&rt, rt.alloc(), Limits::usual());
    let mut slow = connect_and_say(&rt, port, b"wh");
    let client = connect_and_say(&rt, port, b"who?\n");
    read_too_much(&rt, &mut door, b"who?\n");
    hear_end(&rt, client, "closed at once");

    say(&rt, &mut slow, b"o?\n");
    answer(&rt, &mut door, b"who?\n", b"me");
    hear(&rt, &mut slow, b"me", "its reply");
    hear_end(&rt, slow, "the end");
    finish(&rt, &mut door);
}

#[test]
fn sees_that_a_client_has_ended(rt: HostRuntime) {
    let (mut door, port) = listening(&rt, rt.alloc(), Limits::usual());
    let client = connect(&rt, port);
    client.shutdown(Shutdown::Write).expect(&rt, "ended");
    receive(&rt, &mut door, b"");
    finish(&rt, &mut door);
}

/// The numbers of the clients in the test of many.
fn numbers<R: Abort>(rt: &R, alloc: Global) -> Vec<u8> {
    let mut numbers = Vec::new(alloc);
    for number in FIRST..LAST {
        numbers.push(number).expect(rt, "memory");
    }
    numbers
}

/// Clients with a number each.
fn connect_all<R: Net<Stream = TcpStream> + Abort>(
    rt: &R,
    alloc: Global,
    port: u16,
    numbers: &[u8],
) -> Vec<TcpStream> {
    let mut clients = Vec::new(alloc);
    for _number in numbers {
        clients.push(connect(rt, port)).expect(rt, "memory");
    }
    clients
}

/// Each client sends the first part of its message, which is its number.
fn say_numbers<R: Abort>(rt: &R, clients: &mut [TcpStream], numbers: &[u8]) {
    for (client, number) in clients.iter_mut().zip(numbers.iter()) {
        say(rt, client, &[*number, b'?']);
    }
}

/// Each client sends the last part of its message, the last client first.
fn say_ends<R: Abort>(rt: &R, clients: &mut [TcpStream]) {
    for client in clients.iter_mut().rev() {
        say(rt, client, b"!\n");
    }
}

/// Answers one client by its number, which this is.
fn answer_one<R: Abort, D: Door>(rt: &R, door: &mut D) -> u8 {
    let mut room = [0u8; 8];
    let mut link = next_link(rt, door);
    let count = link.read(&mut room).ok().expect(rt, "read");
    assert_eq!(rt; count, 4);
    assert!(rt; room[1..].starts_with(b"?!\n"));
    reply(rt, &mut link, &room[..1]);
    door.give_back(link);
    room[0]
}

/// Answers as many clients as there are in the test of many, by their numbers, which these are in order.
fn answer_all<R: Abort, D: Door>(rt: &R, alloc: Global, door: &mut D) -> Vec<u8> {
    let mut seen = Vec::new(alloc);
    for _turn in FIRST..LAST {
        seen.push(answer_one(rt, door)).expect(rt, "memory");
    }
    seen.sort().expect(rt, "memory");
    seen
}

/// Each client gets its number, and then its end, and goes.
fn hear_all<R: Abort>(rt: &R, mut clients: Vec<TcpStream>, numbers: &[u8]) {
    for (client, number) in clients.iter_mut().zip(numbers.iter()) {
        hear(rt, client, &[*number], "its own reply");
        hear(rt, client, b"", "the end");
    }
}

#[test]
fn answers_many_at_once(rt: HostRuntime) {
    let (mut door, port) = listening(&rt, rt.alloc(), Limits::usual());
    let sent = numbers(&rt, rt.alloc());
    let mut clients = connect_all(&rt, rt.alloc(), port, &sent);

    // The first parts of all messages come before the last part of any.
    say_numbers(&rt, &mut clients, &sent);
    say_ends(&rt, &mut clients);
    let seen = answer_all(&rt, rt.alloc(), &mut door);
    assert!(rt; seen.as_slice() == sent.as_slice(), "each once");
    hear_all(&rt, clients, &sent);
    finish(&rt, &mut door);
}

#[test]
fn refuses_a_port_that_is_taken(rt: HostRuntime) {
    let (_door, port) = listening(&rt, rt.alloc(), Limits::usual());
    let mut other = new_door(&rt, rt.alloc(), Limits::usual());
    assert!(rt; other.listen(port).is_err(), "the port is taken");
    tell(&rt, &other, Some(ErrorKind::AddrInUse));
}

#[test]
fn gives_way_to_the_next(rt: HostRuntime) {
    let mut limits = Limits::usual();
    limits.places = 2;
    let (mut door, port) = listening(&rt, rt.alloc(), limits);
    let first = connect(&rt, port);
    let second = connect(&rt, port);
    let mut third = connect(&rt, port);
    let client = connect_and_say(&rt, port, b"who?\n");
    let link = next_link(&rt, &mut door);
    hear_end(&rt, first, "it gave way");
    hear_end(&rt, second, "it gave way");
    door.give_back(link);
    drop(client);

    // The third one had stayed.
    say(&rt, &mut third, b"me\n");
    receive(&rt, &mut door, b"me\n");
}

/// The next link of a door gets more than the system takes.
fn answer_much<R: Abort, D: Door>(rt: &R, alloc: Global, door: &mut D) {
    let piece = vec![in alloc; 0u8; PIECE].expect(rt, "memory");
    let mut link = next_link(rt, door);
    for _turn in 0..PIECES {
        reply(rt, &mut link, &piece);
    }
    door.give_back(link);
}

/// How many bytes a client gets until its end, or until its stream fails. It goes.
fn count_rest<R: Abort>(rt: &R, alloc: Global, mut client: TcpStream) -> u64 {
    let mut room = vec![in alloc; 0u8; PIECE].expect(rt, "memory");
    let mut count = 0u64;
    for _turn in 0..u64::MAX {
        match client.read(&mut room) {
            Ok(0) | Err(_) => return count,
            Ok(more) => count = count.saturating_add(more as u64),
        }
    }
    count
}

#[test]
fn lets_late_ones_go(rt: HostRuntime) {
    let mut limits = Limits::usual();
    limits.silent = 200;
    limits.stuck = 200;
    limits.kept = 1_048_576;
    let (mut door, port) = listening(&rt, rt.alloc(), limits);
    let silent = connect(&rt, port);
    let stuck = connect_and_say(&rt, port, b"all\n");
    answer_much(&rt, rt.alloc(), &mut door);

    // No link is handed out while so much is kept, and then the client that takes none of it is let go.
    let _client = connect_and_say(&rt, port, b"who?\n");
    pass_over(&rt, &mut door);
    hear_end(&rt, silent, "it was silent");
    let count = count_rest(&rt, rt.alloc(), stuck);
    assert!(rt; count > 0, "some was sent");
    assert!(rt; count < PIECES as u64 * PIECE as u64, "it was let go");
}
