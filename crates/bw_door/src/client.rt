//! A client whose first message is awaited.
ghost use Rattle.std.specs.Prelude.{◌≡◌, ◌≢◌, ◌≤◌, ◌<◌, ◌+◌, [], true, length, vec_len};
ghost use Rattle.std.specs.Io.KnownBytes.{IsAtEnd, Keeps};
ghost use Rattle.bw_door.specs.Flows.{sent_by};
ghost use Rattle.bw_door.specs.Times.{is_message_late};
ghost use Rattle.bw_door.specs.declared.desk.TheConstants.{AT_ONCE};

use crate::limits::{Limits, is_over};
use crate::settles::{Lack, Settles};
use crate::socket::{Socket, Told};
use crate::timed::Timed;
use mio::Registry;
use mio::net::TcpStream;
use std::alloc::Global;
use std::io::{ErrorKind, Read};

/// How many bytes of a client are read before it is looked at what they are: as many as the longest message has. One
/// read may go beyond them.
const ROOM: usize = 81_920;

/// How many reads one look at a client makes at most.
const READS: u32 = 81_921;

/// What one read gave.
#[derive(Clone, Copy)]
enum Got {
    /// Bytes, or nothing yet, and there may be more.
    More,
    /// Nothing is there now.
    Nothing,
    /// The client has ended.
    End,
    /// The stream has failed, or there was no memory.
    Broken,
}

/// What came of reading from a client.
#[derive(Clone, Copy)]
pub(crate) enum Heard {
    /// Its message isn't whole, and nothing is there now.
    Waits,
    /// Its message is whole.
    Whole,
    /// It has ended.
    Ended,
    /// The stream has failed, there was no memory, or so many bytes came that no message has as many.
    Broken,
}

/// A client whose first message is awaited.
#[derive(Drop)]
pub(crate) struct Client<S> {
    socket: Socket<S>,

    /// What was read of it.
    inbox: Vec<u8>,

    /// What has to come before its bytes are looked at again.
    lack: Lack,

    /// When it came, in milliseconds, and when it was last heard.
    came: u64,
    heard: u64,
    ghost small: { vec_len inbox ≤ 98304 },
}

/// Takes bytes of a stream, as many as one read gives, behind those that were taken before.
fn take_bytes<S: Read>(stream: &mut S, inbox: &mut Vec<u8>, room: &mut [u8]) -> Got
    requires { 0 < length room.old }
    ensures kept { result ≢ Got.Broken → Keeps (sent_by inbox.old.items (S.remaining stream.old)) (sent_by inbox.new.items (S.remaining stream.new)) }
    ensures end { result ≡ Got.End → IsAtEnd (S.remaining stream.new) }
    ensures few { vec_len inbox.new ≤ vec_len inbox.old + length room.old }
{
    match stream.read(room) {
        Ok(0) => Got::End,
        Ok(count) => match inbox.extend_from_slice(&room[..count]) {
            Ok(()) => Got::More,
            Err(_) => Got::Broken,
        },
        Err(error) => match error.kind() {
            ErrorKind::WouldBlock => Got::Nothing,
            ErrorKind::Interrupted => Got::More,
            _ => Got::Broken,
        },
    }
}

/// Whether it is worth to look at the bytes, of which those from a place on are new.
fn is_worth(lack: Lack, bytes: &[u8], held: usize) -> bool {
    match lack {
        Lack::Bytes(need) => bytes.len() >= need,
        Lack::Line => match bytes.get(held..) {
            Some(fresh) => fresh.contains(&b'\n'),
            None => false,
        },
    }
}

impl<S> Client<S> {
    /// A client that has just come, of which nothing was read.
    pub(crate) fn new(alloc: Global, stream: S, now: u64) -> Self
        ensures stream { result.socket.stream ≡ stream }
        ensures inbox { result.inbox.items ≡ [] }
    {
        Client {
            socket: Socket::new(stream),
            inbox: Vec::new(alloc),
            lack: Lack::Line,
            came: now,
            heard: now,
        }
    }

    /// When it was last heard, and of those that were heard at the same time the number.
    pub(crate) fn quiet_since(&self) -> (u64, usize) {
        (self.heard, self.socket.number())
    }

    /// Its stream, and what was read of it.
    pub(crate) fn into_parts(self) -> (Socket<S>, Vec<u8>)
        ensures socket { result.0 ≡ self.socket }
        ensures inbox { result.1 ≡ self.inbox }
    {
        let Client { socket, inbox, .. } = self;
        (socket, inbox)
    }

    /// Whether the message is whole, of which the bytes from a place on are new.
    fn is_whole<W: Settles>(&mut self, settles: &mut W, held: usize) -> bool
        ensures whole { result ≡ true → ∥ W.settled self.new.inbox.items ∥₁ }
        ensures socket { self.new.socket ≡ self.old.socket }
        ensures inbox { self.new.inbox ≡ self.old.inbox }
    {
        if !is_worth(self.lack, &self.inbox, held) {
            return false;
        }
        match settles.lack(&self.inbox) {
            None => true,
            Some(lack) => {
                self.lack = lack;
                false
            }
        }
    }
}

impl<S> Told for Client<S> {
    fn is_told_as(&self, token: usize) -> bool {
        self.socket.is_told_as(token)
    }
}

impl<S> Timed for Client<S> {
    ghost late = { λ limits now client. is_message_late limits now client.came client.heard };

    fn is_late(&self, limits: Limits, now: u64) -> bool {
        is_over(self.heard, now, limits.silent) || is_over(self.came, now, limits.message)
    }
}

impl<S: Read> Client<S> {
    /// Reads what is there, until the message is whole. Nothing that the client sends is lost, unless it is to be let go.
    pub(crate) fn read<W: Settles>(&mut self, room: &mut [u8], settles: &mut W, now: u64) -> Heard
        requires some { 0 < length room.old }
        requires few { length room.old ≤ AT_ONCE }
        ensures kept { result ≢ Heard.Broken → Keeps
            (sent_by self.old.inbox.items (S.remaining self.old.socket.stream))
            (sent_by self.new.inbox.items (S.remaining self.new.socket.stream)) }
        ensures whole { result ≡ Heard.Whole → ∥ W.settled self.new.inbox.items ∥₁ }
        ensures ended { result ≡ Heard.Ended → IsAtEnd (S.remaining self.new.socket.stream) }
    {
        'reads: for _turn in 0..READS {
            let held = self.inbox.len();
            if held > ROOM {
                return Heard::Broken;
            }
            match take_bytes(&mut self.socket.stream, &mut self.inbox, room) {
                Got::Nothing => return Heard::Waits,
                Got::End => return Heard::Ended,
                Got::Broken => return Heard::Broken,
                Got::More => {
                    self.heard = now;
                    if self.is_whole(settles, held) {
                        return Heard::Whole;
                    }
                }
            }
        }
        Heard::Broken
    }
}

impl Client<TcpStream> {
    /// It is told from now on when there may be more to read, under a token of this place. It says whether it is.
    pub(crate) fn watch(&mut self, registry: &Registry, token: usize) -> bool
        ensures stream { self.new.socket.stream ≡ self.old.socket.stream }
        ensures inbox { self.new.inbox ≡ self.old.inbox }
    {
        self.socket.watch(registry, token, false)
    }
}
