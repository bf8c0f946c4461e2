//! A client that gets its reply.
ghost use Rattle.std.specs.Prelude.{◌≡◌, ◌≤◌, ◌<◌, ◌+◌, true, false, IfOk, OnErr, length, vec_len};
ghost use Rattle.std.specs.Io.KnownBytes.{Keeps};
ghost use Rattle.bw_door.specs.Ends.{HadNoFault};
ghost use Rattle.bw_door.specs.Flows.{sent_to};
ghost use Rattle.bw_door.specs.Times.{is_reply_late};

use crate::limits::{Limits, is_over};
use crate::link::PortLink;
use crate::peer::Peer;
use crate::socket::{Socket, Told};
use crate::timed::Timed;
use mio::Registry;
use mio::net::TcpStream;
use std::alloc::Global;
use std::io::{ErrorKind, Write};
use std::mem;

/// How many bytes of what a client still sends behind its message are read and dropped.
const DROPPED_BYTES: usize = 65_536;

/// Why no byte was taken.
#[derive(Clone, Copy)]
enum Stop {
    /// None is taken now.
    Full,
    /// The stream has failed.
    Broken,
}

/// What came of sending to a client.
#[derive(Clone, Copy)]
pub(crate) enum Went {
    /// It is waited for.
    Waits,
    /// All is done, or nothing more can be.
    Over,
}

/// A client that gets its reply, and then has a little time to end.
#[derive(Drop)]
pub(crate) struct Leaving<S> {
    socket: Socket<S>,

    /// The reply, and how many of its bytes the client has taken.
    reply: Vec<u8>,
    count: usize,

    /// It was told that nothing more comes.
    told: bool,

    /// How much of what it still sent was dropped.
    dropped: usize,

    /// When its reply was there, in milliseconds, and when it last took some of it.
    begun: u64,
    moved: u64,
    ghost within: { count ≤ vec_len reply },
    ghost all: { told ≡ true → count ≡ vec_len reply },
}

/// Writes once, from a place on, and says how many bytes were taken: none where the write was interrupted.
fn put_bytes<S: Write>(stream: &mut S, bytes: &[u8], from: usize) -> Result<usize, Stop>
    requires { from < length bytes.now }
    ensures bound { IfOk result (λ n. from + n ≤ length bytes.now) }
    ensures kept { IfOk result (λ n. Keeps (sent_to (S.contents stream.old) from bytes.now) (sent_to (S.contents stream.new) (from + n) bytes.now)) }
    ensures none { OnErr result (Keeps (S.contents stream.old) (S.contents stream.new)) }
{
    match stream.write(&bytes[from..]) {
        Ok(0) => Err(Stop::Broken),
        Ok(count) => Ok(count),
        Err(error) => match error.kind() {
            ErrorKind::WouldBlock => Err(Stop::Full),
            ErrorKind::Interrupted => Ok(0),
            _ => Err(Stop::Broken),
        },
    }
}

impl<S> Leaving<S> {
    /// The client of a link of which no call has failed, with what was written to it.
    pub(crate) fn new(link: PortLink<S>, now: u64) -> Self
        requires { HadNoFault link }
        ensures socket { result.socket ≡ link.socket }
        ensures reply { result.reply ≡ link.outbox }
        ensures count { result.count ≡ 0 }
        ensures told { result.told ≡ false }
    {
        let (socket, reply) = link.into_parts();
        Leaving {
            socket,
            reply,
            count: 0,
            told: false,
            dropped: 0,
            begun: now,
            moved: now,
        }
    }

    /// How much memory its reply has.
    pub(crate) fn kept(&self) -> usize {
        self.reply.capacity()
    }

    /// The memory of its reply, once it has all of it.
    pub(crate) fn take_memory(&mut self, alloc: Global) -> Option<Vec<u8>>
        ensures socket { self.new.socket ≡ self.old.socket }
    {
        if !self.told {
            return None;
        }
        let reply = mem::replace(&mut self.reply, Vec::new(alloc));
        self.count = 0;
        Some(reply)
    }
}

impl<S> Told for Leaving<S> {
    fn is_told_as(&self, token: usize) -> bool {
        self.socket.is_told_as(token)
    }
}

impl<S> Timed for Leaving<S> {
    ghost late = { λ limits now leaving. is_reply_late limits now leaving.told leaving.begun leaving.moved };

    fn is_late(&self, limits: Limits, now: u64) -> bool {
        if self.told {
            is_over(self.moved, now, limits.ending)
        } else {
            is_over(self.moved, now, limits.stuck) || is_over(self.begun, now, limits.reply)
        }
    }
}

impl<S: Write> Leaving<S> {
    /// Sends what the client takes now. In all it gets the reply, in its order.
    fn send(&mut self, now: u64) -> Went
        requires { self.old.told ≡ false }
        ensures kept { result ≡ Went.Waits → Keeps
            (sent_to (S.contents self.old.socket.stream) self.old.count self.old.reply.items)
            (sent_to (S.contents self.new.socket.stream) self.new.count self.new.reply.items) }
        ensures reply { self.new.reply ≡ self.old.reply }
        ensures told { self.new.told ≡ false }
    {
        'writes: for _turn in 0..u64::MAX {
            if self.count == self.reply.len() {
                return Went::Waits;
            }
            match put_bytes(&mut self.socket.stream, &self.reply, self.count) {
                Ok(count) => {
                    self.count += count;
                    self.moved = now;
                }
                Err(Stop::Full) => return Went::Waits,
                Err(Stop::Broken) => return Went::Over,
            }
        }
        Went::Over
    }
}

impl<S: Peer> Leaving<S> {
    /// Goes on with a client: sends what it takes, says that nothing more comes once it has all, and then drops what it
    /// still sends, at most 65,536 bytes. So a client that was refused in the midst of its body reads the reply and no
    /// reset (RFC 9112, section 9.6).
    pub(crate) fn go_on(&mut self, room: &mut [u8], now: u64) -> Went
        requires { 0 < length room.old }
        ensures kept { result ≡ Went.Waits → Keeps
            (sent_to (S.contents self.old.socket.stream) self.old.count self.old.reply.items)
            (sent_to (S.contents self.new.socket.stream) self.new.count self.new.reply.items) }
        ensures reply { self.new.reply ≡ self.old.reply }
    {
        if !self.told {
            if let Went::Over = self.send(now) {
                return Went::Over;
            }
            if self.count < self.reply.len() {
                return Went::Waits;
            }
            if !self.socket.stream.end_sending() {
                return Went::Over;
            }
            self.told = true;
            self.moved = now;

            // What is there by then is told once changes are, so it need not be looked for now.
            if !self.socket.is_told() {
                return Went::Waits;
            }
        }
        self.drop_rest(room)
    }

    /// Drops what the client still sends.
    fn drop_rest(&mut self, room: &mut [u8]) -> Went
        requires { 0 < length room.old }
        ensures kept { Keeps (S.contents self.old.socket.stream) (S.contents self.new.socket.stream) }
        ensures reply { self.new.reply ≡ self.old.reply }
        ensures count { self.new.count ≡ self.old.count }
    {
        'reads: for _turn in 0..=DROPPED_BYTES {
            match self.socket.stream.skip(room) {
                Ok(0) => return Went::Over,
                Ok(count) => {
                    self.dropped = self.dropped.saturating_add(count);
                    if self.dropped >= DROPPED_BYTES {
                        return Went::Over;
                    }
                }
                Err(error) => match error.kind() {
                    ErrorKind::WouldBlock => return Went::Waits,
                    ErrorKind::Interrupted => {}
                    _ => return Went::Over,
                },
            }
        }
        Went::Over
    }
}

impl Leaving<TcpStream> {
    /// It is told from now on when there is more to do, under a token of this place. It says whether it is.
    pub(crate) fn watch(&mut self, registry: &Registry, token: usize) -> bool
        ensures stream { self.new.socket.stream ≡ self.old.socket.stream }
        ensures reply { (self.new.reply ≡ self.old.reply) × (self.new.count ≡ self.old.count) }
    {
        self.socket.watch(registry, token, !self.told)
    }
}
