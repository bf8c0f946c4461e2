//! Where clients are seen to.
ghost use Rattle.std.specs.Prelude.{◌≡◌, ◌≤◌, ◌<◌, ◌+◌, [], vec_len};
ghost use Rattle.bw_door.specs.declared.desk.TheConstants.{AT_ONCE};

use crate::client::{Client, Heard};
use crate::crowd::{Crowd, Due};
use crate::leaving::{Leaving, Went};
use crate::limits::Limits;
use crate::settles::Settles;
use mio::Registry;
use mio::net::TcpStream;
use std::alloc::{AllocError, Global};
use std::mem;

/// How many bytes are read at once.
pub const AT_ONCE: usize = 16_384;

/// How much memory is kept at most for a later reply, in bytes.
const SPARE: usize = 4_194_304;

/// What it takes to see to a client.
#[derive(Drop)]
pub(crate) struct Desk<W> {
    alloc: Global,
    pub(crate) limits: Limits,
    settles: W,

    /// Where bytes are read to.
    room: Vec<u8>,

    /// Memory for a reply.
    spare: Vec<u8>,

    /// How many milliseconds it is since the port was opened, as last looked at.
    pub(crate) now: u64,
    ghost some: { 0 < vec_len room },
    ghost few: { vec_len room ≤ AT_ONCE },
    ghost empty: { spare.items ≡ [] },
}

impl<W: Settles> Desk<W> {
    /// The memory for reading is taken here.
    pub(crate) fn new(alloc: Global, limits: Limits, settles: W) -> Result<Self, AllocError>
    where
        W: Drop,
    {
        let room = vec![in alloc; 0u8; AT_ONCE]?;
        Ok(Desk {
            alloc,
            limits,
            settles,
            room,
            spare: Vec::new(alloc),
            now: 0,
        })
    }

    /// Empty memory for a reply.
    pub(crate) fn take_spare(&mut self) -> Vec<u8>
        ensures { result.items ≡ [] }
    {
        mem::replace(&mut self.spare, Vec::new(self.alloc))
    }

    /// Keeps the memory of a reply for a later one, unless there is more at hand already.
    fn keep_spare(&mut self, mut reply: Vec<u8>) {
        reply.clear();
        if reply.capacity() <= SPARE && reply.capacity() > self.spare.capacity() {
            self.spare = reply;
        }
    }

    /// A client that has just come, of which nothing was read, and which is out.
    pub(crate) fn welcome(
        &mut self,
        crowd: &mut Crowd<TcpStream, W>,
        stream: TcpStream,
        registry: &Registry,
    )
        requires { 0 < crowd.old.out }
        ensures { crowd.new.out + 1 ≡ crowd.old.out }
    {
        let client = Client::new(self.alloc, stream, self.now);
        self.hear(crowd, client, registry);
    }

    /// Reads what is there of a client that was out, and puts it where it now belongs.
    fn hear(
        &mut self,
        crowd: &mut Crowd<TcpStream, W>,
        mut client: Client<TcpStream>,
        registry: &Registry,
    )
        requires { 0 < crowd.old.out }
        ensures { crowd.new.out + 1 ≡ crowd.old.out }
    {
        match client.read(&mut self.room, &mut self.settles, self.now) {
            Heard::Waits => {
                if client.watch(registry, crowd.waiting_token()) {
                    crowd.put_waiting(client);
                } else {
                    crowd.let_go(client);
                }
            }
            Heard::Whole => crowd.put_due(Due::new(client, false)),
            Heard::Ended => crowd.put_due(Due::new(client, true)),
            Heard::Broken => crowd.let_go(client),
        }
    }

    /// Goes on with a client that was out and gets its reply, and puts it where it now belongs.
    pub(crate) fn see_off(
        &mut self,
        crowd: &mut Crowd<TcpStream, W>,
        mut leaving: Leaving<TcpStream>,
        registry: &Registry,
    )
        requires { 0 < crowd.old.out }
        ensures { crowd.new.out + 1 ≡ crowd.old.out }
    {
        let went = leaving.go_on(&mut self.room, self.now);
        if let Some(reply) = leaving.take_memory(self.alloc) {
            self.keep_spare(reply);
        }
        match went {
            Went::Over => crowd.let_go(leaving),
            Went::Waits => {
                if leaving.watch(registry, crowd.leaving_token()) {
                    crowd.put_leaving(leaving);
                } else {
                    crowd.let_go(leaving);
                }
            }
        }
    }

    /// Sees to the client of a token, of which a change is told.
    pub(crate) fn see_to(
        &mut self,
        crowd: &mut Crowd<TcpStream, W>,
        token: usize,
        registry: &Registry,
    )
        ensures { crowd.new.out ≡ crowd.old.out }
    {
        match crowd.take_waiting(token) {
            Some(client) => self.hear(crowd, client, registry),
            None => self.see_to_leaving(crowd, token, registry),
        }
    }

    /// Sees to the client of a token, of which a change is told, if it gets its reply.
    fn see_to_leaving(&mut self, crowd: &mut Crowd<TcpStream, W>, token: usize, registry: &Registry)
        ensures { crowd.new.out ≡ crowd.old.out }
    {
        match crowd.take_leaving(token) {
            Some(leaving) => self.see_off(crowd, leaving, registry),
            None => {}
        }
    }
}
