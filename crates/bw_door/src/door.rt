//! The door at a port of this machine.
ghost use Rattle.std.specs.Prelude.{◌≡◌, ◌≢◌, ◌≤◌, ◌<◌, ◌+◌, ◌⊎◌, None, Some, Ok, IfOk, IfErr, IfSome, IsSome, OnSome, OnOk, OnErr};
ghost use Rattle.slab.specs.Slab.{slab_len};
ghost use Rattle.bw_out.specs.Causes.{HasCause, Rose};
ghost use Rattle.bw_door.specs.Ends.{IsHandedOut, HasReason, end_of};

use crate::crowd::Crowd;
use crate::desk::Desk;
use crate::leaving::Leaving;
use crate::limits::Limits;
use crate::link::PortLink;
use crate::port::Port;
use crate::settles::Settles;
use bw_out::{Door, Failed};
use mio::Events;
use mio::net::TcpStream;
use std::alloc::{AllocError, Global};
use std::io::ErrorKind;
use std::net::Net;
use std::sync::Wait;
use std::time::Clock;

/// How many changes are told at once.
const CHANGES: usize = 256;

/// How a link ended.
#[derive(Clone, Copy)]
pub(crate) enum End {
    /// It was closed at once, since a read or a write had failed.
    Closed,

    /// What was written to it goes on to be sent.
    Replied,
}

/// A door at a port of the loopback address 127.0.0.1, so that only programs of this machine reach it. It tells nothing
/// of the links that come, of which there is always a next one: it is waited for.
///
/// `listen` fails where the system refuses the port. `next` fails where the system refused 101 times in a row, or where
/// no port is listened on.
pub struct PortDoor<R: Net + Clock + Wait + Copy, W: Settles> {
    rt: R,
    port: Option<Port>,
    changes: Events,
    desk: Desk<W>,
    crowd: Crowd<TcpStream, W>,

    /// How often in a row the system refused, at the last call of `next`.
    refusals: u32,

    /// How the link that was last given back ended.
    last: Option<End>,

    /// Why the system refused the last call that failed.
    error: Option<ErrorKind>,
    faults: u64,
}

impl<R: Net + Clock + Wait + Copy, W: Settles + Drop> Drop for PortDoor<R, W> {
    fn drop(self) {
        let PortDoor {
            rt: _,
            port: _,
            changes: _,
            desk: _,
            crowd: _,
            refusals: _,
            last: _,
            error: _,
            faults: _,
        } = self;
    }
}

impl<R: Net + Clock + Wait + Copy, W: Settles + Drop> PortDoor<R, W> {
    /// A door at no port yet, of which no call has failed. The memory that it needs beside that of its clients is taken
    /// here.
    pub fn new(rt: R, alloc: Global, limits: Limits, settles: W) -> Result<Self, AllocError>
        ensures faults { IfOk result (λ door. door.faults ≡ 0) }
        ensures error { IfOk result (λ door. door.error ≡ None) }
    {
        let changes = Events::with_capacity(alloc, CHANGES)?;
        match Desk::new(alloc, limits, settles) {
            Ok(desk) => Ok(Self::closed(rt, changes, desk, Crowd::new(alloc))),
            Err(error) => {
                drop(changes);
                Err(error)
            }
        }
    }

    /// A door at no port, of which no call has failed.
    fn closed(rt: R, changes: Events, desk: Desk<W>, crowd: Crowd<TcpStream, W>) -> Self
        ensures faults { result.faults ≡ 0 }
        ensures error { result.error ≡ None }
    {
        PortDoor {
            rt,
            port: None,
            changes,
            desk,
            crowd,
            refusals: 0,
            last: None,
            error: None,
            faults: 0,
        }
    }
}

impl<R: Net + Clock + Wait + Copy, W: Settles> PortDoor<R, W> {
    /// Why the system refused the last call that failed. None where no call has failed, and where `next` was called with
    /// no port listened on.
    pub fn last_error(&self) -> Option<ErrorKind>
        ensures { result ≡ self.now.error }
    {
        self.error
    }

    /// Whether a client is due, so that `next` hands out its link without waiting for a message.
    pub fn is_due(&self) -> bool {
        self.crowd.is_due() && self.crowd.kept() < self.desk.limits.kept
    }

    /// Sends what is left of replies, as their clients take it, and lets nobody in. It is called once no more links are
    /// asked for, and takes no longer than a reply may.
    ///
    /// `Failed` comes only where the count of this door rose: the system refused, and replies may be left.
    pub fn finish(&mut self) -> Result<(), Failed>
        ensures cause { HasCause self.old.faults self.new.faults result }
        ensures none { OnOk result ((slab_len self.new.crowd.leaving ≡ 0) ⊎ (self.new.port ≡ None)) }
        ensures error { OnErr result (IsSome self.new.error) }
    {
        let Some(port) = &mut self.port else {
            return Ok(());
        };
        match port.finish(&self.rt, &mut self.changes, &mut self.desk, &mut self.crowd) {
            Ok(()) => Ok(()),
            Err(kind) => Err(self.fail(Some(kind))),
        }
    }

    /// Counts a call that failed, and notes why the system refused it.
    fn fail(&mut self, error: Option<ErrorKind>) -> Failed
        ensures later { self.old.faults ≤ self.new.faults }
        ensures rose { Rose self.old.faults self.new.faults }
        ensures error { self.new.error ≡ error }
        ensures refusals { self.new.refusals ≡ self.old.refusals }
        ensures port { self.new.port ≡ self.old.port }
        ensures crowd { self.new.crowd ≡ self.old.crowd }
    {
        self.faults = self.faults.saturating_add(1);
        self.error = error;
        Failed
    }

    /// The link of the client that has been due for longest. It is waited for. An error is why the system refused, if
    /// it did.
    fn take_link(&mut self) -> Result<PortLink<TcpStream>, Option<ErrorKind>>
        ensures link { IfOk result (IsHandedOut W.settled) }
        ensures out { OnOk result (self.new.crowd.out ≡ self.old.crowd.out + 1) }
        ensures kept { OnErr result (self.new.crowd.out ≡ self.old.crowd.out) }
        ensures reason { IfErr result (HasReason self.new.port self.new.refusals) }
        ensures faults { self.new.faults ≡ self.old.faults }
    {
        let Some(port) = &mut self.port else {
            return Err(None);
        };
        let link = port.next_link(
            &self.rt,
            &mut self.changes,
            &mut self.desk,
            &mut self.crowd,
            &mut self.refusals,
        );
        match link {
            Ok(link) => Ok(link),
            Err(kind) => Err(Some(kind)),
        }
    }

    /// The port that is listened on: where 0 was asked for, the one that the system chose. None where there is none, or
    /// where the system doesn't say.
    pub fn port(&self) -> Option<u16> {
        match &self.port {
            Some(port) => match port.listener.local_addr() {
                Ok(address) => Some(address.port()),
                Err(_) => None,
            },
            None => None,
        }
    }
}

impl<R: Net + Clock + Wait + Copy, W: Settles> Door for PortDoor<R, W> {
    type Link = PortLink<TcpStream>;

    ghost asked = { λ _. None };

    ghost coming = { λ _. None };

    ghost returned = { λ _. None };

    ghost awaits = { λ door. 0 < door.crowd.out };

    ghost faults = { λ door. door.faults };

    fn listen(&mut self, port: u16) -> Result<(), Failed>
        ensures cause { HasCause self.old.faults self.new.faults result }

        // It is listened on exactly where the system allowed it, and else it is noted why not.
        ensures open { OnOk result (IsSome self.new.port) }
        ensures error { OnErr result (IsSome self.new.error) }
    {
        match Port::open(&self.rt, port) {
            Ok(opened) => {
                self.port = Some(opened);
                Ok(())
            }
            Err(error) => Err(self.fail(Some(error.kind()))),
        }
    }

    fn next(&mut self) -> Result<Option<PortLink<TcpStream>>, Failed>
        ensures fresh { IfOk result (λ next. IfSome next (λ link. (link.read_faults ≡ 0) × (link.write_faults ≡ 0))) }
        ensures cause { HasCause self.old.faults self.new.faults result }
        ensures awaits { IfOk result (λ next. OnSome next (0 < self.new.crowd.out)) }

        // There is always a link to come. Enough of its client was read, and nothing of that was handed on.
        ensures some { result ≢ Ok None }
        ensures link { IfOk result (λ next. IfSome next (IsHandedOut W.settled)) }
        ensures out { OnOk result (self.new.crowd.out ≡ self.old.crowd.out + 1) }
        ensures kept { OnErr result (self.new.crowd.out ≡ self.old.crowd.out) }

        // None could be had only where the system refused 101 times in a row, or where no port is listened on.
        ensures reason { OnErr result (HasReason self.new.port self.new.refusals self.new.error) }
    {
        match self.take_link() {
            Ok(link) => Ok(Some(link)),
            Err(error) => Err(self.fail(error)),
        }
    }

    fn give_back(&mut self, link: PortLink<TcpStream>)
        requires { 0 < self.old.crowd.out }
        ensures faults { self.new.faults ≡ self.old.faults }
        ensures out { self.new.crowd.out + 1 ≡ self.old.crowd.out }

        // A link of which a call failed is closed at once, and what was written to each other one is sent.
        ensures last { self.old.port ≢ None → self.new.last ≡ Some (end_of link) }
    {
        self.last = match &mut self.port {
            Some(port) if !link.is_faulty() => {
                self.desk.now = port.since(&self.rt, self.desk.now);
                let leaving = Leaving::new(link, self.desk.now);
                self.desk.see_off(&mut self.crowd, leaving, port.registry());
                Some(End::Replied)
            }
            _ => {
                self.crowd.let_go(link);
                Some(End::Closed)
            }
        };
    }
}
