//! A link whose bytes are in memory.
ghost use Rattle.std.specs.Io.{ReadsAtMost};
ghost use Rattle.std.specs.Io.KnownBytes.{ReadConsumes, WriteAppends};
ghost use Rattle.bw_out.specs.Causes.{HasCause};
ghost use Rattle.std.specs.Prelude.{◌≡◌, ◌≤◌, ◌<◌, ◌+◌, nat_lt, false, [], Some, length, take, drop, vec_len, vec_capacity, IfOk, OnErr};

use crate::client::Client;
use crate::socket::Socket;
use bw_out::{Channel, Failed, Sink, Source};

/// A link to a client. It tells the bytes that were read of the client and are left, and those that were written, all
/// of which are in memory.
///
/// A read fails only where the bytes are at an end and the client hadn't ended, and a write only where there is no
/// memory.
#[derive(Drop)]
pub struct PortLink<S> {
    socket: Socket<S>,

    /// What was read of the client, and how much of it was handed on.
    inbox: Vec<u8>,
    at: usize,

    /// The client has ended behind these bytes.
    ended: bool,

    /// What was written.
    outbox: Vec<u8>,
    read_faults: u64,
    write_faults: u64,
    ghost within: { at ≤ vec_len inbox },
}

impl<S> PortLink<S> {
    /// The link of a client, of which nothing was handed on, with the empty memory for what will be written.
    pub(crate) fn new(client: Client<S>, ended: bool, outbox: Vec<u8>) -> Self
        requires { outbox.items ≡ [] }
        ensures socket { result.socket ≡ client.socket }
        ensures inbox { result.inbox ≡ client.inbox }
        ensures at { result.at ≡ 0 }
        ensures ended { result.ended ≡ ended }
        ensures outbox { result.outbox.items ≡ [] }
        ensures reads { result.read_faults ≡ 0 }
        ensures writes { result.write_faults ≡ 0 }
    {
        let (socket, inbox) = client.into_parts();
        PortLink {
            socket,
            inbox,
            at: 0,
            ended,
            outbox,
            read_faults: 0,
            write_faults: 0,
        }
    }

    /// Whether a call of it has failed.
    pub(crate) fn is_faulty(&self) -> bool
        ensures { result ≡ nat_lt 0 (self.now.read_faults + self.now.write_faults) }
    {
        self.read_faults > 0 || self.write_faults > 0
    }

    /// Its stream, and what was written.
    pub(crate) fn into_parts(self) -> (Socket<S>, Vec<u8>)
        ensures socket { result.0 ≡ self.socket }
        ensures outbox { result.1 ≡ self.outbox }
    {
        let PortLink { socket, outbox, .. } = self;
        (socket, outbox)
    }
}

impl<S> Channel for PortLink<S> {
    ghost left = { λ link. Some (drop link.at link.inbox.items) };

    ghost held = { λ link. Some link.outbox.items };

    ghost read_faults = { λ link. link.read_faults };

    ghost write_faults = { λ link. link.write_faults };
}

/// Copies bytes from a place on, as many as there is room for, and says how many.
fn copy_from(bytes: &[u8], at: usize, buf: &mut [u8]) -> usize
    requires { at ≤ length bytes.now }
    ensures bound { result ≤ length buf.new }
    ensures left { at + result ≤ length bytes.now }
    ensures bytes { take result buf.new ≡ take result (drop at bytes.now) }
    ensures none { result ≡ 0 → 0 < length buf.new → at ≡ length bytes.now }
{
    let count = buf.len().min(bytes.len() - at);
    buf[..count].copy_from_slice(&bytes[at..at + count]);
    count
}

impl<S> Source for PortLink<S> {
    ghost same_refl = { λ a. tt };

    ghost same_trans = { λ a b c p q. tt };

    fn read(&mut self, buf: &mut [u8]) -> Result<usize, Failed>
        ensures bound { ReadsAtMost result buf.new }
        ensures bytes { ReadConsumes (Some (drop self.old.at self.old.inbox.items)) (Some (drop self.new.at self.new.inbox.items)) result buf.new }
        ensures cause { HasCause self.old.read_faults self.new.read_faults result }
        ensures outbox { self.new.outbox ≡ self.old.outbox }
        ensures write_faults { self.new.write_faults ≡ self.old.write_faults }

        // It fails only behind the last byte of a client that hasn't ended.
        ensures last { OnErr result ((self.old.at ≡ vec_len self.old.inbox) × (self.old.ended ≡ false)) }
    {
        let count = copy_from(&self.inbox, self.at, buf);
        if count == 0 && !buf.is_empty() && !self.ended {
            self.read_faults = self.read_faults.saturating_add(1);
            return Err(Failed);
        }
        self.at += count;
        Ok(count)
    }
}

impl<S> Sink for PortLink<S> {
    ghost same_refl = { λ a. tt };

    ghost same_trans = { λ a b c p q. tt };

    fn write(&mut self, bytes: &[u8]) -> Result<usize, Failed>
        ensures bound { IfOk result (λ n. n ≤ length bytes.now) }
        ensures some { 0 < length bytes.now → IfOk result (λ n. 0 < n) }
        ensures bytes { WriteAppends (Some self.old.outbox.items) (Some self.new.outbox.items) result bytes.now }
        ensures cause { HasCause self.old.write_faults self.new.write_faults result }
        ensures inbox { (self.new.inbox ≡ self.old.inbox) × (self.new.at ≡ self.old.at) }
        ensures read_faults { self.new.read_faults ≡ self.old.read_faults }

        // It fails only where the memory at hand isn't enough.
        ensures full { OnErr result (vec_capacity self.old.outbox < vec_len self.old.outbox + length bytes.now) }
    {
        match self.outbox.extend_from_slice(bytes) {
            Ok(()) => Ok(bytes.len()),
            Err(_) => {
                self.write_faults = self.write_faults.saturating_add(1);
                Err(Failed)
            }
        }
    }
}
