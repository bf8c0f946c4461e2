//! All clients, by what they wait for.
ghost use Rattle.std.specs.Prelude.{◌≡◌, ◌<◌, ◌+◌, ◌-◌, ◌^◌, false, true, OnSome, IfNone};
ghost use Rattle.std.specs.VecDeque.{deque_len};
ghost use Rattle.slab.specs.Slab.{slab_len};
ghost use Rattle.bw_door.specs.Lateness.{is_client_late, is_leaving_late};
ghost use Rattle.bw_door.specs.Places.{NoneIs};

use crate::client::Client;
use crate::leaving::Leaving;
use crate::limits::Limits;
use crate::settles::Settles;
use crate::socket::{Told, place_of, token_of};
use crate::timed::weed;
use slab::Slab;
use std::alloc::Global;
use std::collections::VecDeque;
use std::marker::PhantomData;

/// A client whose message is whole, or who has ended.
#[derive(Drop)]
pub(crate) struct Due<S, W: Settles> {
    pub(crate) client: Client<S>,

    /// It has ended behind these bytes.
    pub(crate) ended: bool,
    kind: PhantomData<W>,
    ghost enough: { ended ≡ false → ∥ W.settled client.inbox.items ∥₁ },
}

impl<S, W: Settles> Due<S, W> {
    /// A client of which enough was read.
    pub(crate) fn new(client: Client<S>, ended: bool) -> Self
        requires { ended ≡ false → ∥ W.settled client.inbox.items ∥₁ }
        ensures client { result.client ≡ client }
        ensures ended { result.ended ≡ ended }
    {
        Due {
            client,
            ended,
            kind: PhantomData,
        }
    }
}

/// All clients, by what they wait for.
///
/// Each client that came waits for its message, is due, gets its reply, is out, or is gone, and none of them twice: their
/// counts say so at any time.
#[derive(Drop)]
pub(crate) struct Crowd<S, W: Settles> {
    waiting: Slab<Client<S>>,
    due: VecDeque<Due<S, W>>,
    leaving: Slab<Leaving<S>>,

    /// How many came.
    came: u64,

    /// How many are out: handed out as a link, or looked at.
    out: u64,

    /// How many were let go.
    gone: u64,

    /// The number of the last token.
    number: usize,

    /// How many bytes of memory replies have.
    kept: usize,
    ghost counted: { came ≡ slab_len waiting + deque_len due + slab_len leaving + out + gone },
}

impl<S, W: Settles> Crowd<S, W> {
    /// Nobody yet.
    pub(crate) fn new(alloc: Global) -> Self
        ensures came { result.came ≡ 0 }
        ensures out { result.out ≡ 0 }
    {
        Crowd {
            waiting: Slab::new(alloc),
            due: VecDeque::new(alloc),
            leaving: Slab::new(alloc),
            came: 0,
            out: 0,
            gone: 0,
            number: 0,
            kept: 0,
        }
    }

    /// How many clients are in that aren't out.
    pub(crate) fn count(&self) -> usize {
        self.waiting
            .len()
            .saturating_add(self.due.len())
            .saturating_add(self.leaving.len())
    }

    /// Whether all of so many places are taken.
    pub(crate) fn is_full(&self, places: usize) -> bool {
        self.count() >= places
    }

    /// Whether a further client may come: there is a place, or a client that can give way.
    pub(crate) fn has_room(&self, places: usize) -> bool
        ensures { result ≡ true → self.now.came < 2 ^ 64 - 1 }
    {
        self.came < u64::MAX && (!self.is_full(places) || !self.waiting.is_empty())
    }

    /// Whether a client is due.
    pub(crate) fn is_due(&self) -> bool {
        !self.due.is_empty()
    }

    /// Whether a client gets its reply.
    pub(crate) fn is_leaving(&self) -> bool
        ensures { result ≡ false → slab_len self.now.leaving ≡ 0 }
    {
        !self.leaving.is_empty()
    }

    /// How many bytes of memory replies have.
    pub(crate) fn kept(&self) -> usize {
        self.kept
    }

    /// A client came, and is out.
    pub(crate) fn enter(&mut self)
        requires { self.old.came < 2 ^ 64 - 1 }
        ensures came { self.new.came ≡ self.old.came + 1 }
        ensures out { self.new.out ≡ self.old.out + 1 }
    {
        self.came += 1;
        self.out += 1;
    }

    /// A token for the client that waits for its message next.
    pub(crate) fn waiting_token(&mut self) -> usize
        ensures { self.new.out ≡ self.old.out }
    {
        self.number = self.number.wrapping_add(1);
        token_of(self.number, self.waiting.vacant_key())
    }

    /// A token for the client that gets its reply next.
    pub(crate) fn leaving_token(&mut self) -> usize
        ensures { self.new.out ≡ self.old.out }
    {
        self.number = self.number.wrapping_add(1);
        token_of(self.number, self.leaving.vacant_key())
    }

    /// The client of this token that waits for its message, which is then out.
    pub(crate) fn take_waiting(&mut self, token: usize) -> Option<Client<S>>
        ensures some { OnSome result (self.new.out ≡ self.old.out + 1) }
        ensures none { IfNone result (self.new.out ≡ self.old.out) }
    {
        match take_told(&mut self.waiting, token) {
            Some(client) => {
                self.out += 1;
                Some(client)
            }
            None => None,
        }
    }

    /// The client of this token that gets its reply, which is then out.
    pub(crate) fn take_leaving(&mut self, token: usize) -> Option<Leaving<S>>
        ensures some { OnSome result (self.new.out ≡ self.old.out + 1) }
        ensures none { IfNone result (self.new.out ≡ self.old.out) }
    {
        match take_told(&mut self.leaving, token) {
            Some(leaving) => {
                self.out += 1;
                self.kept = self.kept.saturating_sub(leaving.kept());
                Some(leaving)
            }
            None => None,
        }
    }

    /// The client that has been due for longest, which is then out.
    pub(crate) fn take_due(&mut self) -> Option<Due<S, W>>
        ensures some { OnSome result (self.new.out ≡ self.old.out + 1) }
        ensures none { IfNone result (self.new.out ≡ self.old.out) }
    {
        match self.due.pop_front() {
            Some(due) => {
                self.out += 1;
                Some(due)
            }
            None => None,
        }
    }
}

impl<S: Drop, W: Settles> Crowd<S, W> {
    /// A client that was out waits for its message. Without memory it is let go.
    pub(crate) fn put_waiting(&mut self, client: Client<S>)
        requires { 0 < self.old.out }
        ensures { self.new.out + 1 ≡ self.old.out }
    {
        // At most as many are gone as came.
        let _came = self.came;
        self.out -= 1;
        self.gone += put_in(&mut self.waiting, client);
    }

    /// A client that was out is due. Without memory it is let go.
    pub(crate) fn put_due(&mut self, due: Due<S, W>)
        requires { 0 < self.old.out }
        ensures { self.new.out + 1 ≡ self.old.out }
    {
        // At most as many are gone as came.
        let _came = self.came;
        self.out -= 1;
        self.gone += put_last(&mut self.due, due);
    }

    /// A client that was out gets its reply. Without memory it is let go.
    pub(crate) fn put_leaving(&mut self, leaving: Leaving<S>)
        requires { 0 < self.old.out }
        ensures { self.new.out + 1 ≡ self.old.out }
    {
        // At most as many are gone as came.
        let _came = self.came;
        self.out -= 1;
        self.kept = self.kept.saturating_add(leaving.kept());
        self.gone += put_in(&mut self.leaving, leaving);
    }

    /// A client that was out is let go.
    pub(crate) fn let_go<T: Drop>(&mut self, client: T)
        requires { 0 < self.old.out }
        ensures { self.new.out + 1 ≡ self.old.out }
    {
        drop(client);
        self.out -= 1;
        self.gone += 1;
    }

    /// The client gives way that has sent nothing for the longest, of those whose message isn't whole. It says whether
    /// there was one.
    pub(crate) fn give_way(&mut self) -> bool
        ensures out { self.new.out ≡ self.old.out }
        ensures came { self.new.came ≡ self.old.came }
    {
        let quietest = self
            .waiting
            .iter()
            .min_by_key(|(_, client)| client.quiet_since());
        let Some((place, _)) = quietest else {
            return false;
        };
        match self.waiting.try_remove(place) {
            Some(client) => {
                drop(client);
                self.gone += 1;
                true
            }
            None => false,
        }
    }

    /// Lets each client go whose time is over.
    pub(crate) fn weed(&mut self, limits: Limits, now: u64)
        ensures out { self.new.out ≡ self.old.out }
        ensures waiting { NoneIs (is_client_late limits now) self.new.waiting }
        ensures leaving { NoneIs (is_leaving_late limits now) self.new.leaving }
    {
        // At most as many are gone as came.
        let _came = self.came;
        self.gone += weed(&mut self.waiting, limits, now);
        self.gone += weed(&mut self.leaving, limits, now);
        self.kept = memory_of(&self.leaving);
    }
}

/// How many bytes of memory replies have.
fn memory_of<S>(leaving: &Slab<Leaving<S>>) -> usize {
    let mut memory = 0usize;
    for (_, one) in leaving.iter() {
        memory = memory.saturating_add(one.kept());
    }
    memory
}

/// Takes out the one whose changes are told under this token, if there is one.
fn take_told<T: Told>(slab: &mut Slab<T>, token: usize) -> Option<T>
    ensures some { OnSome result (slab_len slab.new + 1 ≡ slab_len slab.old) }
    ensures none { IfNone result (slab_len slab.new ≡ slab_len slab.old) }
{
    let place = place_of(token);
    match slab.get(place) {
        Some(one) if one.is_told_as(token) => {}
        _ => return None,
    }
    slab.try_remove(place)
}

/// Puts one in, and says how many were let go for want of memory.
fn put_in<T: Drop>(slab: &mut Slab<T>, one: T) -> u64
    ensures { slab_len slab.new + result ≡ slab_len slab.old + 1 }
{
    match slab.insert(one) {
        Ok(_) => 0,
        Err(_) => 1,
    }
}

/// Puts one behind the others, and says how many were let go for want of memory.
fn put_last<T: Drop>(queue: &mut VecDeque<T>, one: T) -> u64
    ensures { deque_len queue.new + result ≡ deque_len queue.old + 1 }
{
    match queue.push_back(one) {
        Ok(()) => 0,
        Err(_) => 1,
    }
}
