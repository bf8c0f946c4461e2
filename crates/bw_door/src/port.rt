//! A port that is listened on, and the looks at its clients.
ghost use Rattle.std.specs.Prelude.{◌≡◌, ◌≤◌, ◌<◌, ◌+◌, ◌-◌, [], OnOk, OnErr, IfOk, IfNone};
ghost use Rattle.slab.specs.Slab.{slab_len};
ghost use Rattle.bw_door.specs.Ends.{IsHandedOut};
ghost use Rattle.bw_door.specs.Lateness.{is_client_late, is_leaving_late};
ghost use Rattle.bw_door.specs.Places.{NoneIs};

use crate::crowd::{Crowd, Due};
use crate::desk::Desk;
use crate::limits::Limits;
use crate::link::PortLink;
use crate::settles::Settles;
use mio::net::{TcpListener, TcpStream};
use mio::{Events, Interest, Poll, Token};
use std::io;
use std::io::ErrorKind;
use std::net::{IpAddr, Ipv4Addr, Net, SocketAddr};
use std::sync::Wait;
use std::time::{Clock, Duration, Instant};

/// How often the system may refuse in a row: once, and again up to 100 times.
pub(crate) const TRIES: u32 = 101;

/// What changes of the listener are told under. No client comes to have this token.
const LISTENER: usize = usize::MAX;

/// How many clients are let in at one look.
const LET_IN: u32 = 1_000;

/// How long one look waits where a time may be over behind it, in milliseconds.
const TICK: u64 = 100;

/// After how long there is a look even while clients are due, in milliseconds.
const LOOK: u64 = 20;

/// How often those are let go whose time is over, at most, in milliseconds.
const WEED: u64 = 20;

/// What letting clients in came to.
#[derive(Clone, Copy)]
enum LetIn {
    /// No further one waits.
    All,
    /// Further ones may wait.
    Some,
    /// The system refuses.
    Refused(ErrorKind),
}

/// A port that is listened on.
#[derive(Drop)]
pub(crate) struct Port {
    poll: Poll,
    pub(crate) listener: TcpListener,
    start: Instant,

    /// When the clients were last looked at, in milliseconds since the start.
    looked: u64,

    /// When those were last let go whose time was over.
    weeded: u64,

    /// Clients may wait to be let in.
    more: bool,
}

impl Port {
    /// A port of 127.0.0.1, if the system allows it.
    pub(crate) fn open<R: Net + Clock>(rt: &R, number: u16) -> io::Result<Port> {
        let address = SocketAddr::new(IpAddr::V4(Ipv4Addr::LOCALHOST), number);
        let mut listener = TcpListener::bind(rt, address)?;
        let poll = Poll::new(rt)?;
        poll.registry()
            .register(&mut listener, Token(LISTENER), Interest::READABLE)?;
        let start = Instant::now(rt)?;
        Ok(Port {
            poll,
            listener,
            start,
            looked: 0,
            weeded: 0,
            more: true,
        })
    }

    /// How many milliseconds it is since the start, and the last known number where the clock can't be read.
    pub(crate) fn since<R: Clock>(&self, rt: &R, known: u64) -> u64 {
        match self.start.elapsed(rt) {
            Ok(gone) => gone
                .as_secs()
                .saturating_mul(1_000)
                .saturating_add(gone.subsec_millis() as u64),
            Err(_) => known,
        }
    }

    /// What changes are told of.
    pub(crate) fn registry(&self) -> &mio::Registry {
        self.poll.registry()
    }

    /// Sees to all clients of which a change was told, and says whether clients wait to be let in.
    fn see_to_all<W: Settles>(
        &self,
        changes: &Events,
        desk: &mut Desk<W>,
        crowd: &mut Crowd<TcpStream, W>,
    ) -> bool
        ensures { crowd.new.out ≡ crowd.old.out }
    {
        let mut come = false;
        'changes: for change in changes.iter() {
            match change.token().0 {
                LISTENER => come = true,
                token => desk.see_to(crowd, token, self.registry()),
            }
        }
        come
    }

    /// Lets in clients that wait, while there is a place for them or one gives way. Where the system refuses, as for want
    /// of descriptors, one gives way as well.
    fn let_in<W: Settles>(&self, desk: &mut Desk<W>, crowd: &mut Crowd<TcpStream, W>) -> LetIn
        ensures { crowd.new.out ≡ crowd.old.out }
    {
        let mut refused = false;
        'clients: for _turn in 0..LET_IN {
            if !crowd.has_room(desk.limits.places) {
                return LetIn::Some;
            }
            match self.listener.accept() {
                Ok((stream, _address)) => {
                    refused = false;
                    if crowd.is_full(desk.limits.places) {
                        crowd.give_way();
                    }
                    crowd.enter();
                    desk.welcome(crowd, stream, self.registry());
                }
                Err(error) => match error.kind() {
                    ErrorKind::WouldBlock => return LetIn::All,
                    ErrorKind::Interrupted
                    | ErrorKind::ConnectionAborted
                    | ErrorKind::ConnectionReset => {}
                    kind => {
                        if refused || !crowd.give_way() {
                            return LetIn::Refused(kind);
                        }
                        refused = true;
                    }
                },
            }
        }
        LetIn::Some
    }

    /// Looks at all clients once: waits up to a time for changes, sees to them, lets clients in, and lets those go whose
    /// time is over, where that was last done 20 milliseconds ago or earlier. An error is why the system refused. That no
    /// client is let in counts as one only where none is in, since else it mends itself.
    fn look<R: Clock, W: Settles>(
        &mut self,
        rt: &R,
        changes: &mut Events,
        desk: &mut Desk<W>,
        crowd: &mut Crowd<TcpStream, W>,
        wait: Option<Duration>,
    ) -> Result<(), ErrorKind>
        ensures out { crowd.new.out ≡ crowd.old.out }
        ensures waiting { 20 ≤ self.new.looked - self.old.weeded →
            NoneIs (is_client_late desk.new.limits self.new.looked) crowd.new.waiting }
        ensures leaving { 20 ≤ self.new.looked - self.old.weeded →
            NoneIs (is_leaving_late desk.new.limits self.new.looked) crowd.new.leaving }
        ensures weeded { self.new.looked - self.old.weeded < 20 → self.new.weeded ≡ self.old.weeded }
    {
        let polled = self.poll.poll(changes, wait);
        desk.now = self.since(rt, desk.now);
        let came = self.see(changes, desk, crowd);
        self.looked = self.since(rt, desk.now);
        desk.now = self.looked;
        self.weed(desk.limits, crowd);
        refusal(polled, came, crowd.count())
    }

    /// Sees to all clients of which a change was told, and then lets clients in, if any wait.
    fn see<W: Settles>(
        &mut self,
        changes: &Events,
        desk: &mut Desk<W>,
        crowd: &mut Crowd<TcpStream, W>,
    ) -> LetIn
        ensures out { crowd.new.out ≡ crowd.old.out }
        ensures weeded { self.new.weeded ≡ self.old.weeded }
    {
        let come = self.see_to_all(changes, desk, crowd);
        if !come && !self.more {
            return LetIn::All;
        }
        let came = self.let_in(desk, crowd);
        self.more = !matches!(came, LetIn::All);
        came
    }

    /// Lets those go whose time is over, where that was last done 20 milliseconds ago or earlier.
    fn weed<W: Settles>(&mut self, limits: Limits, crowd: &mut Crowd<TcpStream, W>)
        ensures out { crowd.new.out ≡ crowd.old.out }
        ensures looked { self.new.looked ≡ self.old.looked }
        ensures waiting { 20 ≤ self.old.looked - self.old.weeded →
            NoneIs (is_client_late limits self.old.looked) crowd.new.waiting }
        ensures leaving { 20 ≤ self.old.looked - self.old.weeded →
            NoneIs (is_leaving_late limits self.old.looked) crowd.new.leaving }
        ensures weeded { self.old.looked - self.old.weeded < 20 → self.new.weeded ≡ self.old.weeded }
    {
        if self.looked.saturating_sub(self.weeded) >= WEED {
            crowd.weed(limits, self.looked);
            self.weeded = self.looked;
        }
    }

    /// The link of the client that has been due for longest. It is waited for. An error is why the system refused at the
    /// last of 101 looks in a row.
    pub(crate) fn next_link<R: Clock + Wait, W: Settles>(
        &mut self,
        rt: &R,
        changes: &mut Events,
        desk: &mut Desk<W>,
        crowd: &mut Crowd<TcpStream, W>,
        refusals: &mut u32,
    ) -> Result<PortLink<TcpStream>, ErrorKind>
        ensures link { IfOk result (IsHandedOut W.settled) }
        ensures out { OnOk result (crowd.new.out ≡ crowd.old.out + 1) }
        ensures kept { OnErr result (crowd.new.out ≡ crowd.old.out) }
        ensures err { OnErr result (refusals.new ≡ 101) }
    {
        *refusals = 0;
        'looks: for _turn in rt.forever() {
            let is_held = crowd.kept() >= desk.limits.kept;
            let is_fresh = desk.now.saturating_sub(self.looked) < LOOK;
            if !is_held
                && is_fresh
                && let Some(due) = crowd.take_due()
            {
                return Ok(link_of(due, desk.take_spare()));
            }
            let wait = wait_for(crowd, self.more, is_held);
            match self.look(rt, changes, desk, crowd, wait) {
                Ok(()) => *refusals = 0,
                Err(kind) => {
                    *refusals += 1;
                    if *refusals == TRIES {
                        return Err(kind);
                    }
                }
            }
        }
        unreachable!()
    }

    /// Sends what is left of replies, as their clients take it, until each has all of its own or its time is over. An
    /// error is why the system refused; replies may be left then.
    pub(crate) fn finish<R: Clock + Wait, W: Settles>(
        &mut self,
        rt: &R,
        changes: &mut Events,
        desk: &mut Desk<W>,
        crowd: &mut Crowd<TcpStream, W>,
    ) -> Result<(), ErrorKind>
        ensures out { crowd.new.out ≡ crowd.old.out }
        ensures none { OnOk result (slab_len crowd.new.leaving ≡ 0) }
    {
        'looks: for _turn in rt.forever() {
            if !crowd.is_leaving() {
                return Ok(());
            }
            let wait = Some(Duration::from_millis(TICK));
            if let Err(error) = self.poll.poll(changes, wait) {
                return Err(error.kind());
            }
            desk.now = self.since(rt, desk.now);
            let _come = self.see_to_all(changes, desk, crowd);
            crowd.weed(desk.limits, desk.now);
        }
        unreachable!()
    }
}

/// How long a look may wait: not at all where a client is due that may be handed out, and for any time where none is in.
fn wait_for<W: Settles>(
    crowd: &Crowd<TcpStream, W>,
    more: bool,
    is_held: bool,
) -> Option<Duration> {
    if crowd.is_due() && !is_held {
        return Some(Duration::from_millis(0));
    }
    if crowd.count() > 0 || more {
        return Some(Duration::from_millis(TICK));
    }
    None
}

/// Why the system refused at a look, where the changes came to this and letting clients in to that, and so many are in.
fn refusal(polled: io::Result<()>, came: LetIn, count: usize) -> Result<(), ErrorKind> {
    if let Err(error) = polled {
        return Err(error.kind());
    }
    match came {
        LetIn::Refused(kind) if count == 0 => Err(kind),
        _ => Ok(()),
    }
}

/// The link of a client that is due, with empty memory for what will be written.
fn link_of<W: Settles>(due: Due<TcpStream, W>, outbox: Vec<u8>) -> PortLink<TcpStream>
    requires { outbox.items ≡ [] }
    ensures { IsHandedOut W.settled result }
{
    let Due { client, ended, .. } = due;
    PortLink::new(client, ended, outbox)
}
