//! The stream of a client, and what changes of it are told under.
ghost use Rattle.std.specs.Prelude.{◌≡◌};

use mio::net::TcpStream;
use mio::{Interest, Registry, Token};

/// How many places there may be. A token is the place of a client, and so many times a number that it has alone.
const PLACES: usize = 65_536;

/// The place that a token names.
pub(crate) fn place_of(token: usize) -> usize {
    token % PLACES
}

/// The token of a place and a number.
pub(crate) fn token_of(number: usize, place: usize) -> usize {
    number.wrapping_mul(PLACES).wrapping_add(place)
}

/// Whether bytes may be read, and if asked for whether bytes may be written.
fn interest_in(writes: bool) -> Interest {
    if writes {
        Interest::READABLE | Interest::WRITABLE
    } else {
        Interest::READABLE
    }
}

/// One of whose stream changes may be told.
pub(crate) trait Told {
    /// Whether changes of its stream are told under this token.
    fn is_told_as(&self, token: usize) -> bool;
}

/// The stream of a client.
#[derive(Drop)]
pub(crate) struct Socket<S> {
    pub(crate) stream: S,

    /// What changes of the stream are told under, if they are.
    token: Option<usize>,

    /// It is told as well when bytes may be written.
    writes: bool,
}

impl<S> Socket<S> {
    /// A stream of which no changes are told.
    pub(crate) fn new(stream: S) -> Self
        ensures { result.stream ≡ stream }
    {
        Socket {
            stream,
            token: None,
            writes: false,
        }
    }

    /// The number in its token: the later the stream was first waited for, the greater.
    pub(crate) fn number(&self) -> usize {
        match self.token {
            Some(token) => token / PLACES,
            None => 0,
        }
    }

    /// Whether changes are told.
    pub(crate) fn is_told(&self) -> bool {
        self.token.is_some()
    }

    /// Whether changes are told under this token.
    pub(crate) fn is_told_as(&self, token: usize) -> bool {
        self.token == Some(token)
    }
}

impl Socket<TcpStream> {
    /// It is told from now on when bytes may be read, and if asked for when bytes may be written, under a token of the same
    /// place as this one. It says whether it is.
    pub(crate) fn watch(&mut self, registry: &Registry, token: usize, writes: bool) -> bool
        ensures { self.new.stream ≡ self.old.stream }
    {
        let interest = interest_in(writes);
        let told = match self.token {
            Some(known) if place_of(known) == place_of(token) && (self.writes || !writes) =>
                return true,
            Some(_) => registry.reregister(&mut self.stream, Token(token), interest),
            None => registry.register(&mut self.stream, Token(token), interest),
        };
        if told.is_err() {
            return false;
        }
        self.token = Some(token);
        self.writes = writes;
        true
    }
}
