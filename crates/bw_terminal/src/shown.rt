//! A door that says where it stands.
ghost use Rattle.std.specs.Prelude.{◌≡◌};

use bw_door::{PortDoor, Settles};
use bw_out::{Door, Failed};
use bw_stable::{ReadyDoor, WideDoor};
use std::io::Eprint;
use std::net::Net;
use std::sync::Wait;
use std::time::Clock;

/// A door that says on standard error, once it stands at a port, which address is to be opened and how the program is
/// stopped. It does so only where it is shown to somebody. In all else it is the door inside.
#[derive(Drop)]
pub struct ShownDoor<'a, D: Door, R: Eprint> {
    pub inner: D,
    rt: &'a R,

    /// Whether it is shown to somebody.
    pub is_shown: bool,

    /// The port that was last asked for, and 0 where none was.
    pub port: u16,
}

impl<'a, D: Door, R: Eprint> ShownDoor<'a, D, R> {
    /// This door, at no port yet.
    pub fn new(inner: D, rt: &'a R, is_shown: bool) -> Self
        ensures inner { result.inner ≡ inner }
        ensures shown { result.is_shown ≡ is_shown }
        ensures port { result.port ≡ 0 }
    {
        ShownDoor {
            inner,
            rt,
            is_shown,
            port: 0,
        }
    }
}

impl<'a, D: Door, R: Eprint> Door for ShownDoor<'a, D, R> {
    type Link = D::Link;

    ghost asked = { λ door. D.asked door.inner };

    ghost coming = { λ door. D.coming door.inner };

    ghost returned = { λ door. D.returned door.inner };

    ghost awaits = { λ door. D.awaits door.inner };

    ghost faults = { λ door. D.faults door.inner };

    fn listen(&mut self, port: u16) -> Result<(), Failed> {
        self.port = port;
        self.inner.listen(port)?;
        if self.is_shown {
            let _ = eprintln!(self.rt;
                "bigwig: open http://127.0.0.1:{port}/, which names the sessions; NAME begins at http://127.0.0.1:{port}/NAME; Ctrl-C stops"
            );
        }
        Ok(())
    }

    fn next(&mut self) -> Result<Option<D::Link>, Failed> {
        self.inner.next()
    }

    fn give_back(&mut self, link: D::Link) {
        self.inner.give_back(link);
    }
}

impl<'a, R: Net + Clock + Wait + Copy, S: Settles, E: Eprint> ReadyDoor
    for ShownDoor<'a, PortDoor<R, S>, E> {
    fn is_ready(&self) -> bool {
        self.inner.is_due()
    }
}

impl<'a, R: Net + Clock + Wait + Copy, S: Settles, E: Eprint> WideDoor
    for ShownDoor<'a, PortDoor<R, S>, E> {
    ghost out = { λ door. door.inner.crowd.out };

    fn next_link(&mut self) -> Result<Option<<PortDoor<R, S> as Door>::Link>, Failed> {
        self.inner.next()
    }

    fn take_back(&mut self, link: <PortDoor<R, S> as Door>::Link) {
        self.inner.give_back(link);
    }
}
