//! A door in memory of which some calls fail.
ghost use Rattle.std.specs.Prelude.{◌≡◌};
ghost use Rattle.bw_out.specs.Causes.{HasCause};

use bw_out::{Door, Failed, MemDoor, MemLink};
use bw_stable::{ReadyDoor, WideDoor};

/// Which links of a door come how. Each sort of call is counted from 1.
#[derive(Clone, Copy)]
pub struct Comings<'a> {
    /// The calls to listen that fail.
    pub failing_listens: &'a [u64],
    /// The calls for the next link that fail.
    pub failing_nexts: &'a [u64],
    /// The calls for the next link that have to wait for it.
    pub awaited: &'a [u64],
}

/// A door in memory of which some calls fail, and some links are waited for.
#[derive(Drop)]
pub struct CaseDoor<'a> {
    door: MemDoor<'a>,
    comings: Comings<'a>,
    listens: u64,
    nexts: u64,
    port: Option<u16>,
    faults: u64,
}

impl<'a> CaseDoor<'a> {
    /// The door, of which the links come so.
    pub fn new(door: MemDoor<'a>, comings: Comings<'a>) -> CaseDoor<'a> {
        CaseDoor {
            door,
            comings,
            listens: 0,
            nexts: 0,
            port: None,
            faults: 0,
        }
    }

    /// The port that was last asked for.
    pub fn port(&self) -> Option<u16> {
        self.port
    }

    /// The links that were given back, the oldest first.
    pub fn returned(&self) -> &[MemLink<'_>] {
        self.door.returned()
    }

    /// Counts a call for the next link, which fails where it is to.
    fn begin_next(&mut self) -> Result<(), Failed>
        ensures door { self.new.door ≡ self.old.door }
        ensures cause { HasCause self.old.faults self.new.faults result }
    {
        self.nexts = self.nexts.saturating_add(1);
        if self.comings.failing_nexts.contains(&self.nexts) {
            self.faults = self.faults.saturating_add(1);
            return Err(Failed);
        }
        Ok(())
    }
}

impl<'a> Door for CaseDoor<'a> {
    ghost use Rattle.std.specs.Prelude.{◌<◌, Some};
    ghost use Rattle.bw_out.specs.Doors.{ports_of};
    ghost use Rattle.bw_out.specs.MemLinks.{coming_of, given_back_of};

    type Link = MemLink<'a>;

    ghost asked = { λ d. Some (ports_of d.door.port) };

    ghost coming = { λ d. coming_of d.door };

    ghost returned = { λ d. given_back_of d.door };

    ghost awaits = { λ d. 0 < d.door.out };

    ghost faults = { λ d. d.faults };

    fn listen(&mut self, port: u16) -> Result<(), Failed> {
        self.port = Some(port);
        self.listens = self.listens.saturating_add(1);
        if self.comings.failing_listens.contains(&self.listens) {
            self.faults = self.faults.saturating_add(1);
            return Err(Failed);
        }
        match self.door.listen(port) {
            Ok(()) => Ok(()),
            Err(Failed) => {
                self.faults = self.faults.saturating_add(1);
                Err(Failed)
            }
        }
    }

    fn next(&mut self) -> Result<Option<MemLink<'a>>, Failed> {
        self.begin_next()?;
        self.door.next()
    }

    fn give_back(&mut self, link: MemLink<'a>) {
        self.door.give_back(link);
    }
}

impl ReadyDoor for CaseDoor<'_> {
    fn is_ready(&self) -> bool {
        !self.comings.awaited.contains(&self.nexts.saturating_add(1))
    }
}

impl<'a> WideDoor for CaseDoor<'a> {
    ghost out = { λ d. d.door.out };

    fn next_link(&mut self) -> Result<Option<MemLink<'a>>, Failed> {
        self.begin_next()?;
        self.door.next()
    }

    fn take_back(&mut self, link: MemLink<'a>) {
        self.door.give_back(link);
    }
}
