//! A door in memory that is waited for, or not.
use bw_out::{Door, Failed, MemDoor, MemLink};
use bw_stable::{ReadyDoor, WideDoor};

/// A door in memory. Where its links aren't at hand, each of them is kept and answered before the next one comes; else all
/// together.
#[derive(Drop)]
pub struct GroupDoor<'a> {
    pub door: MemDoor<'a>,
    pub is_ready: bool,
}

impl<'a> Door for GroupDoor<'a> {
    ghost use Rattle.std.specs.Prelude.{◌<◌, Some};
    ghost use Rattle.bw_out.specs.Doors.{ports_of};
    ghost use Rattle.bw_out.specs.MemLinks.{coming_of, given_back_of};

    type Link = MemLink<'a>;

    ghost asked = { λ d. Some (ports_of d.door.port) };

    ghost coming = { λ d. coming_of d.door };

    ghost returned = { λ d. given_back_of d.door };

    ghost awaits = { λ d. 0 < d.door.out };

    ghost faults = { λ d. d.door.faults };

    fn listen(&mut self, port: u16) -> Result<(), Failed> {
        self.door.listen(port)
    }

    fn next(&mut self) -> Result<Option<MemLink<'a>>, Failed> {
        self.door.next()
    }

    fn give_back(&mut self, link: MemLink<'a>) {
        self.door.give_back(link);
    }
}

impl ReadyDoor for GroupDoor<'_> {
    fn is_ready(&self) -> bool {
        self.is_ready
    }
}

impl<'a> WideDoor for GroupDoor<'a> {
    ghost out = { λ d. d.door.out };

    fn next_link(&mut self) -> Result<Option<MemLink<'a>>, Failed> {
        self.door.next()
    }

    fn take_back(&mut self, link: MemLink<'a>) {
        self.door.give_back(link);
    }
}
