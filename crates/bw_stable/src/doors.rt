//! Doors of which several links may be out at once.
ghost use Rattle.std.specs.Prelude.{◌≡◌, ◌<◌, ◌+◌, ℕ, IfOk, IfSome, OnErr};
ghost use Rattle.bw_out.specs.Causes.{HasCause};
ghost use Rattle.bw_out.specs.Doors.{Arrives, GivesBack};
ghost use Rattle.bw_stable.specs.Counts.{CountsOut};

use crate::outside::ReadyDoor;
use bw_out::{Door, Failed, MemDoor, MemLink};

/// A door of which several links may be out at once: it says how many are, so that each of them can be given back.
pub trait WideDoor: ReadyDoor {
    /// How many links came and weren't given back.
    ghost out: { Self → ℕ };

    /// The next link, as `next` gives it, beside those that are out.
    fn next_link(&mut self) -> Result<Option<Self::Link>, Failed>
        ensures arrived { IfOk result (Arrives Self.Link.left Self.Link.held (Self.coming self.old) (Self.coming self.new)) }
        ensures kept { OnErr result (Self.coming self.new ≡ Self.coming self.old) }
        ensures fresh { IfOk result (λ next. IfSome next (λ link.
            (Self.Link.read_faults link ≡ 0) × (Self.Link.write_faults link ≡ 0))) }
        ensures out { IfOk result (CountsOut (out self.old) (out self.new)) }
        ensures stays { OnErr result (out self.new ≡ out self.old) }
        ensures asked { Self.asked self.new ≡ Self.asked self.old }
        ensures returned { Self.returned self.new ≡ Self.returned self.old }
        ensures cause { HasCause (Self.faults self.old) (Self.faults self.new) result };

    /// Takes a link back, as `give_back` does, and leaves the others out.
    fn take_back(&mut self, link: Self::Link)
        requires { 0 < out self.old }
        ensures out { out self.new + 1 ≡ out self.old }
        ensures returned { GivesBack (Self.returned self.old) (Self.returned self.new) (record {
          unread = Self.Link.left link;
          written = Self.Link.held link;
          read_faults = Self.Link.read_faults link;
          write_faults = Self.Link.write_faults link;
        }) }
        ensures asked { Self.asked self.new ≡ Self.asked self.old }
        ensures coming { Self.coming self.new ≡ Self.coming self.old }
        ensures quiet { Self.faults self.new ≡ Self.faults self.old };
}

impl<'a> WideDoor for MemDoor<'a> {
    ghost out = { λ door. door.out };

    fn next_link(&mut self) -> Result<Option<MemLink<'a>>, Failed> {
        self.next()
    }

    fn take_back(&mut self, link: MemLink<'a>) {
        self.give_back(link);
    }
}
