// The tries of one call of the system.
ghost use Rattle.std.specs.Prelude.{◌≡◌, ◌≤◌};
ghost use Rattle.bw_out.specs.Tries.{noted, no_tries, trouble_of};

use std::io::ErrorKind;

/// How the tries of one call went: how many were interrupted, and how the last one ended, where it failed for another
/// reason. Only a call of the system that ended so is noted here.
#[derive(Clone, Copy, PartialEq, Eq)]
pub struct Tries {
    interrupted: u32,
    end: Option<ErrorKind>,
}

impl Tries {
    /// No try yet.
    pub fn none() -> Tries
        ensures { result ≡ no_tries }
    {
        Tries {
            interrupted: 0,
            end: None,
        }
    }

    /// A try failed by an error of this kind.
    pub fn note(&mut self, kind: ErrorKind)
        requires { self.old.interrupted ≤ 100 }
        ensures { self.new ≡ noted self.old kind }
    {
        match kind {
            ErrorKind::Interrupted => self.interrupted += 1,
            _ => self.end = Some(kind),
        }
    }

    /// Why the call failed: its last try failed so, or 101 in a row were interrupted. None where it didn't fail.
    pub fn trouble(&self) -> Option<ErrorKind>
        ensures { result ≡ trouble_of self.now }
    {
        if self.end.is_some() {
            self.end
        } else if self.interrupted > 100 {
            Some(ErrorKind::Interrupted)
        } else {
            None
        }
    }
}
