//! The steps that a pattern is laid out as.
ghost use Rattle.std.specs.Prelude.{◌≡◌, ◌≤◌, ◌<◌, ◌+◌};
ghost use Rattle.bw_format.specs.Pattern.{places, repeats};
ghost use Rattle.bw_format.specs.Steps as spec;
ghost use Rattle.bw_format.specs.declared.limits.TheConstants.{MAX_PATTERN_CHARS};

use crate::limits::MAX_PATTERN_CHARS;
use crate::pattern::{Class, Pattern};

/// A step, with the numbers of the place, the repetition or the kept ends that it is about.
#[derive(Clone, Copy)]
pub enum Step<'a> {
    /// Over a place.
    Take(&'a Class, usize),
    /// Into alternatives, or into what may be left out.
    Keep(usize),
    /// To the other alternative.
    Turn(usize),
    /// Out again.
    Join(usize),
    /// Into a repetition.
    Begin(usize, usize),
    /// Out of a star.
    Star(usize, usize),
    /// Out of a plus, of what takes the empty text or doesn't.
    Plus(usize, usize, bool),
}

impl Default for Step<'_> {
    fn default() -> Self {
        Step::Keep(0)
    }
}

/// The numbers of the next place and of the next repetition, and that under which ends are kept next.
#[derive(Clone, Copy)]
pub struct At {
    pub place: usize,
    pub own: usize,
    pub depth: usize,
}

impl At {
    /// In front of the first place.
    pub fn start() -> At
        ensures { result ≡ spec.at_start }
    {
        At {
            place: 0,
            own: 0,
            depth: 0,
        }
    }

    /// Past a pattern.
    pub fn past(self, pattern: &Pattern) -> At
        requires place { self.place + places pattern.now ≤ MAX_PATTERN_CHARS }
        requires own { self.own + repeats pattern.now ≤ MAX_PATTERN_CHARS }
        ensures { result ≡ spec.past pattern.now self }
    {
        At {
            place: self.place + pattern.places(),
            own: self.own + pattern.repeats(),
            depth: self.depth,
        }
    }

    /// Inside of a part, whose ends in front are kept.
    pub fn inside(self) -> At
        requires { self.depth < MAX_PATTERN_CHARS }
        ensures { result ≡ spec.inside self }
    {
        At {
            place: self.place,
            own: self.own,
            depth: self.depth + 1,
        }
    }

    /// Inside of a repetition.
    pub fn again(self) -> At
        requires depth { self.depth < MAX_PATTERN_CHARS }
        requires own { self.own < MAX_PATTERN_CHARS }
        ensures { result ≡ spec.again self }
    {
        At {
            place: self.place,
            own: self.own + 1,
            depth: self.depth + 1,
        }
    }
}
