//! The ways in which an element breaks a rule.
ghost use Rattle.std.specs.Prelude.{◌≡◌, ◌≤◌};
ghost use Rattle.bw_explain.specs.Aims as spec;

use bw_lang::{Name, Words};
use bw_schema::{Rule, is_among};

/// How an element breaks a rule.
pub enum Atom {
    /// An attribute isn't allowed.
    NotAllowed,
    /// The value of an attribute isn't in a list.
    OtherValue,
    /// The attribute is absent.
    Absent(Name),
    /// The attribute isn't there with one of these values.
    Outside(Name, Words),
    /// A child element isn't allowed.
    BadChild,
    /// A text isn't blank.
    BadText,
    /// No child element has this tag.
    Missing(Name),
    /// A child element with the second tag stands before one with the first.
    Crossing(Name, Name),
}

impl Drop for Atom {
    fn drop(self) {
        match self {
            Atom::NotAllowed => {}
            Atom::OtherValue => {}
            Atom::Absent(_) => {}
            Atom::Outside(_, _) => {}
            Atom::BadChild => {}
            Atom::BadText => {}
            Atom::Missing(_) => {}
            Atom::Crossing(_, _) => {}
        }
    }
}

impl Atom {
    /// Whether a text is looked for.
    pub fn is_wordy(&self) -> bool
        ensures { result ≡ spec.top_wordy self.now }
    {
        match self {
            Atom::BadText => true,
            _ => false,
        }
    }

    /// Whether a child with the tag may stand beside what is looked for.
    pub fn stays(&self, tag: &str) -> bool
        ensures { result ≡ spec.top_stays self.now tag.now }
    {
        match self {
            Atom::Missing(name) => tag != name.as_str(),
            _ => true,
        }
    }

    /// Whether a child with the tag is what is looked for in a state.
    pub fn next(&self, rule: &Rule, state: u32, tag: &str) -> bool
        ensures { result ≡ spec.top_next rule.now self.now state tag.now }
    {
        match self {
            Atom::BadChild => state == 0 && !is_among(&rule.has, tag),
            Atom::Crossing(last, first) => {
                if state == 0 {
                    tag == first.as_str()
                } else {
                    tag == last.as_str()
                }
            }
            _ => false,
        }
    }

    /// The state in which it was found.
    pub fn goals(&self) -> u32
        ensures is { result ≡ spec.top_goals self.now }
        ensures most { result ≤ 2 }
    {
        match self {
            Atom::BadChild => 1,
            Atom::BadText => 1,
            Atom::Crossing(_, _) => 2,
            _ => 0,
        }
    }
}
