//! What a client submits with a form.
ghost use Rattle.std.specs.Prelude.{◌≡◌, ◌++◌, ◌∷◌, [], OnOk, OnErr, MatchOption, None, Some, slice_get};
ghost use Rattle.bw_lang.specs.Service.Submissions.{IsTextForm, values_of};

use crate::text::{Memory, Text};
use std::alloc::Global;
use std::marker::Model;

/// The bytes of a value of a form that a show receives.
pub const MAX_VALUE_BYTES: usize = 16_384;

/// A form as it was submitted: pairs of the name of a control and a value, in the order in which they came (HTML 4.01,
/// section 17.13.3). A name may come several times. Contracts see the list of the pairs, each value of which is UTF-8.
pub struct Submission {
    pairs: Vec<(Text, Text)>,
}

impl Drop for Submission {
    fn drop(self) {
        let Submission { pairs: _ } = self;
    }
}

impl Model for Submission {
    ghost use Rattle.std.specs.Prelude.{ℕ, List};

    ghost Value = { List (List ℕ × List ℕ) };

    ghost use Rattle.bw_lang.specs.Service.Submissions.{IsTextForm};

    ghost view = { λ s. s.pairs.items };

    ghost invariant = { λ s. IsTextForm s.pairs.items };
}

impl Submission {
    /// No pair yet.
    pub fn new(alloc: Global) -> Submission
        ensures { result ≡ [] }
    {
        Submission {
            pairs: Vec::new(alloc),
        }
    }

    /// One pair more, behind the others.
    pub fn push(&mut self, name: Text, value: Text) -> Result<(), Memory>
        ensures ok { OnOk result (self.new ≡ self.old ++ (name, value) ∷ []) }
        ensures err { OnErr result (self.new ≡ self.old) }
    {
        let _ = value.as_str();
        self.pairs.push((name, value))?;
        Ok(())
    }

    /// The pairs, in order.
    pub fn as_slice(&self) -> &[(Text, Text)]
        ensures pairs { result.now ≡ self.now }
        ensures utf8 { IsTextForm self.now }
    {
        self.pairs.as_slice()
    }

    /// The value of the n-th pair of that name, counted from 0, or none where it has no more than n. It takes no
    /// memory.
    pub fn value(&self, field: &str, n: usize) -> Option<&str>
        ensures { MatchOption result (slice_get (values_of field.now self.now) n ≡ None)
            (λ value. slice_get (values_of field.now self.now) n ≡ Some value.now) }
    {
        let mut left = n;
        for (name, value) in &self.pairs {
            if field == name.as_str() {
                if left == 0 {
                    return Some(value.as_str());
                }
                left -= 1;
            }
        }
        None
    }
}
