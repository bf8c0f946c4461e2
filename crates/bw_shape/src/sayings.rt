//! The strings that may stand at the gaps of a template.
ghost use Rattle.std.specs.Prelude.{◌≡◌, ◌++◌, ◌∷◌, [], OnOk, OnErr};

use bw_lang::{GapId, Memory};
use bw_strings::StrSet;
use std::alloc::Global;
use std::marker::Model;

/// A gap and the strings that may fill it.
pub type Saying = (GapId, StrSet);

/// The strings that may fill the gaps of a template. Contracts see the list.
#[derive(Drop)]
pub struct Sayings {
    list: Vec<Saying>,
}

impl Model for Sayings {
    ghost use Rattle.std.specs.Prelude.{ℕ, List};
    ghost use Rattle.bw_strings.specs.declared.strings.StrSet.{StrSet};

    ghost Value = { List (ℕ × StrSet) };

    ghost view = { λ s. s.list.items };
}

impl Sayings {
    /// No string.
    pub fn new(alloc: Global) -> Sayings
        ensures { result ≡ [] }
    {
        Sayings {
            list: Vec::new(alloc),
        }
    }

    pub fn as_slice(&self) -> &[Saying]
        ensures { result.now ≡ self.now }
    {
        self.list.as_slice()
    }

    /// Strings at one more gap.
    pub fn push(&mut self, saying: Saying) -> Result<(), Memory>
        ensures ok { OnOk result (self.new ≡ self.old ++ saying ∷ []) }
        ensures err { OnErr result (self.new ≡ self.old) }
    {
        self.list.push(saying)?;
        Ok(())
    }
}
