//! Summaries on a stack.
ghost use Rattle.std.specs.Prelude.{◌≡◌, ◌∷◌, [], OnOk, MatchOption};

use bw_lang::Memory;
use bw_sum::Summary;
use std::alloc::Global;
use std::marker::Model;

/// Summaries on a stack. Contracts see the list of them, of which the first is on top.
pub(crate) struct Sums {
    list: Vec<Summary>,
}

impl Drop for Sums {
    fn drop(self) {
        let Sums { list: _ } = self;
    }
}

impl Model for Sums {
    ghost use Rattle.std.specs.Prelude.{List};
    ghost use Rattle.bw_sum.specs.declared.summary.Summary.{Summary as Sum};

    ghost Value = { List Sum };

    ghost use Rattle.std.specs.Prelude.{reverse};

    ghost view = { λ s. reverse s.list.items };
}

impl Sums {
    /// No summary.
    pub(crate) fn new(alloc: Global) -> Sums
        ensures { result ≡ [] }
    {
        Sums {
            list: Vec::new(alloc),
        }
    }

    /// Puts a summary on top.
    pub(crate) fn push(&mut self, sum: Summary) -> Result<(), Memory>
        ensures { OnOk result (self.new ≡ sum ∷ self.old) }
    {
        self.list.push(sum)?;
        Ok(())
    }

    /// Takes the summary on top, if there is one.
    pub(crate) fn pop(&mut self) -> Option<Summary>
        ensures { MatchOption result (self.old ≡ []) (λ d. self.old ≡ d ∷ self.new) }
    {
        self.list.pop()
    }
}
