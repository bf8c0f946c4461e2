//! What was done to a journal in memory, for contracts alone: it takes no memory, and its methods do nothing as they run.
ghost use Rattle.std.specs.Prelude.{◌≡◌, List, [], ◌∷◌, ◌++◌};
ghost use Rattle.std.specs.Borrow.{ftrue};
ghost use Rattle.bw_stable.specs.Coding.{coded_deeds};
ghost use Rattle.bw_stable.specs.Deeds.{Deed};

use std::marker::Model;

/// The deeds, the oldest first.
#[derive(Drop)]
pub(crate) struct Log {
    pub ghost deeds: { List Deed } by { coded_deeds },
}

impl Model for Log {
    ghost also_owns = { λ _. ftrue };
}

impl Log {
    /// No deed.
    pub(crate) fn new() -> Log
        ensures { result.deeds ≡ [] }
    {
        Log {}
    }

    /// One deed more, of which the caller says by these things which one it is.
    pub(crate) fn and<A>(&self, _of: &A) -> Log
        ghost deed: { Deed }
        ensures { result.deeds ≡ self.now.deeds ++ deed ∷ [] }
    {
        Log {}
    }
}
