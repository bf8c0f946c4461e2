//! The analysis of documents.
ghost use Rattle.std.specs.Prelude.{◌≡◌, IfOk, OnOk};
ghost use Rattle.bw_faults.specs.Order.{fault_cmp};
ghost use Rattle.bw_solve.specs.Sets.{merge};
ghost use Rattle.bw_sum.specs.Summaries.{plugged};

use bw_faults::Faults;
use bw_lang::{GapId, Memory};
use bw_sum::Summary;
use std::alloc::Global;

/// The summary of a plug: its edges, and its tracks.
pub fn plug(alloc: Global, base: &Summary, gap: GapId, a: &Summary) -> Result<Summary, Memory>
    ensures { IfOk result (λ s. s ≡ plugged base.now gap a.now) }
{
    base.plug(alloc, gap, a)
}

/// Two lists of faults as one.
pub fn join(faults: &mut Faults, other: Faults) -> Result<(), Memory>
    ensures { OnOk result (faults.new ≡ merge fault_cmp faults.old other) }
{
    faults.join(other)
}
