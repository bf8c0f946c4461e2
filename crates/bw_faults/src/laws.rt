//! Laws of lists of faults. A law is the contract of an empty function.
ghost use Rattle.bw_faults.specs.Lists.{OneList};

/// There is one list of the faults of which something holds.
pub fn one_list()
    ensures { OneList }
{}
