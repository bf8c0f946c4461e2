//! Laws of validity. A law is the contract of an empty function.
ghost use Rattle.bw_valid.specs.Laws.{ValidDecided, BreachClosed, BreachJoined};

/// A page is valid exactly where nothing is broken. Closing its gaps changes neither that nor what is broken, and nor does
/// joining its texts: so a page that is read back from its print is as valid as the page that was printed.
pub fn validity()
    ensures decided { ValidDecided }
    ensures closed { BreachClosed }
    ensures joined { BreachJoined }
{}
