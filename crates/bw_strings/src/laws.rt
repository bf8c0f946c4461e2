//! Laws of literals and of sets of strings. A law is the contract of an empty function.
ghost use Rattle.bw_strings.specs.Laws.{JoinByStrings, BelowByStrings, WithinByStrings, BlankByStrings, LiteralsDiffer};

/// What sets of strings do is told by the strings that they have.
pub fn sets_by_strings()
    ensures join { JoinByStrings }
    ensures below { BelowByStrings }
    ensures within { WithinByStrings }
    ensures blank { BlankByStrings }
{}

/// No two literals of a service are equal.
pub fn literals_differ()
    ensures { LiteralsDiffer }
{}
