//! Laws of summaries. A law is the contract of an empty function.
ghost use Rattle.bw_sum.specs.Laws.{ConstantByMembers, JoinByMembers, PlugByMembers, PlugTextByMembers, BelowByMembers, OpensByCount, ReadGapsAreKnown};
ghost use Rattle.bw_sum.specs.Laws.{WellFormedAreAlike, ConstantIsWellFormed, JoinIsWellFormed, PlugIsWellFormed, PlugTextIsWellFormed, RankIsBounded};
ghost use Rattle.bw_sum.specs.Laws.{PlugGrows, PlugTextGrows, ConstantCovers, PlugCovers, PlugTextCovers, BelowCovers};

/// What the operations on summaries do to the members of each part.
pub fn operations_by_members()
    ensures constant { ConstantByMembers }
    ensures join { JoinByMembers }
    ensures plug { PlugByMembers }
    ensures plug_text { PlugTextByMembers }
    ensures below { BelowByMembers }
{}

/// A gap is open where it is counted, and the gaps of a service's templates have their numbers.
pub fn gaps_are_known()
    ensures opens { OpensByCount }
    ensures read { ReadGapsAreKnown }
{}

/// A plug grows with its base and with what is plugged.
pub fn plugs_grow()
    ensures plug { PlugGrows }
    ensures plug_text { PlugTextGrows }
{}

/// Operations keep summaries well formed, and the rank of a well formed summary has a bound.
pub fn operations_keep_well_formed()
    ensures alike { WellFormedAreAlike }
    ensures constant { ConstantIsWellFormed }
    ensures join { JoinIsWellFormed }
    ensures plug { PlugIsWellFormed }
    ensures plug_text { PlugTextIsWellFormed }
    ensures bound { RankIsBounded }
{}

/// What a summary covers stays covered: the tree of a template by its constant, documents with their gaps filled by the
/// plugged summaries, and all by each summary above, as a join is.
pub fn operations_keep_covering()
    ensures constant { ConstantCovers }
    ensures plug { PlugCovers }
    ensures plug_text { PlugTextCovers }
    ensures below { BelowCovers }
{}
