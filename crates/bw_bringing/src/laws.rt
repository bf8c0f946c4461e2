//! Laws of what entries bring about. A law is the contract of an empty function.
ghost use Rattle.bw_bringing.specs.EntryLaws.{BringsByParts, BringsInParts, BringsKeepSound, BringsKeepWithin, BringsOnce, BringsReach};

/// The same entries bring about one world.
pub fn entries_bring_once()
    ensures { BringsOnce }
{}

/// What some entries and then others bring about goes by the world between.
pub fn brings_in_parts()
    ensures parts { BringsByParts }
    ensures whole { BringsInParts }
{}

/// The world that entries bring about is one that requests reach. So it is sound where the one before is, and what its
/// sessions stored is within the formats.
pub fn entries_keep_worlds_fit()
    ensures reach { BringsReach }
    ensures within { BringsKeepWithin }
    ensures sound { BringsKeepSound }
{}
