//! Laws of journals, of links that are served and of streams that are answered beside one. A law is the contract of an empty function.
ghost use Rattle.bw_survival.specs.Laws.{AnsweredBring, AnsweredFit, KeptInParts, PiecesAreGroups};
ghost use Rattle.bw_survival.specs.Restarts.{CutsLeaveEntries, HeadsAreBegun, RestartsGoOn};
ghost use Rattle.bw_survival.specs.Rotating.{BringsBackOnce, RotationsGoOn};
ghost use Rattle.bw_survival.specs.StreamLaws.{HandledBring, HandledFit, KeptFirstInParts, StreamsSurvive};
ghost use Rattle.bw_survival.specs.Surviving.{LinksSurvive};

/// Whenever a crash comes in the course of the groups that are kept, and whatever it leaves: behind the head it is a
/// journal, of the entries before, of all groups that were kept whole, and of the first entries of at most one group more.
/// From the world that these bring about, the others bring about what they did.
pub fn restarts_go_on()
    ensures { RestartsGoOn }
{}

/// What a crash leaves before a group is kept: while less than an entry is cut off behind a journal, the entries; and while
/// the head is written, a first part of it.
pub fn openings_go_on()
    ensures cuts { CutsLeaveEntries }
    ensures heads { HeadsAreBegun }
{}

/// Where a journal is begun anew, as often as may be, at saved worlds that are loaded as those that were reached: whenever a
/// crash comes, and whatever it leaves, the file brings back the world of all groups that were kept whole, and of the first entries
/// of at most one group more. From there the others go on to the world that all led to. And a file brings back one world.
pub fn rotations_go_on()
    ensures rotations { RotationsGoOn }
    ensures once { BringsBackOnce }
{}

/// What is kept of links that were answered one after another brings about the world that they left.
pub fn answered_bring()
    ensures bring { AnsweredBring }
    ensures fit { AnsweredFit }
{}

/// The pieces that were kept are groups of what is kept of links, one after another. Wherever they are parted, those before
/// kept what is kept of the first links, and those behind what is kept of the others.
pub fn pieces_are_groups()
    ensures groups { PiecesAreGroups }
    ensures parts { KeptInParts }
{}

/// Whenever a crash comes in the course of the pieces that are kept, and whatever it leaves: the file is a journal of what is
/// kept of the first links, all pieces that were kept whole among it, and of the first entries of at most one piece more. No
/// link was given back but these, and those of which nothing is kept. The world goes on from there as if there had been no crash.
pub fn links_survive()
    ensures { LinksSurvive }
{}

/// What is kept of messages of a stream that were handled one after another brings about the world that they left.
pub fn handled_bring()
    ensures bring { HandledBring }
    ensures fit { HandledFit }
{}

/// Whenever a crash comes in the course of a stream that is answered beside a journal, and whatever it leaves: the file is a journal
/// of what is kept of the first messages, all pieces that were kept whole among it, and of at most one piece more. No byte of a
/// reply was written but to these, and to those of which nothing is kept. The world goes on from there as if there had been no crash.
pub fn streams_survive()
    ensures parts { KeptFirstInParts }
    ensures survive { StreamsSurvive }
{}
