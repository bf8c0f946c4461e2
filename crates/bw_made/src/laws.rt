//! Laws of documents that are made. A law is the contract of an empty function.
ghost use Rattle.bw_made.specs.Laws.{FirstAreMade, GoingOnIsMade, StatementsMake, TurnsAreMade, ValuesAreMade};
ghost use Rattle.bw_made.specs.Pages.{LastPagesReadBack, PagesAreShown, ShownPagesReadBack, WaitingIsMade};
ghost use Rattle.bw_made.specs.Worlds.{EmptyIsMade, NextAreMade, ResultsAreMade, StepsKeepMade, WorldsAreMade};

/// The values of expressions, what statements, turns and sessions that go on come to, and what shared variables begin
/// with: documents are made of the service's templates and of strings in UTF-8, and strings are UTF-8.
pub fn values_are_made()
    ensures values { ValuesAreMade }
    ensures statements { StatementsMake }
    ensures first { FirstAreMade }
    ensures turns { TurnsAreMade }
    ensures going_on { GoingOnIsMade }
{}

/// So is what a session comes to, the empty world, and each world that requests reach from one such.
pub fn worlds_are_made()
    ensures results { ResultsAreMade }
    ensures empty { EmptyIsMade }
    ensures steps { StepsKeepMade }
    ensures reached { WorldsAreMade }
    ensures next { NextAreMade }
{}

/// The pages of such documents, whatever the numbers and the key in their targets, read as the pages that they were
/// printed from, with their texts joined. A session of such a world waits with such a document.
pub fn pages_read_back()
    ensures documents { PagesAreShown }
    ensures shown { ShownPagesReadBack }
    ensures last { LastPagesReadBack }
    ensures waits { WaitingIsMade }
{}
