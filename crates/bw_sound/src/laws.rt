//! The check is sound. A law is the contract of an empty function.
ghost use Rattle.bw_sound.specs.Good.{PagesAreGood, RunsAreGood};
ghost use Rattle.bw_sound.specs.Worlds.{EmptyIsSound, StepsKeepSound, WorldsAreSound};
ghost use Rattle.bw_sound.specs.Found.Laws.{LeastCellsAreLeast, FactsSayAnswers, NoneIsListed, FactsSolve, FactsAreAccepted, FactsCoverWorlds};

/// In a service that is accepted the empty world is sound, and so is every world that requests reach from a sound one: what
/// it holds is covered by the facts of the check, and its documents are made of the service's templates.
pub fn worlds_are_sound()
    ensures empty { EmptyIsSound }
    ensures steps { StepsKeepSound }
    ensures reached { WorldsAreSound }
{}

/// Whatever requests a service that is accepted was sent, from a sound world on, in whatever order and of whichever
/// sessions: the page that the next request is answered is valid by the schema, a shown page has each field that its show
/// receives, and the bytes that are sent read as exactly one page, which is this one with its texts joined, and valid.
pub fn pages_are_good()
    ensures next { PagesAreGood }
    ensures runs { RunsAreGood }
{}

/// The least solution, seen by its members, is the union of all rounds over the edges of the flow.
pub fn least_cells_are_least()
    ensures { LeastCellsAreLeast }
{}

/// Seen by their members, the facts say what their calls answer: of each local in scope at a point, of each shared variable,
/// and of the page of each show and exit.
pub fn facts_say_answers()
    ensures { FactsSayAnswers }
{}

/// The facts of a typed service of which no plug may miss its gap, as where `gap_faults` lists none, solve the system of the
/// laws of covering, and are accepted by them. So the facts cover the empty world, and every world that requests reach from
/// one that they cover, whichever sessions these interleave, and whatever comes next.
pub fn facts_cover()
    ensures gaps { NoneIsListed }
    ensures solved { FactsSolve }
    ensures accepted { FactsAreAccepted }
    ensures worlds { FactsCoverWorlds }
{}
