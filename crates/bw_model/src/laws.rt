//! Laws of the world. A law is the contract of an empty function.
ghost use Rattle.bw_model.specs.Laws.{OthersChangeNothing, StepsAreShort, EmptyIsWorld, StepsKeepWorlds, SessionsAreAlone, RepliesAreAnswers, RunsAgree};
ghost use Rattle.bw_model.specs.Reached.{ReachedOn, StreamsReach};

/// A request that is refused, spent or fails changes no session and no shared variable: each reply but a page leaves the
/// world as it was.
pub fn others_change_nothing()
    ensures { OthersChangeNothing }
{}

/// A request takes 100,000 units at most.
pub fn steps_are_short()
    ensures { StepsAreShort }
{}

/// In each world that requests reach, no two live sessions have one number, and at most 1,000 are live.
pub fn worlds_stay()
    ensures empty { EmptyIsWorld }
    ensures steps { StepsKeepWorlds }
{}

/// The messages of a stream reach no other worlds than requests with forms in UTF-8 do, and from a world that is reached on
/// the same are reached.
pub fn streams_reach()
    ensures streams { StreamsReach }
    ensures on { ReachedOn }
{}

/// Sessions don't meet: what a session is answered depends on its own submissions and on the shared variables at its own
/// requests alone, and the reply to a request that says something to it is that answer. So two sessions that have come to
/// the same are answered alike, but for numbers and keys, in any two runs that say the same to them.
pub fn sessions_are_alone()
    ensures own { SessionsAreAlone }
    ensures replies { RepliesAreAnswers }
    ensures alike { RunsAgree }
{}
