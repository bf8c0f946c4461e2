//! Laws of runs. A law is the contract of an empty function.
ghost use Rattle.bw_run.specs.Follow.Kinds.{ValuesHaveKinds, TurnsKeepKinds, GoingOnKeepsKinds};
ghost use Rattle.bw_run.specs.Follow.Laws.{TurnsAgree, GoingOnAgrees, ShownIsFit, ShownAgainIsFit, TypedIsReady};

/// From a session's first point the flow gives the session's turn, and from behind a show what the session goes on with,
/// the units left included.
pub fn agrees()
    ensures turns { TurnsAgree }
    ensures going_on { GoingOnAgrees }
{}

/// Where a session waits, its frame is fit: it is at a show of the session, with the locals in scope there and a rest
/// for each foreach around it.
pub fn frames_fit()
    ensures turn { ShownIsFit }
    ensures again { ShownAgainIsFit }
{}

/// Each service that is well typed is ready to run.
pub fn typed_is_ready()
    ensures { TypedIsReady }
{}

/// The value of an expression is of the expression's kind. So in a service that is well typed each value that a turn stores
/// is of the kind of its variable.
pub fn kinds_are_kept()
    ensures values { ValuesHaveKinds }
    ensures turns { TurnsKeepKinds }
    ensures going_on { GoingOnKeepsKinds }
{}
