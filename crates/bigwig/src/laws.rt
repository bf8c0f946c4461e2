//! Laws of outcomes.
ghost use Rattle.bigwig.specs.Laws.{SomeStatusIsDue, OneStatusIsDue, ComesWhereDue, DoesItsWork, DoorFaultsServe, JournalsAreKept};
ghost use Rattle.bigwig.specs.Laws.{SavesAreRefused, ScriptsAreRefused, CheckIsDone, ValidIsDone};
ghost use Rattle.bigwig.specs.Laws.{BuiltInReads, BuiltInIsMeant, BuiltInIsNotRefused};

/// By all words and files some status is due, where the check has a verdict on the service that they lead to, if any, and, where
/// that is asked for, its faults have explanations; and one status only; the program ends with it, counted faults, want of
/// memory and answers without a control aside. Where every question goes well, the work is done. The door's fault comes only where a service is
/// served; a journal is refused or fails only where a service is served, or requests are answered, beside one; that what waits
/// is too much comes only where it is to be saved; and a script is refused only where it is none or an answer in it has no
/// control. `check` is done exactly where the service and the schema read and the service is accepted, `valid` exactly where
/// the page and the schema read and the page is valid.
pub fn one_outcome()
    ensures some { SomeStatusIsDue }
    ensures one { OneStatusIsDue }
    ensures comes { ComesWhereDue }
    ensures complete { DoesItsWork }
    ensures door_fault { DoorFaultsServe }
    ensures journal { JournalsAreKept }
    ensures save { SavesAreRefused }
    ensures script { ScriptsAreRefused }
    ensures check { CheckIsDone }
    ensures valid { ValidIsDone }
{}

/// The text of the built-in schema reads as its rules. Where no schema is named, these are meant, and none is refused.
pub fn built_in_is_read()
    ensures reads { BuiltInReads }
    ensures meant { BuiltInIsMeant }
    ensures never { BuiltInIsNotRefused }
{}
