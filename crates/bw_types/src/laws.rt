//! Laws of names and kinds. A law is the contract of an empty function.
ghost use Rattle.bw_types.specs.Laws.{WellTypedIsTyped, TypedIsWellTyped, LocalsDiffer, AnswersOne, NotBoth};

/// A service in which no test fails is typed: its names differ, each gap and each field has one kind, its templates have
/// no element and no control that they may not have, and its shared variables and its sessions are typed. And in a
/// service that is typed no test fails.
pub fn well_typed()
    ensures typed { WellTypedIsTyped }
    ensures back { TypedIsWellTyped }
{}

/// The locals of one session have names that differ from each other and from those of the service's declarations.
pub fn locals_differ()
    ensures { LocalsDiffer }
{}

/// A service is well typed or has a first fault, and not both: so `resolve` answers one thing, but for want of memory.
pub fn one_answer()
    ensures some { AnswersOne }
    ensures one { NotBoth }
{}
