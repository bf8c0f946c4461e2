//! Laws of facts that solve the system of a service. A law is the contract of an empty function.
ghost use Rattle.bw_cover.specs.Sound.{TurnIsCovered, GoingOnIsCovered, TurnPlugsAreOpen, GoingOnPlugsAreOpen};
ghost use Rattle.bw_cover.specs.Worlds.{EmptyIsCovered, StepsKeepCovering, NextIsCovered, WorldsAreCovered};
ghost use Rattle.bw_cover.specs.EdgeLaws.{EdgesAreLeads, EdgesAreNexts};
ghost use Rattle.bw_cover.specs.Least.{LeastObeys};
ghost use Rattle.bw_cover.specs.Kinds.{CheckedIsAccepted, PlacesFit, TypedLiterals};
ghost use Rattle.bw_cover.specs.LeastKinds.{SolvedIsAccepted, SolvedWorldsAreCovered};
ghost use Rattle.bw_cover.specs.FlowKinds.{SolvedPlacesAreAccepted};
ghost use Rattle.bw_cover.specs.FlowWorlds.{FlowEmptyIsCovered, FlowStepsKeepCovering, FlowWorldsAreCovered};
ghost use Rattle.bw_cover.specs.Received.{ShowsReceive};
ghost use Rattle.bw_cover.specs.Flows.{FlowFirstIsCovered, FlowTurnIsCovered, FlowGoingOnIsCovered, FlowLeastObeys};
ghost use Rattle.bw_cover.specs.Examples.{PlugExamples, RowsAreAccepted};
ghost use Rattle.bw_cover.specs.Trees.{AnsweredIsAccepted, AnsweredWorldsAreCovered};

/// Where no plug's base may lack its gap, a turn from covered shared variables gives covered locals, documents and
/// shared variables. So does going on from a show with covered locals.
pub fn turns_are_covered()
    ensures turn { TurnIsCovered }
    ensures going_on { GoingOnIsCovered }
{}

/// And each plug that such a turn makes has an open gap of its name.
pub fn plugs_are_open()
    ensures turn { TurnPlugsAreOpen }
    ensures going_on { GoingOnPlugsAreOpen }
{}

/// So every world that requests reach from a covered one is covered, whichever sessions they interleave, and so is whatever
/// comes next: each step keeps it, and from a covered world each session comes to what is covered, by open plugs. The empty
/// world is covered, with any next number and number of a first turn.
pub fn worlds_are_covered()
    ensures empty { EmptyIsCovered }
    ensures steps { StepsKeepCovering }
    ensures next { NextIsCovered }
    ensures reached { WorldsAreCovered }
{}

/// The edges over which the analysis goes are read from the statements. They lead from each point to those that the flow
/// says, and nowhere else.
pub fn edges_are_leads()
    ensures tree { EdgesAreLeads }
    ensures flow { EdgesAreNexts }
{}

/// The union of all rounds from empty cells obeys where each point leads, and the literals of the shared variables.
pub fn least_obeys()
    ensures { LeastObeys }
{}

/// The least cells of a typed service are accepted, where they have the kinds of their variables and no plug's base may
/// lack its gap. At a place of a flow too, typed expressions have what is known by their kinds. The least cells have the
/// kinds of their variables where the empty cells have them; so the least cells of a typed service cover its empty world,
/// and every world that requests reach from a covered one.
pub fn checked_is_accepted()
    ensures accepted { CheckedIsAccepted }
    ensures places { PlacesFit }
    ensures solved { SolvedIsAccepted }
    ensures worlds { SolvedWorldsAreCovered }
{}

/// The same by the places of a flow that stands for the session, and by the places of the service's own flow for every
/// world that requests reach: in a typed service it is enough that what is known of variables is of their kinds, that no
/// plug's base may lack its gap, and that the facts obey where points lead. The least cells of a flow obey that.
pub fn flows_are_covered()
    ensures first { FlowFirstIsCovered }
    ensures turn { FlowTurnIsCovered }
    ensures going_on { FlowGoingOnIsCovered }
    ensures least { FlowLeastObeys }
    ensures empty { FlowEmptyIsCovered }
    ensures steps { FlowStepsKeepCovering }
    ensures worlds { FlowWorldsAreCovered }
    ensures accepted { SolvedPlacesAreAccepted }
{}

/// What a show of the flow receives is what its statement receives, as the meaning of the world has it.
pub fn shows_receive()
    ensures { ShowsReceive }
{}

/// Worked examples: which plugs are made, and facts that accept a service.
pub fn examples()
    ensures plugs { PlugExamples }
    ensures facts { RowsAreAccepted }
{}

/// In a typed service each literal has the kind of its variable.
pub fn services_give()
    ensures { TypedLiterals }
{}

/// So for the least cells of a service that was read and is typed, where no plug's base may lack its gap: the laws of
/// turns hold of it, with scopes and pages as its tree says, its empty world is covered, and so is every world that requests
/// reach from a covered one.
pub fn least_cells_cover()
    ensures accepted { AnsweredIsAccepted }
    ensures worlds { AnsweredWorldsAreCovered }
{}
