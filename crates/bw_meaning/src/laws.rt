//! Laws of the meaning. A law is the contract of an empty function.
ghost use Rattle.bw_meaning.specs.NameLaws.{
  OrdersAgree,
  OrdersWeighTheSame,
  ExpressionsSeeNames,
  StoringIsOfOneName,
  DeclaringAddsOneName,
  LeavingTakesNames,
  BlocksLeave,
  AnsweredBlocksLeave,
};
ghost use Rattle.bw_meaning.specs.Orders.{OrdersAreReordered, StatementsSeeNoOrder, TurnsSeeNoOrder, GoingOnSeesNoOrder};
ghost use Rattle.bw_meaning.specs.Laws.{TurnGoesOn, GoingOnGoesOn, TurnCosts, GoingOnCosts, LoopsAgain};

/// A turn over one more input is what stands behind the show at which the session waited, with that input alone, its
/// cost included. The same holds for a session that itself goes on from a show.
pub fn goes_on()
    ensures turn { TurnGoesOn }
    ensures again { GoingOnGoesOn }
{}

/// A turn costs at most its budget: its cost and the units left are together 100,000.
pub fn costs_within()
    ensures turn { TurnCosts }
    ensures going_on { GoingOnCosts }
{}

/// A loop tests, and goes on with its body and then itself, or with what follows.
pub fn loops_again()
    ensures { LoopsAgain }
{}

/// Locals and shared variables are maps from names to values: where no name is declared twice, their order doesn't
/// matter, neither to an expression nor to a weight. And what is done to them is done to names.
pub fn names_are_maps()
    ensures orders { OrdersAgree }
    ensures weights { OrdersWeighTheSame }
    ensures expressions { ExpressionsSeeNames }
    ensures storing { StoringIsOfOneName }
    ensures declaring { DeclaringAddsOneName }
    ensures leaving { LeavingTakesNames }
{}

/// In which order names stand doesn't matter: statements, a session's turn and a session that goes on do the same over
/// locals, shared variables and inputs that differ by the order of different names alone. Where no name stands twice
/// that is any other order.
pub fn no_order_is_seen()
    ensures orders { OrdersAreReordered }
    ensures statements { StatementsSeeNoOrder }
    ensures turn { TurnsSeeNoOrder }
    ensures going_on { GoingOnSeesNoOrder }
{}

/// The locals that a block declares are gone behind it, also where a session goes on from a show in the block.
pub fn blocks_leave()
    ensures block { BlocksLeave }
    ensures answered { AnsweredBlocksLeave }
{}
