//! Laws of the check. A law is the contract of an empty function.
ghost use Rattle.bw_check.specs.Laws.{OneList, AcceptedHasNone, HasNoneIsAccepted, OneReport};
ghost use Rattle.bw_check.specs.Within.Laws.{FactsAreOne, PagesAreGraphs, ReceivedHaveNumbers};

use bw_types::Typed;

/// A service has one list of faults by a schema, and it is accepted exactly where it keeps its limits and this list is
/// empty. So of the answers of `check`, want of memory aside, one alone can come.
pub fn one_answer(typed: &Typed)
    ensures one_list { OneList typed.now.service }
    ensures none { AcceptedHasNone typed.now.service }
    ensures accepted { HasNoneIsAccepted typed.now.service }
{}

/// The report of any number of workers is the report of one, since no clause of `check` speaks of their number: any two
/// of its answers are the same, want of memory aside, and the number of facts at which the analysis gave up.
pub fn one_report(typed: &Typed)
    ensures { OneReport typed.now.service }
{}

/// A service has one least solution, so its facts are one.
pub fn facts_are_one(typed: &Typed)
    ensures { FactsAreOne typed.now.service }
{}

/// The graph of each page begins as a wrapper, and names only templates of the service, the wrappers, and literals of the
/// service.
pub fn pages_are_graphs(typed: &Typed)
    ensures { PagesAreGraphs typed.now.service }
{}

/// Each field that a show receives has its number among the fields of the service.
pub fn received_have_numbers(typed: &Typed)
    ensures { ReceivedHaveNumbers typed.now.service }
{}
