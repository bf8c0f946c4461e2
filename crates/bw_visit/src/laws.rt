//! Laws of visits. A law is the contract of an empty function.
ghost use Rattle.bw_visit.specs.Laws.{LastPagesHaveNoForm, RefusedAlike, VisitsAreTaken};
ghost use Rattle.bw_visit.specs.Scripts.{ScriptsAreOne};

/// A session's last page has no form.
pub fn last_pages_have_no_form()
    ensures { LastPagesHaveNoForm }
{}

/// A form is refused at a show by the fields that the check has judged for it.
pub fn refused_alike()
    ensures { RefusedAlike }
{}

/// In an accepted service a scripted user is never told that a field is lacking or repeated, whatever it answers.
pub fn visits_are_taken()
    ensures { VisitsAreTaken }
{}

/// Bytes are one script at most.
pub fn one_script()
    ensures { ScriptsAreOne }
{}
