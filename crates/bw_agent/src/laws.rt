//! Laws of forms that are filled in. A law is the contract of an empty function.
ghost use Rattle.bw_agent.specs.Laws.{ControlsAreFields, SingleIsSent, ChoiceIsSent};
ghost use Rattle.bw_agent.specs.Laws.{JoiningSendsTheSame, ShownPagesHaveForms, ReadPagesHaveForms, MarkupSendsText, FormsAreMarkup};

/// The controls that are listed are those that the fields of a document are of. Whatever is answered, a field that takes
/// one value is sent: once for each of its controls, or once where one of several is chosen.
pub fn fields_are_sent()
    ensures controls { ControlsAreFields }
    ensures single { SingleIsSent }
    ensures choice { ChoiceIsSent }
{}

/// A page and what it reads back as are filled in alike. A shown page has a form that leads to its target and has all fields
/// of the page, and so has what it reads back as.
pub fn pages_have_forms()
    ensures joined { JoiningSendsTheSame }
    ensures shown { ShownPagesHaveForms }
    ensures read { ReadPagesHaveForms }
{}

/// What is sent by markup is UTF-8 where the answers are, and a form in markup is markup.
pub fn markup_sends_text()
    ensures sent { MarkupSendsText }
    ensures forms { FormsAreMarkup }
{}
