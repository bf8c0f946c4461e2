//! What places are.
ghost use Rattle.bw_places.specs.Laws.{StatementsStand, DeclarationsStand};
ghost use Rattle.bw_places.specs.Parts.{StatementsAreParts};
ghost use Rattle.bw_places.specs.Tags.{TagsStand};

/// Of each statement of a service the place is found, and there stands that statement.
pub fn statements_stand()
    ensures { StatementsStand }
{}

/// And so of each declaration.
pub fn declarations_stand()
    ensures { DeclarationsStand }
{}

/// Where a template's inside reads as some items, its start tag of a number is that of the element of that number.
pub fn tags_stand()
    ensures { TagsStand }
{}

/// The points of a service other than joins are its statements, in source order.
pub fn statements_are_parts()
    ensures { StatementsAreParts }
{}
