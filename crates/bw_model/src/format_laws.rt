//! Laws of steps with formats of fields. A law is the contract of an empty function.
ghost use Rattle.bw_model.specs.FormatLaws.{SomeStep, OneStep, WithoutFormats, StepsOrNothing, OthersChangeNothing, StepsAreShort, StepsKeepWorlds};
ghost use Rattle.bw_model.specs.FormatLaws.{EmptyIsWithin, StepsKeepWithin, StreamsKeepWithin, FormatsAreAnswered, SomeDecides};

/// A request comes to one thing with any formats, and without formats to the step.
pub fn one_step()
    ensures some { SomeStep }
    ensures one { OneStep }
    ensures none { WithoutFormats }
{}

/// With formats a request comes to the step, or to a reply that is no page and then changes nothing. So the laws of steps
/// hold.
pub fn steps_or_nothing()
    ensures cases { StepsOrNothing }
    ensures others { OthersChangeNothing }
    ensures short { StepsAreShort }
    ensures worlds { StepsKeepWorlds }
{}

/// Each value that an input stored for a field is in the field's format: in the empty world, behind each step and behind
/// the messages of a stream.
pub fn stored_are_within()
    ensures empty { EmptyIsWithin }
    ensures steps { StepsKeepWithin }
    ensures streams { StreamsKeepWithin }
{}

/// The step with formats is that of sessions that are answered with formats, so they are alone with formats too.
pub fn formats_are_answered()
    ensures answered { FormatsAreAnswered }
    ensures some { SomeDecides }
{}
