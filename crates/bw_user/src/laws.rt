//! Laws of what a scripted user sends. A law is the contract of an empty function.
ghost use Rattle.bw_user.specs.Laws.{AnswersAreText, BodiesReadBack, FilledMissesNone, GetsAreRead, PagesAreBodies, PostsAreRead};

/// What is sent is read as the request that it is: a GET of a session's start, and a POST of a form to a turn.
pub fn messages_are_read()
    ensures get { GetsAreRead }
    ensures post { PostsAreRead }
{}

/// The body that sends names and values in UTF-8 is read as them, and what is read from any body has values in UTF-8.
pub fn bodies_read_back()
    ensures back { BodiesReadBack }
    ensures text { AnswersAreText }
{}

/// The page of a reply is found in its bytes.
pub fn pages_are_bodies()
    ensures { PagesAreBodies }
{}

/// A form that was filled in on a page lacks no field that the page's show receives, and has none twice that is due once.
pub fn filled_misses_none()
    ensures { FilledMissesNone }
{}
