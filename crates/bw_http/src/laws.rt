//! Laws of cuts. A law is the contract of an empty function.
ghost use Rattle.bw_http.specs.Laws.{OneMessage, OneRequest, RefusesExactly, RefusesLong, ReadsExactly, EndsExactly};
ghost use Rattle.bw_http.specs.Laws.{StaysRefused, StaysTooLong, StaysSettled, MemoryGoesOn, RequestsAreText, CutsAreText};

/// A stream has one first message at most, which sends one request, and what is due comes: a head that a test refuses
/// comes as that refusal, what passes a limit of heads as that or as no head, a whole message as its request or as want
/// of memory, an empty stream as its end. Only a failed read comes before.
pub fn cuts_exactly()
    ensures one { OneMessage }
    ensures request { OneRequest }
    ensures refused { RefusesExactly }
    ensures long { RefusesLong }
    ensures read { ReadsExactly }
    ensures end { EndsExactly }
{}

/// What is refused is refused whatever follows it.
pub fn refusals_stay()
    ensures refused { StaysRefused }
    ensures long { StaysTooLong }
{}

/// What lacks nothing lacks nothing whatever follows it.
pub fn settled_stays()
    ensures { StaysSettled }
{}

/// After want of memory the next call reads the next message.
pub fn memory_goes_on()
    ensures { MemoryGoesOn }
{}

/// The form of a request that a stream is cut into is UTF-8, whatever the bytes of the stream.
pub fn forms_are_text()
    ensures requests { RequestsAreText }
    ensures cuts { CutsAreText }
{}
