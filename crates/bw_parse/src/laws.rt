//! Laws of parsing. A law is the contract of an empty function.
ghost use Rattle.bw_parse.specs.Laws.{OneSpelling, SpelledOrNot};

/// No two services that are formed are written with the same lexemes.
pub fn one_spelling()
    ensures { OneSpelling }
{}

/// Lexemes are those of a service, or of none.
pub fn spelled_or_not()
    ensures { SpelledOrNot }
{}
