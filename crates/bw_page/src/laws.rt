//! Laws of pages. A law is the contract of an empty function.
ghost use Rattle.bw_page.specs.Laws.{ShowsAlike, ExitsAlike, ExitLength, ShowLength, TurnLength};

/// A page is the same whatever numbers the gaps of its wrapper have.
pub fn wraps_alike()
    ensures show { ShowsAlike }
    ensures exit { ExitsAlike }
{}

/// How many bytes a page has, where its title is a word: 54 and those of the title and of the document for a last page,
/// and for a shown page 137 and those of the title, of the target and of the document. With a target `/s/N-KEY/T` that
/// is 158 and those of the title, of N, of T and of the document.
pub fn page_lengths()
    ensures exit { ExitLength }
    ensures show { ShowLength }
    ensures turn { TurnLength }
{}
