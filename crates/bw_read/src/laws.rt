//! Laws of pages that are read. A law is the contract of an empty function.
ghost use Rattle.bw_read.specs.Laws.{OnePage, PageOrNone, PagesAreMarkup, PagesHaveNoGap, PagesAreSmall, PagesAreJoined};
ghost use Rattle.bw_read.specs.Laws.{JoinsOnce, JoinsNoField, JoinsNoElement, ReadsBack, ShownReadsBack, LastReadsBack};
ghost use Rattle.bw_read.specs.Laws.{MadeIsMarkup, MadeShownReadsBack, MadeLastReadsBack};

/// Bytes are one page at most, and they are a page or none.
pub fn one_page()
    ensures one { OnePage }
    ensures always { PageOrNone }
{}

/// What is read as a page is markup without open gaps, with neighbouring texts joined and without empty ones, and small.
pub fn read_is_markup()
    ensures markup { PagesAreMarkup }
    ensures no_gap { PagesHaveNoGap }
    ensures joined { PagesAreJoined }
    ensures small { PagesAreSmall }
{}

/// Joining texts a second time changes nothing, and the fields and the elements of a document stay as they are.
pub fn joining_keeps()
    ensures once { JoinsOnce }
    ensures fields { JoinsNoField }
    ensures elements { JoinsNoElement }
{}

/// A page that is printed reads as it, with neighbouring texts joined and without empty ones: any closed markup that is
/// one element `html`, and the pages that a document which is markup is wrapped into.
pub fn read_back()
    ensures page { ReadsBack }
    ensures shown { ShownReadsBack }
    ensures last { LastReadsBack }
{}

/// The pages of a service read back: their documents are made by plugs from items that read, and they are within the
/// limits. So no string that is plugged in ever becomes markup.
pub fn print_reads()
    ensures markup { MadeIsMarkup }
    ensures shown { MadeShownReadsBack }
    ensures last { MadeLastReadsBack }
{}
