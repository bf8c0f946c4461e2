//! Laws of reading. A law is the contract of an empty function.
ghost use Rattle.bw_tmpl.specs.Laws.{OneSpelling, OneReading, OneTemplate, NotBoth, OneReason, ReadOrRefused};
ghost use Rattle.bw_tmpl.specs.Laws.{OneClosedTemplate, NotBothClosed, OneClosedReason, ClosedReadOrRefused, ClosedIsTemplate, ClosedHasNoGap};
ghost use Rattle.bw_tmpl.specs.Laws.{ItemsBounded, ReadsMarkup, PlugsMarkup, PlugsTextMarkup, ClosesMarkup, ReadsBack};

/// Bytes are one list of pieces at most, and by a table of names pieces read as one list of items at most.
pub fn unique()
    ensures pieces { OneSpelling }
    ensures items { OneReading }
{}

/// What reading a template answers is determined: by a table of names bytes are one template, and then there is no
/// reason to refuse them, or there is one reason, want of memory aside.
pub fn decided()
    ensures one { OneTemplate }
    ensures not_both { NotBoth }
    ensures reason { OneReason }
    ensures always { ReadOrRefused }
{}

/// What reading a template without gaps answers is determined.
pub fn closed_decided()
    ensures one { OneClosedTemplate }
    ensures not_both { NotBothClosed }
    ensures reason { OneClosedReason }
    ensures always { ClosedReadOrRefused }
{}

/// A template without gaps is a template, and its items have no open gap.
pub fn closed_is_template()
    ensures template { ClosedIsTemplate }
    ensures no_gap { ClosedHasNoGap }
{}

/// A template's items are bounded by its bytes: they weigh at most 65 for each byte.
pub fn items_bounded()
    ensures weight { ItemsBounded }
{}

/// What is read is markup, and filling gaps and closing keep it so.
pub fn markup_stays()
    ensures reads { ReadsMarkup }
    ensures plug { PlugsMarkup }
    ensures plug_text { PlugsTextMarkup }
    ensures close { ClosesMarkup }
{}

/// What is printed is read back.
pub fn reads_back()
    ensures { ReadsBack }
{}
