//! Laws of reading.
ghost use Rattle.bw_syntax.specs.Laws.{ReadsOnce, NotBoth, OneReason, ReadOrRefused};

/// The bytes of a file read as one service at most, or are refused for one reason at most, want of memory aside; the
/// place of a fault of syntax is left open.
pub fn one_answer()
    ensures once { ReadsOnce }
    ensures not_both { NotBoth }
    ensures reason { OneReason }
{}

/// Every file reads as a service, or is refused for a reason other than want of memory.
pub fn always_an_answer()
    ensures { ReadOrRefused }
{}
