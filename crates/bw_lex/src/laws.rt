//! Laws of tokens. A law is the contract of an empty function.
ghost use Rattle.bw_lex.specs.Laws.{IsCutOnce, IsReadExactly, IsRefusedExactly, IsReadOrRefused};

/// A text has one list of tokens or one first fault, and is read as that.
pub fn reads_exactly()
    ensures once { IsCutOnce }
    ensures tokens { IsReadExactly }
    ensures faults { IsRefusedExactly }
    ensures either { IsReadOrRefused }
{}
