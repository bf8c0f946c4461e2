//! The law of journals that are read from where they begin. A law is the contract of an empty function.
ghost use Rattle.bw_recall.specs.Starting.{RecalledFrom};

/// What came of the entries behind a mark came of the journal, from the world that it begins at.
pub fn recalled_behind_heads()
    ensures { RecalledFrom }
{}
