//! What places in templates are.
ghost use Rattle.bw_diagnose.specs.Gaps.{GapsAreFound};
ghost use Rattle.bw_diagnose.specs.Markup.{PiecesGoOn};

/// Where the inside of a template is pieces, no byte is shown at which they don't go on.
pub fn pieces_go_on()
    ensures { PiecesGoOn }
{}

/// Where it is pieces, the gaps that are found are theirs.
pub fn gaps_are_found()
    ensures { GapsAreFound }
{}
