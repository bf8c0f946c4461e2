//! Laws of files that are replaced. A law is the contract of an empty function.
ghost use Rattle.bw_stable.specs.Replacing.{ReplacesAll, ReplacesBetween, ReplacesWhole};

/// Where a new file comes into a journal's place, a crash leaves the whole old file or the whole new one. What is done to the
/// journal before and behind it is left as if there were nothing else.
pub fn files_are_replaced_whole()
    ensures all { ReplacesAll }
    ensures whole { ReplacesWhole }
    ensures between { ReplacesBetween }
{}
