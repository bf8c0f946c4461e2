//! Laws of runs. A law is the contract of an empty function.
ghost use Rattle.bw_world.specs.Streams.Laws.{RunsGoOn, AnswersOnce, CoursesKeepWithin};

/// Runs go on: messages, and then a run over what follows them, are one run.
pub fn runs_go_on()
    ensures { RunsGoOn }
{}

/// A stream is answered in one way, want of memory aside: in any two runs the same messages are handled by the same
/// replies.
pub fn one_answer()
    ensures { AnswersOnce }
{}

/// Each value that an input stored for a field is in the field's format, in every world that a stream leads to.
pub fn courses_keep_within()
    ensures { CoursesKeepWithin }
{}
