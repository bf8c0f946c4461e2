//! A worked example of requests, which the check computes.
ghost use Rattle.bw_model.specs.Examples.{StartExamples, TurnExamples};

/// What requests come to, one for each way in which they are answered.
pub fn requests()
    ensures starts { StartExamples }
    ensures turns { TurnExamples }
{}
