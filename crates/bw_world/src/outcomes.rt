//! What comes of reading a message.
ghost use Rattle.std.specs.Prelude.{◌≡◌, ◌≤◌};
ghost use Rattle.bw_model.specs.Runs.{want};
ghost use Rattle.bw_world.specs.Streams.Taking as spec;

use bw_http::{ReadOutcome, Reply};

/// What came of reading one message.
#[derive(Drop)]
pub enum Taken {
    /// The stream has ended.
    End,
    /// A read failed.
    ReadFault,
    /// It is no request.
    Refused(Reply),
    /// It was handled.
    Answered(Reply),
}

/// What came of one message.
#[derive(Clone, Copy)]
pub(crate) enum Next {
    /// It was answered, and the stream may go on. 1 where the reply is that there was no memory.
    Answered(u32),
    /// The stream is over.
    Ended,
    ReadFault,
    WriteFault,
}

/// What comes of an outcome that is no request.
pub fn without_request(outcome: ReadOutcome) -> Taken
    ensures { result ≡ spec.without_request outcome }
{
    match outcome {
        ReadOutcome::End => Taken::End,
        ReadOutcome::BadHead
        | ReadOutcome::Truncated
        | ReadOutcome::NoHost
        | ReadOutcome::BadLength => Taken::Refused(Reply::Bad),
        ReadOutcome::HeadTooLong => Taken::Refused(Reply::HeadTooLong),
        ReadOutcome::Coding | ReadOutcome::LengthRequired => Taken::Refused(Reply::LengthRequired),
        ReadOutcome::BodyTooLong => Taken::Refused(Reply::BodyTooLong),
        ReadOutcome::Media => Taken::Refused(Reply::Media),
        ReadOutcome::ReadFault => Taken::ReadFault,
        ReadOutcome::Memory => Taken::Answered(Reply::Memory),
    }
}

/// 1 for the reply that there was no memory.
pub fn want_of(reply: &Reply) -> u32
    ensures value { result ≡ want reply.now }
    ensures few { result ≤ 1 }
{
    match reply {
        Reply::Memory => 1,
        _ => 0,
    }
}
