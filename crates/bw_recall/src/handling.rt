//! The request of one entry.
ghost use Rattle.std.specs.Prelude.{◌≡◌, ◌≢◌, ◌≤◌, ◌++◌, ◌↔◌, [], IsTrue};
ghost use Rattle.bw_recall.specs.Recalling.{IsHandledOne, IsOne, IsWhole};

use bw_format::Formats;
use bw_http::{Intake, ReadOutcome, Reply, Request, read_request};
use bw_journal::MAX_MESSAGE_BYTES;
use bw_out::{MemSource, Steps};
use bw_world::{World, guarded};
use std::alloc::Global;
use std::sync::ledger::Ledger;

/// What came of the request of one entry.
#[derive(Clone, Copy)]
pub(crate) enum One {
    /// It was handled.
    Done,
    /// There is none.
    NoRequest,
    /// There was no memory for it.
    Memory,
}

/// Whether nothing is left.
fn is_all(intake: &Intake, source: &MemSource<'_>) -> bool
    ensures { IsTrue result ↔ (intake.now ++ source.now.left ≡ []) }
{
    intake.bytes().is_empty() && source.left().is_empty()
}

/// Why there is no request.
fn without_request(outcome: ReadOutcome) -> One
    ensures none { result ≡ One.NoRequest → (outcome ≢ ReadOutcome.Memory) × (outcome ≢ ReadOutcome.ReadFault) }
    ensures not_done { result ≢ One.Done }
{
    match outcome {
        ReadOutcome::Memory | ReadOutcome::ReadFault => One::Memory,
        ReadOutcome::End
        | ReadOutcome::BadHead
        | ReadOutcome::Truncated
        | ReadOutcome::HeadTooLong
        | ReadOutcome::NoHost
        | ReadOutcome::Coding
        | ReadOutcome::BadLength
        | ReadOutcome::LengthRequired
        | ReadOutcome::BodyTooLong
        | ReadOutcome::Media => One::NoRequest,
    }
}

/// The request that the bytes send, all of them.
fn read_whole(alloc: Global, intake: &mut Intake, message: &[u8]) -> Result<Request, One>
    ensures { IsWhole message.now result }
{
    intake.clear();
    let mut source = MemSource::new(message, MAX_MESSAGE_BYTES, &[]);
    match read_request(alloc, intake, &mut source) {
        Ok(request) => {
            if is_all(intake, &source) {
                Ok(request)
            } else {
                Err(One::NoRequest)
            }
        }
        Err(outcome) => Err(without_request(outcome)),
    }
}

/// Whether the reply says that there was no memory.
fn is_want(reply: &Reply) -> bool
    ensures { IsTrue result ↔ (reply.now ≡ Reply.Memory) }
{
    matches!(reply, Reply::Memory)
}

/// Handles a request, and sends its reply nowhere.
fn handle_request<L: Ledger>(
    alloc: Global,
    world: &mut World,
    formats: &Formats,
    request: &Request,
    key: u64,
    steps: &mut Steps<L>,
) -> One
    ensures handled { IsHandledOne formats.now world.old world.new request.now key result }
    ensures service { world.new.service ≡ world.old.service }
    ensures steps { steps.old ≤ steps.new }
{
    let reply = guarded(alloc, world, formats, request, key, steps);
    if is_want(&reply) {
        One::Memory
    } else {
        One::Done
    }
}

/// Handles the request that the message of an entry sends, with its key, and sends its reply nowhere.
pub(crate) fn handle_entry<L: Ledger>(
    alloc: Global,
    world: &mut World,
    formats: &Formats,
    intake: &mut Intake,
    key: u64,
    message: &[u8],
    steps: &mut Steps<L>,
) -> One
    ensures handled { IsOne formats.now world.old world.new key message.now result }
    ensures service { world.new.service ≡ world.old.service }
    ensures steps { steps.old ≤ steps.new }
{
    match read_whole(alloc, intake, message) {
        Ok(request) => handle_request(alloc, world, formats, &request, key, steps),
        Err(one) => one,
    }
}
