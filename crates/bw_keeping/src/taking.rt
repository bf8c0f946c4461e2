//! A message is taken, handled and put into a group.
ghost use Rattle.std.specs.Prelude.{◌≡◌, ◌≤◌, ◌-◌, length, take};
ghost use Rattle.bw_http.specs.Replies.{IsReply};
ghost use Rattle.bw_model.specs.Laws.{is_page as is_page_of};
ghost use Rattle.bw_out.specs.Sends as sends;
ghost use Rattle.bw_world.specs.Handled.{Handles};
ghost use Rattle.bw_world.specs.Stands.{fields_of};
ghost use Rattle.bw_world.specs.Streams.Answers.{place};
ghost use Rattle.bw_world.specs.Streams.Good.{RepliesAreGood};
ghost use Rattle.bw_world.specs.Streams.Taking.{AreFit};
ghost use Rattle.bw_keeping.specs.Groups.{HasRoom, IsKept};
ghost use Rattle.bw_keeping.specs.Taking.{Leaves, Takes};

use crate::group::Group;
use crate::notes::{Notes, read_noted};
use bw_format::Formats;
use bw_http::{Intake, Reply, Request};
use bw_journal::MAX_MESSAGE_BYTES;
use bw_out::{Keys, Sink, Source, Steps};
use bw_world::{Taken, World, guarded, without_request};
use std::alloc::Global;
use std::sync::ledger::Ledger;

/// Whether a reply is a page.
fn is_page(reply: &Reply) -> bool
    ensures { result ≡ is_page_of reply.now }
{
    matches!(reply, Reply::Page(_) | Reply::Final(_))
}

/// The first bytes, as many as there are more than so many behind them.
fn front_of(bytes: &[u8], behind: usize) -> &[u8]
    ensures { result.now ≡ take (length bytes.now - behind) bytes.now }
{
    &bytes[..bytes.len().saturating_sub(behind)]
}

/// Handles a request with a key. Where its reply is a page, its entry is put behind the others of the group.
fn handle_kept<L: Ledger>(
    alloc: Global,
    world: &mut World,
    formats: &Formats,
    request: &Request,
    key: u64,
    message: &[u8],
    steps: &mut Steps<L>,
    group: &mut Group,
) -> Reply
    requires room { HasRoom group.old }
    requires short { length message.now ≤ MAX_MESSAGE_BYTES }
    ensures step { Handles formats.now world.old world.new request.now key result steps.old steps.new }
    ensures kept { IsKept group.old group.new key message.now result }
    ensures reply { IsReply (fields_of world.old.service) result }
    ensures service { world.new.service ≡ world.old.service }
{
    let reply = guarded(alloc, world, formats, request, key, steps);
    if is_page(&reply) {
        group.enter(key, message);
    }
    reply
}

/// Takes the next message of the link and handles it with the next key. Where its reply is a page, its
/// entry is put behind the others of the group. Nothing is written.
///
/// Where the message couldn't be noted, no key is drawn and the reply is `Memory`.
pub fn take_kept<C: Source + Sink, K: Keys, L: Ledger>(
    alloc: Global,
    world: &mut World,
    formats: &Formats,
    intake: &mut Intake,
    notes: &mut Notes,
    link: &mut C,
    keys: &mut K,
    steps: &mut Steps<L>,
    group: &mut Group,
) -> Taken
    requires room { HasRoom group.old }
    ensures takes { Takes formats.now world.old.service (place C.Channel world.old intake.old link.old (K.coming keys.old) steps.old)
        (place C.Channel world.new intake.new link.new (K.coming keys.new) steps.new) group.old group.new result }
    ensures fit { AreFit world.old.service result }
    ensures others { Leaves group.old group.new result }
    ensures reads { sends.Takes C.Channel link.old link.new (result ≡ Taken.ReadFault) }
    ensures service { world.new.service ≡ world.old.service }
    ensures pages { RepliesAreGood formats.now world.old.service (place C.Channel world.old intake.old link.old (K.coming keys.old) steps.old) }
{
    let (outcome, lost) = read_noted(alloc, intake, notes, link);
    match outcome {
        Ok(request) => {
            if lost {
                return Taken::Answered(Reply::Memory);
            }
            let message = front_of(notes.bytes(), intake.bytes().len());
            let key = keys.draw();
            Taken::Answered(handle_kept(
                alloc, world, formats, &request, key, message, steps, group,
            ))
        }
        Err(outcome) => without_request(outcome),
    }
}
