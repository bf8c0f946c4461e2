//! Requests that are read from a stream, and the door that they come through.
ghost use Rattle.std.specs.Prelude.{◌≡◌, ◌≢◌, ◌<◌, ◌+◌, None, Some, Ok, IfOk, IfSome, IfNone, IsErrOf, OnOk, OnErr, OnSome};
ghost use Rattle.bw_door.specs.Ends.{IsHandedOut};
ghost use Rattle.bw_http.specs.Cuts.{Tells};
ghost use Rattle.bw_http.specs.Messages.{IsSettled, Lacks, ComesOf};
ghost use Rattle.bw_out.specs.Causes.{HasCause};
ghost use Rattle.bw_out.specs.Sends.{Takes};

use bw_door::{PortDoor, PortLink, Settles};
use bw_http::{Intake, Lack, ReadOutcome, Request, read_request};
use bw_out::{Door, Failed, Source};
use mio::net::TcpStream;
use std::alloc::Global;
use std::net::Net;
use std::sync::Wait;
use std::time::Clock;

/// What a message lacks: one that isn't whole, and a head of too many lines.
pub fn lack(bytes: &[u8]) -> Option<Lack>
    ensures settled { IfNone result (IsSettled bytes.now) }
    ensures lacks { IfSome result (Lacks bytes.now) }
{
    bw_http::lack(bytes)
}

/// The next request of a stream: one that is refused.
pub fn read<S: Source>(
    alloc: Global,
    intake: &mut Intake,
    source: &mut S,
) -> Result<Request, ReadOutcome>
    ensures taken { ComesOf (S.left source.old) (S.left source.new) intake.old result intake.new }
    ensures stream { Tells (S.left source.old) (S.left source.new) intake.old result intake.new }
    ensures takes { Takes S.Channel source.old source.new (IsErrOf result ReadOutcome.ReadFault) }
{
    read_request(alloc, intake, source)
}

/// The next link of a port: how often it is handed out.
pub fn next<R: Net + Clock + Wait + Copy, W: Settles>(
    door: &mut PortDoor<R, W>,
) -> Result<Option<PortLink<TcpStream>>, Failed>
    ensures cause { HasCause door.old.faults door.new.faults result }
    ensures link { IfOk result (λ next. IfSome next (IsHandedOut W.settled)) }
    ensures out { OnOk result (door.new.crowd.out ≡ door.old.crowd.out + 1) }
{
    door.next()
}
