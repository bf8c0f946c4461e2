//! A new file in a journal's place.
ghost use Rattle.std.specs.Prelude.{OnOk, OnErr};
ghost use Rattle.bw_out.specs.Causes.{HasCause};
ghost use Rattle.bw_stable.specs.Deeds.{DoesAll, DoesFirst};
ghost use Rattle.bw_stable.specs.Replacing.{replacing};

use crate::outside::Journal;
use bw_out::Failed;

/// Puts a new file of these bytes in the journal's place, and returns once it is there on the disk. Whenever a crash comes, the
/// whole old file is found or the whole new one.
///
/// `Failed` comes only where the count of the journal rose. Either may then be there, and the journal is not used again.
pub fn replace<J: Journal>(journal: &mut J, bytes: &[u8]) -> Result<(), Failed>
    requires { J.is_sound journal.old }
    ensures done { OnOk result (DoesAll (J.deeds journal.old) (J.deeds journal.new) (replacing bytes.now)) }
    ensures begun { OnErr result (DoesFirst (J.deeds journal.old) (J.deeds journal.new) (replacing bytes.now)) }
    ensures sound { OnOk result (J.is_sound journal.new) }
    ensures cause { HasCause (J.faults journal.old) (J.faults journal.new) result }
{
    journal.write_beside(bytes)?;
    journal.settle_beside()?;
    journal.take_name()?;
    journal.settle_names()
}
