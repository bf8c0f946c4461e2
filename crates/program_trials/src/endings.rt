//! How the program ends.
ghost use Rattle.std.specs.Prelude.{◌≡◌};
ghost use Rattle.bw_out.specs.Causes.{Shows};
ghost use Rattle.bigwig.specs.Lent.{ShowsJournal};

use bigwig::{Status, run};
use bw_lang::Words;
use bw_out::{Files, Keys, Pulse, Sink, Steps};
use bw_stable::{Journals, WideDoor};
use std::alloc::Global;
use std::sync::ledger::Ledger;
use std::thread::Threads;

/// `run`: which fault comes, and when.
pub fn ended<
    R: Threads + Sync,
    F: Files,
    J: Journals,
    D: WideDoor,
    K: Keys,
    W: Sink,
    P: Pulse,
    L: Ledger,
>(
    rt: &R,
    alloc: Global,
    words: &Words,
    files: &mut F,
    journals: &mut J,
    door: &mut D,
    keys: &mut K,
    out: &mut W,
    pulse: &P,
    steps: &mut Steps<L>,
) -> Status
    ensures read_fault { Shows (result ≡ Status.ReadFault) (F.faults files.old) (F.faults files.new) }
    ensures write_fault { Shows (result ≡ Status.WriteFault) (W.write_faults out.old) (W.write_faults out.new) }
    ensures door_fault { Shows (result ≡ Status.DoorFault) (D.faults door.old) (D.faults door.new) }
    ensures journal_fault { ShowsJournal result (J.faults journals.old) (J.faults journals.new) }
{
    run(
        rt, alloc, words, files, journals, door, keys, out, pulse, steps,
    )
}
