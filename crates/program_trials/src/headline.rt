//! What the program has printed, answered and saved.
ghost use Rattle.std.specs.Prelude.{IfSome};
ghost use Rattle.bigwig.specs.Headline.{Headline};
ghost use Rattle.bigwig.specs.Works.{outside};

use bigwig::{Status, run};
use bw_lang::Words;
use bw_out::{Files, Keys, Pulse, Sink, Steps};
use bw_stable::{Journals, WideDoor};
use std::alloc::Global;
use std::sync::ledger::Ledger;
use std::thread::Threads;

/// `run`: what is printed, behind the words and the files.
pub fn headed<
    R: Threads + Sync,
    F: Files,
    J: Journals,
    D: WideDoor,
    K: Keys,
    W: Sink,
    P: Pulse,
    L: Ledger,
>(
    rt: &R,
    alloc: Global,
    words: &Words,
    files: &mut F,
    journals: &mut J,
    door: &mut D,
    keys: &mut K,
    out: &mut W,
    pulse: &P,
    steps: &mut Steps<L>,
) -> Status
    ensures headline { IfSome (F.told files.old) (λ disk. Headline words.now disk
        (outside (W.held out.old) (K.coming keys.old) (D.asked door.old) (D.coming door.old) (D.returned door.old) (F.unread files.old) steps.old (J.deeds journals.old))
        (outside (W.held out.new) (K.coming keys.new) (D.asked door.new) (D.coming door.new) (D.returned door.new) (F.unread files.new) steps.new (J.deeds journals.new)) result) }
{
    run(
        rt, alloc, words, files, journals, door, keys, out, pulse, steps,
    )
}
