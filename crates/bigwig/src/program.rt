//! All that the program does.
ghost use Rattle.std.specs.Prelude.{◌≡◌, ◌⊎◌, None, IfSome};
ghost use Rattle.bw_out.specs.Causes.{Shows};
ghost use Rattle.bw_out.specs.Told.{AreWords};
ghost use Rattle.bigwig.specs.Asked.{asked};
ghost use Rattle.bw_command.specs.Commands.{command_of};
ghost use Rattle.bigwig.specs.Headline.{Headline};
ghost use Rattle.bigwig.specs.Lent.{AreSame, HasCauses, ShowsJournal, faults_of, seen_of};
ghost use Rattle.bigwig.specs.Outcomes.{Comes};
ghost use Rattle.bigwig.specs.Works.{outside};

use crate::lent::Lent;
use crate::obeying::obey;
use bw_command::{WordsFault, read_words};
use bw_lang::Words;
use bw_out::{Files, Keys, Pulse, Sink, Steps};
use bw_questions::{Status, Tools, print_line};
use bw_stable::{Journals, WideDoor};
use std::alloc::Global;
use std::sync::ledger::Ledger;
use std::thread::Threads;

/// The line that is printed where the words are refused.
const USAGE: &[u8] =
    b"usage: bigwig check SERVICE | replay SERVICE REQUESTS | serve SERVICE | valid PAGE | make N | light FORMATS TEXTS | freeze SERVICE REQUESTS | visit SERVICE SCRIPT";

/// Does all that the program does: reads the words of the command line and the files that they name, prints on `out`,
/// and serves the links of `door`. Memory is taken from `alloc`; the check makes its threads by `rt`, and tells `pulse` as it
/// begins a piece.
///
/// Where the files tell what they have, what is printed, drawn, given back and spent is what comes of the questions that
/// the words ask of the files (`asked`): what is said is printed with its status, or the work is done. The work of
/// `replay` is one run of the meaning's world over the stream: the bytes answered are those of the service's meaning of
/// each session's own submissions, and of the shared variables in request order. Every page among them is valid by the
/// schema, and a shown page has each field that its show receives. A request that is refused, spent or fails changes no
/// session and no shared variable. Each value that a session stored for a field is in the field's format, if it has one.
/// The work of `serve` is the same over one world, with one request on each link: each link that comes is given back in its
/// turn, after a fault too, and holds what the run answers. `light` prints the lights of the lines of its texts. The work of
/// `visit` is that of one client: it asks for a session's start, and fills in each page that comes by the next line of its
/// script; the replies are printed, and none says that a field is lacking or repeated.
///
/// `replay`, `serve` and `freeze` go on from saved sessions where these are named: whatever the bytes were, what is loaded is
/// covered by what the check knows of the service, and so all of this holds from there on; other files are refused
/// (`LoadRefused`). `freeze` answers requests as `replay` does, lets the replies go, and prints the file of what then waits:
/// where that is loaded, the same sessions wait again. Where it is too much (`SaveRefused`), or a request wanted memory, no file
/// is printed.
///
/// With a journal, of `journals`, it is over the world that the requests bring about which the journal holds, and each link is
/// given back, and a byte is written on it, only behind what is kept of its request; so is each reply of `replay` printed. A journal
/// that is damaged, of another version or of another service is refused (`JournalRefused`), and nothing is done to it.
///
/// `Usage` comes only where the words are refused, and `ReadFault`, `WriteFault` and `DoorFault` exactly where the count
/// of `files`, `out` or `door` rose in this call; a fault on a link is none of these and ends that link alone. `JournalFault`
/// comes only where the count of `journals` rose, and then no further reply is written or printed. After a
/// `ReadFault` or a `WriteFault` of `replay` each request before the fault was answered whole. `Memory` comes, with
/// nothing printed and no link taken, only before the first request; in `freeze` also where a request wanted memory, or what
/// then waits couldn't be made a file; in `visit` also behind the replies to some first requests.
pub fn run<
    R: Threads + Sync,
    F: Files,
    J: Journals,
    D: WideDoor,
    K: Keys,
    W: Sink,
    P: Pulse,
    L: Ledger,
>(
    rt: &R,
    alloc: Global,
    words: &Words,
    files: &mut F,
    journals: &mut J,
    door: &mut D,
    keys: &mut K,
    out: &mut W,
    pulse: &P,
    steps: &mut Steps<L>,
) -> Status
    ensures comes { IfSome (F.told files.old) (λ disk. Comes (asked words.now disk)
        (outside (W.held out.old) (K.coming keys.old) (D.asked door.old) (D.coming door.old) (D.returned door.old) (F.unread files.old) steps.old (J.deeds journals.old))
        (outside (W.held out.new) (K.coming keys.new) (D.asked door.new) (D.coming door.new) (D.returned door.new) (F.unread files.new) steps.new (J.deeds journals.new)) result) }
    ensures headline { IfSome (F.told files.old) (λ disk. Headline words.now disk
        (outside (W.held out.old) (K.coming keys.old) (D.asked door.old) (D.coming door.old) (D.returned door.old) (F.unread files.old) steps.old (J.deeds journals.old))
        (outside (W.held out.new) (K.coming keys.new) (D.asked door.new) (D.coming door.new) (D.returned door.new) (F.unread files.new) steps.new (J.deeds journals.new)) result) }
    ensures words { AreWords (K.coming keys.old) }
    ensures usage { command_of words.now ≡ None → (result ≡ Status.Usage) ⊎ ((result ≡ Status.WriteFault) ⊎ (result ≡ Status.Memory)) }
    ensures usage_only { result ≡ Status.Usage → command_of words.now ≡ None }
    ensures read_fault { Shows (result ≡ Status.ReadFault) (F.faults files.old) (F.faults files.new) }
    ensures write_fault { Shows (result ≡ Status.WriteFault) (W.write_faults out.old) (W.write_faults out.new) }
    ensures door_fault { Shows (result ≡ Status.DoorFault) (D.faults door.old) (D.faults door.new) }
    ensures journal_fault { ShowsJournal result (J.faults journals.old) (J.faults journals.new) }
{
    let tools = Tools { rt, alloc, pulse };
    let mut lent = Lent {
        files,
        journals,
        door,
        keys,
        out,
        steps,
    };
    obey_words(&tools, words, &mut lent)
}

/// Reads the words, and does what they ask for.
fn obey_words<
    R: Threads + Sync,
    F: Files,
    J: Journals,
    D: WideDoor,
    K: Keys,
    W: Sink,
    P: Pulse,
    L: Ledger,
>(tools: &Tools<R, P>, words: &Words, lent: &mut Lent<F, J, D, K, W, Steps<L>>) -> Status
    ensures comes { IfSome (F.told lent.old.files.now) (λ disk. Comes (asked words.now disk)
        (seen_of F.Files J.Journals D.Door K.Keys W.Channel lent.old) (seen_of F.Files J.Journals D.Door K.Keys W.Channel lent.new) result) }
    ensures headline { IfSome (F.told lent.old.files.now) (λ disk. Headline words.now disk
        (seen_of F.Files J.Journals D.Door K.Keys W.Channel lent.old) (seen_of F.Files J.Journals D.Door K.Keys W.Channel lent.new) result) }
    ensures usage { command_of words.now ≡ None → (result ≡ Status.Usage) ⊎ ((result ≡ Status.WriteFault) ⊎ (result ≡ Status.Memory)) }
    ensures usage_only { result ≡ Status.Usage → command_of words.now ≡ None }
    ensures causes { HasCauses result (faults_of F.Files J.Journals D.Door W.Channel lent.old) (faults_of F.Files J.Journals D.Door W.Channel lent.new) }
    ensures same { AreSame lent.old lent.new }
{
    match read_words(tools.alloc, words) {
        Ok(command) => {
            let status = obey(tools, &command, lent);
            drop(command);
            status
        }
        Err(WordsFault::Refused) => print_line(lent.out, Status::Usage, USAGE),
        Err(WordsFault::Memory) => Status::Memory,
    }
}
