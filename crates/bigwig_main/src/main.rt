//! The program: it makes the real files, door, standard output and session keys, hands them to `run`, and ends with the
//! code of its status. What standard output doesn't tell of an end it says on standard error.
#![tactic(auto)]

ghost use Rattle.std.specs.Prelude.{◌≡◌, ◌<◌};

use bigwig::{Status, run};
use bw_door::{Limits, PortDoor};
use bw_lang::{Memory, Words};
use bw_out::{DiskFiles, Quiet, RandomKeys, Steps, Writing};
use bw_stable::DiskJournals;
use bw_terminal::{Messages, ShownDoor, command_line, say_end, say_memory};
use rand_chacha::ChaCha20Rng;
use std::alloc::Global;
use std::io;
use std::io::IsTerminal;
use std::marker::Brand;
use std::net::Net;
use std::process::ExitCode;
use std::sync::Wait;
use std::sync::ledger::{Blank, Ledger};
use std::thread::Threads;
use std::time::Clock;

/// The exit code where the key generator can't be seeded.
const NO_KEYS: u8 = 14;

fn main(rt: HostRuntime) -> ExitCode {
    let generator: ChaCha20Rng = match rand::make_rng(&rt) {
        Ok(generator) => generator,
        Err(_) => {
            let _ = eprintln!(rt; "no keys");
            return ExitCode::from(NO_KEYS);
        }
    };
    match command_line(&rt) {
        Ok(words) => ExitCode::from(counted::<Brand, _>(
            &rt,
            &rt,
            &words,
            generator,
            Blank::new(1),
        ).code()),
        Err(Memory) => {
            let _ = say_memory(&rt);
            ExitCode::from(Status::Memory.code())
        }
    }
}

/// Runs the program over the real things, with a count of steps that nobody reads. `threads` is where the check makes its
/// threads.
fn counted<L: Ledger, R: Threads + Sync + Net + Clock + Wait>(
    rt: &HostRuntime,
    threads: &R,
    words: &Words,
    generator: ChaCha20Rng,
    blank: Blank,
) -> Status
    requires name { blank.name ≡ L.name }
    requires parts { blank.parts ≡ L.parts }
    requires some { 0 < blank.parts }
{
    let alloc: Global = rt.alloc();
    let Ok(port_door) = PortDoor::new(threads, alloc, Limits::usual(), Messages) else {
        let _ = say_memory(rt);
        return Status::Memory;
    };
    let mut door = ShownDoor::new(port_door, rt, rt.stderr().is_terminal());
    let mut steps: Steps<L> = Steps::new(blank);
    let mut out = Writing::new(io::writer(rt));
    let mut files = DiskFiles::new(alloc, rt);
    let mut journals = DiskJournals::new(alloc, rt);
    let mut keys = RandomKeys::new(generator);
    let status = run(
        threads,
        alloc,
        words,
        &mut files,
        &mut journals,
        &mut door,
        &mut keys,
        &mut out,
        &Quiet,
        &mut steps,
    );
    say_end(rt, status, &files, &out, &door, &journals);

    // The status stands, whether or not each client takes its reply.
    let _ = door.inner.finish();
    status
}
