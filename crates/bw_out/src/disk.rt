// The files of the system, which note the name that was asked for and how the tries of the last call went.
ghost use Rattle.std.specs.Prelude.{◌≡◌, ◌≤◌, ◌<◌, None, IfOk, IfSome, string_bytes};
ghost use Rattle.std.specs.declared.option.Option.{Option};
ghost use Rattle.bw_out.specs.Adapters.{read_faults_of, file_faults_of, last_name_of, IsNoted};
ghost use Rattle.bw_out.specs.Causes.{HasCause, Rose};
ghost use Rattle.bw_out.specs.Told.{Disk, Finds};
ghost use Rattle.bw_out.specs.Tries.{tried, trouble_of, Looked};

use crate::adapters::{Reading, TRIES};
use crate::outside::{Failed, Files};
use crate::tries::Tries;
use std::alloc::Global;
use std::io::ErrorKind;
use std::{fs, rt};

/// The files of the system. It counts the fetches that failed and the files that had a fault as they were closed.
///
/// There is no file of a name exactly where opening it says `NotFound`. An opening that is interrupted is tried again
/// up to 100 times in a row, and then fails.
///
/// It notes the name that was last asked for, and why that call failed or, where the file was read and taken back with a
/// fault, why its last read did.
#[derive(Drop)]
pub struct DiskFiles<R> {
    rt: R,
    name: String,
    tries: Tries,
    faults: u64,
}

impl<R> DiskFiles<R> {
    /// The files of this runtime, of which no fetch failed yet. `alloc` is where the names are noted.
    pub fn new(alloc: Global, rt: R) -> Self
        ensures { file_faults_of result ≡ 0 }
    {
        DiskFiles {
            rt,
            name: String::new(alloc),
            tries: Tries::none(),
            faults: 0,
        }
    }

    /// The name that was last asked for; empty where there was no memory to note it, or where none was asked for.
    pub fn last_name(&self) -> &str
        ensures { result.now ≡ last_name_of self.now }
    {
        self.name.as_str()
    }

    /// Why the last fetch failed, or the last read of a file that was taken back with a fault since. None where neither
    /// failed. That there is no file of the name is told as well, as `NotFound`.
    pub fn trouble(&self) -> Option<ErrorKind>
        ensures { result ≡ trouble_of self.now.tries }
    {
        self.tries.trouble()
    }
}

impl<R: rt::Files> Files for DiskFiles<R> {
    type File = Reading<R::File>;

    ghost told = { λ _. None };

    ghost unread = { λ _. None };

    ghost faults = { file_faults_of };

    fn fetch(&mut self, name: &str) -> Result<Option<Reading<R::File>>, Failed>
        ensures found { IfOk result (Finds (λ _. None) None name.now) }
        ensures fresh { IfOk result (λ found. IfSome found (λ file. read_faults_of file ≡ 0)) }
        ensures same { let told : Option Disk = None in told ≡ told }
        ensures cause { HasCause (file_faults_of self.old) (file_faults_of self.new) result }

        // There is none exactly where the system said so, and one exactly where the system opened it.
        ensures looked { Looked self.new.tries result }
        ensures named { IsNoted (last_name_of self.new) name.now }
    {
        note_name(&mut self.name, name);
        match open_retrying(&self.rt, &mut self.tries, name) {
            Ok(Some(inner)) => Ok(Some(Reading::new(inner))),
            Ok(None) => Ok(None),
            Err(Failed) => {
                self.faults = self.faults.saturating_add(1);
                Err(Failed)
            }
        }
    }

    fn close(&mut self, file: Reading<R::File>)
        ensures failed { 0 < read_faults_of file → Rose (file_faults_of self.old) (file_faults_of self.new) }
        ensures quiet { read_faults_of file ≡ 0 → file_faults_of self.new ≡ file_faults_of self.old }
        ensures later { file_faults_of self.old ≤ file_faults_of self.new }

        // How the last read of a file with a fault went is noted from then on.
        ensures noted { 0 < read_faults_of file → self.new.tries ≡ file.tries }
        ensures kept { read_faults_of file ≡ 0 → self.new.tries ≡ self.old.tries }
        ensures named { last_name_of self.new ≡ last_name_of self.old }
    {
        if file.faults > 0 {
            self.tries = file.tries;
            self.faults = self.faults.saturating_add(1);
        }
    }
}

// Notes a name in place of what was noted, or nothing where there is no memory for it.
fn note_name(noted: &mut String, name: &str)
    ensures { IsNoted (string_bytes noted.new) name.now }
{
    noted.clear();
    let _ = noted.push_str(name);
}

// The file of this name, if there is one. An opening is tried again while it is interrupted.
fn open_retrying<R: rt::Files>(
    rt: &R,
    tries: &mut Tries,
    name: &str,
) -> Result<Option<R::File>, Failed>
    ensures looked { Looked tries.new result }
{
    *tries = Tries::none();
    for _turn in 0..TRIES {
        match open_once(rt, tries, name) {
            Ok(file) => return Ok(Some(file)),
            Err(ErrorKind::NotFound) => return Ok(None),
            Err(ErrorKind::Interrupted) => {}
            Err(_) => return Err(Failed),
        }
    }
    Err(Failed)
}

// An opening, of which it is noted how it failed.
fn open_once<R: rt::Files>(rt: &R, tries: &mut Tries, name: &str) -> Result<R::File, ErrorKind>
    requires { tries.old.interrupted ≤ 100 }
    ensures noted { tries.new ≡ tried tries.old result }
{
    match fs::open(rt, name) {
        Ok(file) => Ok(file),
        Err(e) => {
            let kind = e.kind();
            tries.note(kind);
            Err(kind)
        }
    }
}
