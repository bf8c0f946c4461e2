//! Files of the system, as journals need them.
use bw_out::{WriteFault, Writing, write_all};
use std::alloc::{AllocError, Global};
use std::fs::{File, Metadata};
use std::io::ErrorKind;
use std::os::unix::fs::{MetadataExt, OpenOptionsExt};
use std::path::Path;
use std::{fs, io, rt};

/// A journal's name, and that of the file beside it.
#[derive(Drop)]
pub(crate) struct Names {
    pub name: String,
    pub new_name: String,
}

/// A name with this behind it.
fn with_end(alloc: Global, name: &str, end: &str) -> Result<String, AllocError> {
    let mut whole = String::new(alloc);
    whole.push_str(name)?;
    whole.push_str(end)?;
    Ok(whole)
}

/// The names of a journal and of the file beside it, whose name ends in `.new`.
fn names_of(alloc: Global, name: &str) -> Result<Names, AllocError> {
    Ok(Names {
        name: with_end(alloc, name, "")?,
        new_name: with_end(alloc, name, ".new")?,
    })
}

/// The file of a name, which is made if there is none, and the names that belong to it.
pub(crate) fn open_named<R: rt::Files<File = File>>(
    alloc: Global,
    rt: &R,
    name: &str,
) -> Result<(Names, File), ErrorKind> {
    let Ok(names) = names_of(alloc, name) else {
        return Err(ErrorKind::OutOfMemory);
    };
    match open_locked(rt, name) {
        Ok(file) => Ok((names, file)),
        Err(e) => Err(e.kind()),
    }
}

/// The file of a name, which is made for its owner if there is none, at its end.
fn open_at_end<R: rt::Files<File = File>>(rt: &R, name: &str) -> io::Result<File> {
    File::options()
        .read(true)
        .append(true)
        .create(true)
        .mode(0o600)
        .open(rt, name)
}

/// The file of a name, which is made if there is none, at its end and for this process alone.
fn open_locked<R: rt::Files<File = File>>(rt: &R, name: &str) -> io::Result<File> {
    let file = open_at_end(rt, name)?;
    match lock(rt, name, &file) {
        Ok(()) => Ok(file),
        Err(e) => {
            drop(file);
            Err(e)
        }
    }
}

/// Locks the file of a name, and returns once the name is on the disk. Another process may have put a new file in its place
/// between the opening and the lock: so it is looked whether the name is still that of the file.
fn lock<R: rt::Files<File = File>>(rt: &R, name: &str, file: &File) -> io::Result<()> {
    file.try_lock()?;
    if !is_named(rt, name, file)? {
        return Err(io::Error::from(ErrorKind::WouldBlock));
    }
    sync_folder(rt, name)
}

/// Whether the name is that of the file.
fn is_named<R: rt::Files<File = File>>(rt: &R, name: &str, file: &File) -> io::Result<bool> {
    let named = fs::metadata(rt, name)?;
    let opened = file.metadata()?;
    Ok(is_same(&named, &opened))
}

/// Whether these are of one file.
fn is_same(one: &Metadata, other: &Metadata) -> bool {
    one.ino() == other.ino() && one.dev() == other.dev()
}

/// The folder that has a name.
fn folder_of(name: &str) -> Path<'_> {
    match Path::new(name).parent() {
        Some(parent) if !parent.as_str().is_empty() => parent,
        _ => Path::new("."),
    }
}

/// Returns once the name of a file that was made is on the disk.
pub(crate) fn sync_folder<R: rt::Files<File = File>>(rt: &R, name: &str) -> io::Result<()> {
    let folder = File::open(rt, folder_of(name))?;
    let synced = folder.sync_all();
    drop(folder);
    synced
}

/// Why a call of the system failed, if it did.
pub(crate) fn kind_of(outcome: io::Result<()>) -> Result<(), ErrorKind> {
    match outcome {
        Ok(()) => Ok(()),
        Err(e) => Err(e.kind()),
    }
}

/// Writes bytes at the end of a file.
pub(crate) fn write_to(file: &mut Writing<File>, bytes: &[u8]) -> Result<(), ErrorKind> {
    match write_all(file, bytes) {
        Ok(()) => Ok(()),
        Err(WriteFault) => Err(file.trouble().unwrap_or(ErrorKind::Other)),
    }
}

/// Cuts a file behind its first bytes, so many, if it has more.
pub(crate) fn cut_file(file: &File, len: u64) -> io::Result<()> {
    if len < file.metadata()?.len() {
        return file.set_len(len);
    }
    Ok(())
}

/// Syncs a file that was made beside a journal's.
pub(crate) fn sync_beside(beside: &Option<Writing<File>>) -> Result<(), ErrorKind> {
    match beside {
        Some(file) => kind_of(file.inner.sync_all()),
        None => Err(ErrorKind::NotFound),
    }
}

/// The file of a name with these bytes, made anew for its owner and for this process alone.
pub(crate) fn make_file<R: rt::Files<File = File>>(
    rt: &R,
    name: &str,
    bytes: &[u8],
) -> Result<Writing<File>, ErrorKind> {
    match open_anew(rt, name) {
        Ok(opened) => {
            let mut file = Writing::new(opened);
            match write_to(&mut file, bytes) {
                Ok(()) => Ok(file),
                Err(kind) => Err(kind),
            }
        }
        Err(e) => Err(e.kind()),
    }
}

/// The file of a name, which is made if there is none, with no byte and for this process alone. It is emptied only once it
/// is locked.
fn open_anew<R: rt::Files<File = File>>(rt: &R, name: &str) -> io::Result<File> {
    let file = open_at_end(rt, name)?;
    match lock_anew(&file) {
        Ok(()) => Ok(file),
        Err(e) => {
            drop(file);
            Err(e)
        }
    }
}

/// Locks a file and empties it.
fn lock_anew(file: &File) -> io::Result<()> {
    file.try_lock()?;
    file.set_len(0)
}
