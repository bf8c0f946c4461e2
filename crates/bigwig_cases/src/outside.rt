//! The words of the command line, and the outside in memory that a run meets.
use crate::channels::{CaseSink, take_numbers};
use crate::door::{CaseDoor, Comings};
use crate::files::CaseFile;
use crate::journal::{CaseJournal, JournalBytes};
use crate::links::{CaseLink, in_memory};
use bw_lang::{Memory, Text, Words};
use bw_out::{MemDoor, MemFile};
use case_files::{Fault, Line, Texts};
use std::alloc::{AllocError, Global};
use std::mem;

/// The room of standard output and of a link.
const ROOM: usize = 65_536;

/// The words of the command line, and the outside: files, a journal, keys, standard output and links to come.
#[derive(Drop)]
pub struct Outside<'a> {
    pub words: Words,
    files: Vec<CaseFile<'a>>,
    pub failing_fetches: Vec<u64>,
    pub journal: CaseJournal<'a>,
    pub keys: Vec<u64>,
    pub out: CaseSink,
    links: Vec<CaseLink>,
    failing_listens: Vec<u64>,
    failing_nexts: Vec<u64>,
    awaited: Vec<u64>,
}

impl<'a> Outside<'a> {
    /// These words, parted by blanks, and the outside where no line says anything of it.
    pub fn new(alloc: Global, words: &str) -> Result<Outside<'a>, Fault> {
        let keys = vec![in alloc; 11, 12, 13]?;
        let nothing = JournalBytes::of(Vec::new(alloc));
        Ok(Outside {
            words: words_of(alloc, words)?,
            files: Vec::new(alloc),
            failing_fetches: Vec::new(alloc),
            journal: CaseJournal::of(alloc, None, nothing),
            keys,
            out: CaseSink::of(alloc, ROOM),
            links: Vec::new(alloc),
            failing_listens: Vec::new(alloc),
            failing_nexts: Vec::new(alloc),
            awaited: Vec::new(alloc),
        })
    }

    /// One file more, of this name and with this content.
    pub fn add_file(
        &mut self,
        alloc: Global,
        name: &'a str,
        content: Vec<u8>,
    ) -> Result<(), Fault> {
        self.files.push(CaseFile::with(alloc, name, content))?;
        Ok(())
    }

    /// One file less: the last one.
    pub fn drop_file(&mut self) {
        drop(self.files.pop());
    }

    /// Takes the next line.
    pub fn take(&mut self, alloc: Global, texts: &Texts<'_>, line: Line<'a>) -> Result<(), Fault> {
        match line.key {
            "words" => self.take_words(alloc, line),
            "file" => self.take_file(alloc, texts, line),
            "link" => self.take_link(alloc, texts, line),
            "room" | "write_piece" | "failing_writes" => self.out.take(alloc, line),
            "keys" => take_numbers(alloc, line, &mut self.keys),
            "keys_to" => self.take_keys(alloc, line),
            "failing_fetches" => take_numbers(alloc, line, &mut self.failing_fetches),
            "failing_listens" => take_numbers(alloc, line, &mut self.failing_listens),
            "failing_nexts" => take_numbers(alloc, line, &mut self.failing_nexts),
            "awaited" => take_numbers(alloc, line, &mut self.awaited),
            "journal" => {
                self.journal.begin(line.value);
                Ok(())
            }
            _ => self.take_detail(alloc, texts, line),
        }
    }

    fn take_words(&mut self, alloc: Global, line: Line<'_>) -> Result<(), Fault> {
        let words = words_of(alloc, line.value)?;
        drop(mem::replace(&mut self.words, words));
        Ok(())
    }

    /// Takes how many keys are to come: from 1 on.
    fn take_keys(&mut self, alloc: Global, line: Line<'_>) -> Result<(), Fault> {
        let last: u64 = line.value.parse()?;
        let mut keys = Vec::new(alloc);
        for key in 1..=last {
            keys.push(key)?;
        }
        drop(mem::replace(&mut self.keys, keys));
        Ok(())
    }

    fn take_file(&mut self, alloc: Global, texts: &Texts<'_>, line: Line<'a>) -> Result<(), Fault> {
        self.files.push(CaseFile::of(alloc, texts, line.value)?)?;
        Ok(())
    }

    fn take_link(&mut self, alloc: Global, texts: &Texts<'_>, line: Line<'_>) -> Result<(), Fault> {
        let sent = texts.join(alloc, line.value)?;
        let sink = CaseSink::of(alloc, ROOM);
        self.links.push(CaseLink::of(alloc, sent, sink))?;
        Ok(())
    }

    /// Takes the next line, which says something of the journal, or how the last link or the last file is read or written.
    fn take_detail(
        &mut self,
        alloc: Global,
        texts: &Texts<'_>,
        line: Line<'_>,
    ) -> Result<(), Fault> {
        match line.key.strip_prefix("journal_") {
            Some(key) => self.journal.take(alloc, texts, Line { key, ..line }),
            None => self.take_calls(alloc, line),
        }
    }

    /// Takes the next line, which says how the last link or the last file is read or written.
    fn take_calls(&mut self, alloc: Global, line: Line<'_>) -> Result<(), Fault> {
        match line.key.strip_prefix("link_") {
            Some(key) => {
                let link = self.links.last_mut().ok_or(Fault::Malformed)?;
                link.take(alloc, Line { key, ..line })
            }
            None => {
                let file = self.files.last_mut().ok_or(Fault::Malformed)?;
                file.take(alloc, line)
            }
        }
    }

    /// The outside of a run behind this one: the same words, files and keys, and a journal of this name that holds this.
    pub fn go_on(&mut self, alloc: Global, name: &'a str, holds: JournalBytes) {
        let journal = CaseJournal::of(alloc, Some(name), holds);
        drop(mem::replace(&mut self.journal, journal));
        self.links.clear();
        self.failing_listens.clear();
        self.failing_nexts.clear();
        self.awaited.clear();
    }

    /// The files in memory, in their order, and the journal behind them.
    pub fn folder(&self, alloc: Global) -> Result<Vec<MemFile<'_>>, AllocError> {
        let mut folder = Vec::new(alloc);
        for file in &self.files {
            folder.push(file.in_memory())?;
        }
        if let Some(journal) = self.journal.file() {
            folder.push(journal)?;
        }
        Ok(folder)
    }

    /// The door to which the links come.
    pub fn door(&self, alloc: Global) -> Result<CaseDoor<'_>, AllocError> {
        let door = MemDoor::new(alloc, in_memory(alloc, &self.links)?)?;
        let comings = Comings {
            failing_listens: &self.failing_listens,
            failing_nexts: &self.failing_nexts,
            awaited: &self.awaited,
        };
        Ok(CaseDoor::new(door, comings))
    }
}

/// These words, parted by blanks.
fn words_of(alloc: Global, text: &str) -> Result<Words, Memory> {
    let mut words = Words::new(alloc);
    for word in text.split_whitespace() {
        words.push(Text::of(alloc, word)?)?;
    }
    Ok(words)
}
