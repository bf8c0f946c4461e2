//! The journal of a case.
use crate::channels::take_numbers;
use bw_journal::{
    MAX_MESSAGE_BYTES, MAX_SAVED_BYTES, put_entry, put_head, put_saved_head, start_sum,
};
use bw_out::MemFile;
use bw_stable::MemJournals;
use case_files::{Fault, Line, Texts};
use std::alloc::{AllocError, Global};
use std::num::NonZeroUsize;

/// The bytes of the longest service's file.
const MAX_TEXT_BYTES: usize = 1_048_576;

/// What a journal holds, with the check behind its head and its entries.
#[derive(Drop)]
pub struct JournalBytes {
    bytes: Vec<u8>,
    sum: u64,
}

impl JournalBytes {
    /// These bytes.
    pub fn of(bytes: Vec<u8>) -> JournalBytes {
        JournalBytes { bytes, sum: 0 }
    }

    pub fn bytes(&self) -> &[u8] {
        &self.bytes
    }

    pub fn copy(&self, alloc: Global) -> Result<JournalBytes, AllocError> {
        Ok(JournalBytes {
            bytes: Vec::from_slice(alloc, &self.bytes)?,
            sum: self.sum,
        })
    }

    /// Takes the next line, which says what is put behind the bytes or how they are changed.
    pub fn take(&mut self, alloc: Global, texts: &Texts<'_>, line: Line<'_>) -> Result<(), Fault> {
        match line.key {
            "head" => self.put_head(&texts.join(alloc, line.value)?),
            "saved" => self.take_saved(alloc, texts, line.value),
            "entry" => self.take_entry(alloc, texts, line.value),
            "bytes" => {
                self.bytes
                    .extend_from_slice(&texts.join(alloc, line.value)?)?;
                Ok(())
            }
            "cut" => {
                self.cut_off(line.value.parse()?);
                Ok(())
            }
            "turn" => self.turn(line.value.parse()?),
            _ => Err(Fault::Malformed),
        }
    }

    /// Puts the head of the service whose file is the text behind the bytes.
    fn put_head(&mut self, text: &[u8]) -> Result<(), Fault> {
        if text.len() > MAX_TEXT_BYTES {
            return Err(Fault::Malformed);
        }
        put_head(&mut self.bytes, text)?;
        self.sum = start_sum(text);
        Ok(())
    }

    /// Takes in `NAME PARTS`: these saved bytes, at which a journal of the service begins whose file is the text of that name.
    fn take_saved(
        &mut self,
        alloc: Global,
        texts: &Texts<'_>,
        definition: &str,
    ) -> Result<(), Fault> {
        let (name, parts) = definition.split_once(' ').ok_or(Fault::Malformed)?;
        let text = texts.join(alloc, name)?;
        self.put_saved(&text, &texts.join(alloc, parts)?)
    }

    /// Puts the head of the service whose file is the text, with these saved bytes, behind the bytes.
    fn put_saved(&mut self, text: &[u8], saved: &[u8]) -> Result<(), Fault> {
        if text.len() > MAX_TEXT_BYTES || saved.len() > MAX_SAVED_BYTES {
            return Err(Fault::Malformed);
        }
        self.sum = put_saved_head(&mut self.bytes, text, saved)?;
        Ok(())
    }

    /// Takes in `KEY PARTS`.
    fn take_entry(
        &mut self,
        alloc: Global,
        texts: &Texts<'_>,
        definition: &str,
    ) -> Result<(), Fault> {
        let (key, parts) = definition.split_once(' ').ok_or(Fault::Malformed)?;
        self.put_entry(key.parse()?, &texts.join(alloc, parts)?)
    }

    /// Puts the entry of a key and a message behind the bytes.
    pub fn put_entry(&mut self, key: u64, message: &[u8]) -> Result<(), Fault> {
        if message.len() > MAX_MESSAGE_BYTES {
            return Err(Fault::Malformed);
        }
        self.sum = put_entry(&mut self.bytes, key, message, self.sum)?;
        Ok(())
    }

    /// Cuts off the last bytes, so many.
    fn cut_off(&mut self, count: usize) {
        self.bytes.truncate(self.bytes.len().saturating_sub(count));
    }

    /// Makes the byte behind so many another one.
    fn turn(&mut self, place: usize) -> Result<(), Fault> {
        let byte = self.bytes.get_mut(place).ok_or(Fault::Malformed)?;
        *byte = byte.wrapping_add(1);
        Ok(())
    }
}

/// A journal: its name, where there is a file of it, what the file holds and how it is read, and which calls of it fail.
#[derive(Drop)]
pub struct CaseJournal<'a> {
    name: Option<&'a str>,
    pub holds: JournalBytes,
    piece: NonZeroUsize,
    failing_reads: Vec<u64>,
    failing_openings: Vec<u64>,
    failing_calls: Vec<u64>,
}

impl<'a> CaseJournal<'a> {
    /// There is a file of this name, if any, which holds this, and no call fails.
    pub fn of(alloc: Global, name: Option<&'a str>, holds: JournalBytes) -> CaseJournal<'a> {
        CaseJournal {
            name,
            holds,
            piece: NonZeroUsize::MAX,
            failing_reads: Vec::new(alloc),
            failing_openings: Vec::new(alloc),
            failing_calls: Vec::new(alloc),
        }
    }

    /// There is a file of this name.
    pub fn begin(&mut self, name: &'a str) {
        self.name = Some(name);
    }

    /// Takes the next line, which says what the journal holds, how it is read, or which calls fail.
    pub fn take(&mut self, alloc: Global, texts: &Texts<'_>, line: Line<'_>) -> Result<(), Fault> {
        match line.key {
            "read_piece" => self.piece = line.value.parse()?,
            "failing_reads" => take_numbers(alloc, line, &mut self.failing_reads)?,
            "failing_openings" => take_numbers(alloc, line, &mut self.failing_openings)?,
            "failing_calls" => take_numbers(alloc, line, &mut self.failing_calls)?,
            _ => self.holds.take(alloc, texts, line)?,
        }
        Ok(())
    }

    /// The file in memory, if there is one.
    pub fn file(&self) -> Option<MemFile<'_>> {
        let name = self.name?;
        Some(MemFile {
            name,
            content: self.holds.bytes(),
            piece: self.piece.get(),
            failing: &self.failing_reads,
        })
    }

    /// The journal in memory.
    pub fn journals(&self, alloc: Global) -> Result<MemJournals<'_>, AllocError> {
        let file = Vec::from_slice(alloc, self.holds.bytes())?;
        Ok(MemJournals::new(file, &self.failing_openings, &self.failing_calls))
    }
}
