//! How sources give what is read, and how sinks take what is written, as the lines of a case say.
use bw_out::{MemFile, MemSink, MemSource};
use case_files::{Fault, Line};
use std::alloc::{AllocError, Global};
use std::num::NonZeroUsize;

/// Takes the numbers of a line in the place of others.
pub fn take_numbers(alloc: Global, line: Line<'_>, numbers: &mut Vec<u64>) -> Result<(), Fault> {
    *numbers = line.numbers(alloc)?;
    Ok(())
}

/// Bytes to read, how many of them one read gives at most, and the numbers of the reads that fail.
#[derive(Drop)]
pub struct CaseSource {
    bytes: Vec<u8>,
    piece: NonZeroUsize,
    failing: Vec<u64>,
}

impl CaseSource {
    /// These bytes, which each read gives as it is asked.
    pub fn of(alloc: Global, bytes: Vec<u8>) -> CaseSource {
        CaseSource {
            bytes,
            piece: NonZeroUsize::MAX,
            failing: Vec::new(alloc),
        }
    }

    /// Takes the next line, which says how the bytes are read.
    pub fn take(&mut self, alloc: Global, line: Line<'_>) -> Result<(), Fault> {
        match line.key {
            "read_piece" => self.piece = line.value.parse()?,
            "failing_reads" => take_numbers(alloc, line, &mut self.failing)?,
            _ => return Err(Fault::Malformed),
        }
        Ok(())
    }

    /// The source in memory.
    pub fn in_memory(&self) -> MemSource<'_> {
        MemSource::new(&self.bytes, self.piece.get(), &self.failing)
    }

    /// A file in memory of this name.
    pub fn file_in_memory<'a>(&'a self, name: &'a str) -> MemFile<'a> {
        MemFile {
            name,
            content: &self.bytes,
            piece: self.piece.get(),
            failing: &self.failing,
        }
    }
}

/// How many bytes a sink has room for, how many one write takes at most, and the numbers of the writes that fail.
#[derive(Drop)]
pub struct CaseSink {
    room: usize,
    piece: NonZeroUsize,
    failing: Vec<u64>,
}

impl CaseSink {
    /// A sink with this room, which takes each write as it comes.
    pub fn of(alloc: Global, room: usize) -> CaseSink {
        CaseSink {
            room,
            piece: NonZeroUsize::MAX,
            failing: Vec::new(alloc),
        }
    }

    /// Takes the next line, which says how the sink is written.
    pub fn take(&mut self, alloc: Global, line: Line<'_>) -> Result<(), Fault> {
        match line.key {
            "room" => self.room = line.value.parse()?,
            "write_piece" => self.piece = line.value.parse()?,
            "failing_writes" => take_numbers(alloc, line, &mut self.failing)?,
            _ => return Err(Fault::Malformed),
        }
        Ok(())
    }

    /// The sink in memory.
    pub fn in_memory(&self, alloc: Global) -> Result<MemSink<'_>, AllocError> {
        MemSink::new(alloc, self.room, self.piece.get(), &self.failing)
    }
}
