//! The links of a case.
use crate::channels::{CaseSink, CaseSource};
use bw_out::MemLink;
use case_files::{Fault, Line};
use std::alloc::{AllocError, Global};

/// A link: what its client sends, and how it is read and written.
#[derive(Drop)]
pub struct CaseLink {
    source: CaseSource,
    sink: CaseSink,
}

impl CaseLink {
    /// A link whose client sends this, and which is written so.
    pub fn of(alloc: Global, sent: Vec<u8>, sink: CaseSink) -> CaseLink {
        CaseLink {
            source: CaseSource::of(alloc, sent),
            sink,
        }
    }

    /// Takes the next line, which says how the link is read or written.
    pub fn take(&mut self, alloc: Global, line: Line<'_>) -> Result<(), Fault> {
        match line.key {
            "read_piece" | "failing_reads" => self.source.take(alloc, line),
            _ => self.sink.take(alloc, line),
        }
    }

    /// The link in memory.
    pub fn in_memory(&self, alloc: Global) -> Result<MemLink<'_>, AllocError> {
        Ok(MemLink {
            sink: self.sink.in_memory(alloc)?,
            source: self.source.in_memory(),
        })
    }
}

/// These links in memory.
pub fn in_memory(alloc: Global, links: &[CaseLink]) -> Result<Vec<MemLink<'_>>, AllocError> {
    let mut all = Vec::new(alloc);
    for link in links {
        all.push(link.in_memory(alloc)?)?;
    }
    Ok(all)
}

/// What each of these links holds.
pub fn held_by(alloc: Global, links: &[MemLink<'_>]) -> Result<Vec<Vec<u8>>, AllocError> {
    let mut held = Vec::new(alloc);
    for link in links {
        held.push(Vec::from_slice(alloc, link.sink.bytes())?)?;
    }
    Ok(held)
}
