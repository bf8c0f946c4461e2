//! The files of a case.
use crate::channels::CaseSource;
use bw_out::MemFile;
use case_files::{Fault, Line, Texts};
use std::alloc::Global;

/// A file of a case.
#[derive(Drop)]
pub struct CaseFile<'a> {
    name: &'a str,
    content: CaseSource,
}

impl<'a> CaseFile<'a> {
    /// The file of `NAME PARTS`.
    pub fn of(
        alloc: Global,
        texts: &Texts<'_>,
        definition: &'a str,
    ) -> Result<CaseFile<'a>, Fault> {
        let (name, parts) = definition.split_once(' ').unwrap_or((definition, ""));
        Ok(CaseFile {
            name,
            content: CaseSource::of(alloc, texts.join(alloc, parts)?),
        })
    }

    /// The file of this name with this content.
    pub fn with(alloc: Global, name: &'a str, content: Vec<u8>) -> CaseFile<'a> {
        CaseFile {
            name,
            content: CaseSource::of(alloc, content),
        }
    }

    /// Takes the next line, which says how the file is read.
    pub fn take(&mut self, alloc: Global, line: Line<'_>) -> Result<(), Fault> {
        self.content.take(alloc, line)
    }

    /// The file in memory.
    pub fn in_memory(&self) -> MemFile<'_> {
        self.content.file_in_memory(self.name)
    }
}
