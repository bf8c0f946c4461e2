//! Documents that stand on one another.
ghost use Rattle.std.specs.Prelude.{◌<◌};

use crate::both::{Both, Refusal};
use bw_lang::GapId;
use case_files::Fault;
use std::alloc::Global;
use std::mem;

/// Documents, the one on top last.
#[derive(Drop)]
pub struct Stack {
    documents: Vec<Both>,
}

impl Stack {
    /// No document yet.
    pub fn new(alloc: Global) -> Stack {
        Stack {
            documents: Vec::new(alloc),
        }
    }

    /// The document on top.
    pub fn top(&self) -> Result<&Both, Fault> {
        self.documents.last().ok_or(Fault::Malformed)
    }

    /// Puts a document on top.
    pub fn push(&mut self, document: Both) -> Result<(), Fault> {
        self.documents.push(document)?;
        Ok(())
    }

    /// Puts a copy of the document on top above it.
    pub fn copy(&mut self) -> Result<(), Fault> {
        let copy = self.top()?.copy()?;
        self.push(copy)
    }

    /// Takes the document on top away.
    fn pop(&mut self) -> Result<Both, Fault> {
        self.documents.pop().ok_or(Fault::Malformed)
    }

    /// Drops the document on top.
    pub fn drop_top(&mut self) -> Result<(), Fault> {
        drop(self.pop()?);
        Ok(())
    }

    /// Puts a document in the place of the one on top.
    fn replace_top(&mut self, document: Both) -> Result<(), Fault> {
        match self.documents.last_mut() {
            Some(top) => {
                drop(mem::replace(top, document));
                Ok(())
            }
            None => {
                drop(document);
                Err(Fault::Malformed)
            }
        }
    }

    /// Brings the lowest of so many documents at the top to the top.
    fn raise(&mut self, count: usize) -> Result<(), Fault>
        requires { 0 < count }
    {
        let below = self.documents.len().checked_sub(count);
        let start = below.ok_or(Fault::Malformed)?;
        self.documents[start..].rotate_left(1);
        Ok(())
    }

    /// Changes the places of the two documents on top.
    pub fn swap(&mut self) -> Result<(), Fault> {
        self.raise(2)
    }

    /// Brings the third document to the top.
    pub fn rotate(&mut self) -> Result<(), Fault> {
        self.raise(3)
    }

    /// Takes the document on top and puts it into the gaps of the one below.
    pub fn plug(&mut self, gap: GapId) -> Result<(), Refusal> {
        let other = self.pop()?;
        let plugged = self.plugged(gap, &other);
        drop(other);
        Ok(self.replace_top(plugged?)?)
    }

    /// The document on top with another in its gaps.
    fn plugged(&self, gap: GapId, other: &Both) -> Result<Both, Refusal> {
        self.top()?.plug(gap, other)
    }

    /// Puts a text into the gaps of the document on top.
    pub fn fill(&mut self, gap: GapId, text: &str) -> Result<(), Refusal> {
        let filled = self.top()?.fill(gap, text)?;
        Ok(self.replace_top(filled)?)
    }
}
