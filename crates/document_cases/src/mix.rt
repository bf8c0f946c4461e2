//! Many documents, which follow from a number.

use crate::both::{Both, Refusal};
use bw_lang::GapId;
use bw_types::Typed;
use case_files::Fault;
use std::alloc::Global;
use std::collections::VecDeque;

/// How many documents are kept to go on with.
const KEPT: usize = 6;

/// The texts that gaps are filled with.
const TEXTS: [&str; 4] = ["", "x", "<&>\"", "two words"];

/// The last documents that were made, and the number from which the next ones follow.
#[derive(Drop)]
pub struct Mix<'a> {
    alloc: Global,
    typed: &'a Typed,
    number: u64,
    last: VecDeque<Both>,
}

impl<'a> Mix<'a> {
    pub fn new(alloc: Global, typed: &'a Typed, seed: u64) -> Mix<'a> {
        Mix {
            alloc,
            typed,
            number: seed,
            last: VecDeque::new(alloc),
        }
    }

    /// Makes the next document, and fails where its two sides differ. After one that is over a limit there is none left.
    fn step(&mut self) -> Result<(), Refusal> {
        let gap = GapId::of(self.below(self.typed.service().gaps.len()));
        match self.next(gap) {
            Ok(document) => self.keep(gap, document),
            Err(refusal) => self.over(refusal),
        }
    }

    /// Makes so many documents.
    pub fn steps(&mut self, count: u32) -> Result<(), Refusal> {
        for _ in 0..count {
            self.step()?;
        }
        Ok(())
    }

    /// Goes on without a document behind one that is over a limit.
    fn over(&mut self, refusal: Refusal) -> Result<(), Refusal> {
        match refusal {
            Refusal::Limit(_) => {
                self.last.clear();
                Ok(())
            }
            refusal => Err(refusal),
        }
    }

    /// The next number, below another one.
    fn below(&mut self, bound: usize) -> u32 {
        let next = self.number.wrapping_mul(6_364_136_223_846_793_005);
        self.number = next.wrapping_add(1_442_695_040_888_963_407);
        let high = u32::try_from(self.number >> 33).unwrap_or(0);
        let bound = u32::try_from(bound).unwrap_or(0);
        high.checked_rem(bound).unwrap_or(0)
    }

    /// The next document.
    fn next(&mut self, gap: GapId) -> Result<Both, Refusal> {
        let way = self.below(5);
        let base = self.below(KEPT) as usize;
        let other = self.below(KEPT) as usize;
        let text = self.below(TEXTS.len()) as usize;
        match (self.last.get(base), self.last.get(other)) {
            (Some(base), Some(other)) if way < 3 => base.plug(gap, other),
            (Some(base), _) if way == 3 => base.fill(gap, TEXTS.get(text).unwrap_or(&"")),
            _ => Ok(self.constant()?),
        }
    }

    /// The constant of some template.
    fn constant(&mut self) -> Result<Both, Fault> {
        let templates = self.typed.service().templates.as_slice();
        let place = self.below(templates.len()) as usize;
        let template = templates.get(place).ok_or(Fault::Malformed)?;
        Both::constant(self.typed, template.name.as_str())
    }

    fn keep(&mut self, gap: GapId, document: Both) -> Result<(), Refusal> {
        match document.is_same(self.alloc, gap) {
            Ok(true) => self.push(document),
            Ok(false) => {
                drop(document);
                Err(Refusal::Differs)
            }
            Err(fault) => {
                drop(document);
                Err(Refusal::Fault(fault))
            }
        }
    }

    /// Keeps a document as the last one.
    fn push(&mut self, document: Both) -> Result<(), Refusal> {
        if self.last.len() == KEPT {
            drop(self.last.pop_front());
        }
        self.last.push_back(document).map_err(Fault::from)?;
        Ok(())
    }
}
