//! Steps of cases of documents.

use crate::both::{Both, Refusal};
use crate::mix::Mix;
use crate::stack::Stack;
use bw_doc::DocFault;
use bw_lang::GapId;
use bw_types::Typed;
use case_files::{Case, Fault, Texts, put_line};
use std::alloc::Global;
use std::str;

/// The documents of a case, and what its steps showed.
#[derive(Drop)]
pub struct Steps<'a> {
    alloc: Global,
    typed: &'a Typed,
    texts: &'a Texts<'a>,
    stack: Stack,
    shown: String,
}

impl<'a> Steps<'a> {
    /// No step yet.
    pub fn new(alloc: Global, texts: &'a Texts<'a>, typed: &'a Typed) -> Steps<'a> {
        Steps {
            alloc,
            typed,
            texts,
            stack: Stack::new(alloc),
            shown: String::new(alloc),
        }
    }

    /// Takes the steps of a case, up to one that ends it.
    pub fn run(&mut self, case: &Case<'_>) -> Result<(), Fault> {
        for line in &case.lines {
            if line.key == "service" || line.key == "want" {
                continue;
            }
            if let Err(refusal) = self.take(line.key, line.value) {
                let words = shown_refusal(self.alloc, refusal)?;
                put_line(&mut self.shown, &words)?;
                break;
            }
        }
        Ok(())
    }

    /// What the steps showed.
    pub fn into_shown(self) -> String {
        let Steps { stack, shown, .. } = self;
        drop(stack);
        shown
    }

    fn take(&mut self, key: &str, value: &str) -> Result<(), Refusal> {
        match key {
            "times" => self.times(value),
            "mix" => self.mix(value),
            _ => self.step(key, value),
        }
    }

    /// Takes steps many times.
    fn times(&mut self, value: &str) -> Result<(), Refusal> {
        let (count, steps) = cut(value);
        let count: u32 = count.parse().map_err(|_| Fault::Malformed)?;
        for _ in 0..count {
            self.all(steps)?;
        }
        Ok(())
    }

    /// Takes steps that are parted by `;`.
    fn all(&mut self, steps: &str) -> Result<(), Refusal> {
        for step in steps.split(';') {
            let (key, value) = cut(step.trim());
            self.step(key, value)?;
        }
        Ok(())
    }

    /// Makes many documents, and shows whether both ways gave the same each time.
    fn mix(&mut self, value: &str) -> Result<(), Refusal> {
        let (seed, count) = cut(value);
        let seed: u64 = seed.parse().map_err(|_| Fault::Malformed)?;
        let count: u32 = count.parse().map_err(|_| Fault::Malformed)?;
        let mut mix = Mix::new(self.alloc, self.typed, seed);
        let mixed = mix.steps(count);
        drop(mix);
        mixed?;
        Ok(put_line(&mut self.shown, "alike").map_err(Fault::from)?)
    }

    fn step(&mut self, key: &str, value: &str) -> Result<(), Refusal> {
        match key {
            "plug" => {
                let gap = self.gap(value)?;
                self.stack.plug(gap)
            }
            "fill" => self.fill(value),
            "drop" => Ok(self.stack.drop_top()?),
            "constant" => Ok(self.stack.push(Both::constant(self.typed, value)?)?),
            "copy" => Ok(self.stack.copy()?),
            "swap" => Ok(self.stack.swap()?),
            "rotate" => Ok(self.stack.rotate()?),
            _ => Ok(self.tell(key, value)?),
        }
    }

    /// Puts `GAP PARTS`, a text, into the gaps of the document on top.
    fn fill(&mut self, value: &str) -> Result<(), Refusal> {
        let (gap, parts) = cut(value);
        let gap = self.gap(gap)?;
        let bytes = self.texts.join(self.alloc, parts)?;
        let text = str::from_utf8(&bytes).map_err(|_| Fault::Malformed)?;
        self.stack.fill(gap, text)
    }

    /// Shows something of the document on top.
    fn tell(&mut self, key: &str, value: &str) -> Result<(), Fault> {
        let alloc = self.alloc;
        let top = self.stack.top()?;
        let (first, second) = cut(value);
        let words = match key {
            "measure" => top.measure(alloc)?,
            "gaps" => top.gaps(alloc, self.gap(value)?)?,
            "length" => top.length(alloc)?,
            "exit" => top.exit(alloc, value)?,
            "show" => top.show(alloc, first, second)?,
            _ => return Err(Fault::Malformed),
        };
        Ok(put_line(&mut self.shown, &words)?)
    }

    /// The gap of that name.
    fn gap(&self, name: &str) -> Result<GapId, Fault> {
        self.typed.gap(name).ok_or(Fault::Malformed)
    }
}

/// Why a case is over, where it can be tried.
fn shown_refusal(alloc: Global, refusal: Refusal) -> Result<String, Fault> {
    Ok(match refusal {
        Refusal::Limit(DocFault::Heavy(weight)) => format!(in alloc; "heavy {weight}")?,
        Refusal::Limit(DocFault::Deep(depth)) => format!(in alloc; "deep {depth}")?,
        Refusal::Limit(DocFault::Nested(nest)) => format!(in alloc; "nested {nest}")?,
        Refusal::Differs => String::from_str(alloc, "differs")?,
        Refusal::Limit(DocFault::Memory) => return Err(Fault::Memory),
        Refusal::Fault(fault) => return Err(fault),
    })
}

/// The first word of a text, and what follows the blank behind it.
fn cut(text: &str) -> (&str, &str) {
    text.split_once(' ').unwrap_or((text, ""))
}
