//! Files of cases.

use crate::fault::Fault;
use crate::texts::Texts;
use std::alloc::Global;

/// A line of a case.
#[derive(Clone, Copy)]
pub struct Line<'a> {
    /// The whole line.
    pub text: &'a str,
    /// The word that it begins with.
    pub key: &'a str,
    /// What follows that word.
    pub value: &'a str,
}

/// A case: its name, and its lines in their order.
#[derive(Drop)]
pub struct Case<'a> {
    pub name: &'a str,
    pub lines: Vec<Line<'a>>,
}

/// A file of cases: the texts that it names, and its cases in their order.
#[derive(Drop)]
pub struct Table<'a> {
    pub texts: Texts<'a>,
    pub cases: Vec<Case<'a>>,
}

impl<'a> Line<'a> {
    fn of(text: &'a str) -> Line<'a> {
        let (key, value) = text.split_once(' ').unwrap_or((text, ""));
        Line {
            text,
            key,
            value: value.trim(),
        }
    }

    /// The numbers that follow the first word.
    pub fn numbers(&self, alloc: Global) -> Result<Vec<u64>, Fault> {
        let mut numbers = Vec::new(alloc);
        for word in self.value.split_whitespace() {
            numbers.push(word.parse()?)?;
        }
        Ok(numbers)
    }
}

impl<'a> Table<'a> {
    /// The cases that a file's text has.
    pub fn read(alloc: Global, file: &'a str) -> Result<Table<'a>, Fault> {
        let mut table = Table {
            texts: Texts::new(alloc),
            cases: Vec::new(alloc),
        };
        for line in file.lines() {
            let text = line.trim();
            if !text.is_empty() && !text.starts_with('#') {
                table.take(alloc, Line::of(text))?;
            }
        }
        Ok(table)
    }

    /// Takes the next line.
    fn take(&mut self, alloc: Global, line: Line<'a>) -> Result<(), Fault> {
        match line.key {
            "let" => self.texts.name(alloc, line.value)?,
            "case" => self.cases.push(Case {
                name: line.value,
                lines: Vec::new(alloc),
            })?,
            _ => match self.cases.last_mut() {
                Some(case) => case.lines.push(line)?,
                None => return Err(Fault::Malformed),
            },
        }
        Ok(())
    }
}
