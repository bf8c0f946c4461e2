//! Cells that hold sets of numbers.

use case_files::Fault;
use std::alloc::Global;

/// A cell: the numbers that it holds whatever the others hold, and the cells that hold what it holds as well.
#[derive(Drop)]
pub struct Cell {
    pub own: Vec<u32>,
    pub readers: Vec<usize>,
}

impl Cell {
    /// The cell of `NUMBERS to CELLS`.
    pub fn of(alloc: Global, line: &str) -> Result<Cell, Fault> {
        let mut cell = Cell {
            own: Vec::new(alloc),
            readers: Vec::new(alloc),
        };
        cell.take(line)?;
        Ok(cell)
    }

    /// Takes in `NUMBERS to CELLS`.
    fn take(&mut self, line: &str) -> Result<(), Fault> {
        let (numbers, cells) = line.split_once("to").unwrap_or((line, ""));
        put_numbers(&mut self.own, numbers)?;
        put_places(&mut self.readers, cells)
    }
}

/// Puts the numbers of these words behind others.
fn put_numbers(numbers: &mut Vec<u32>, words: &str) -> Result<(), Fault> {
    for word in words.split_whitespace() {
        numbers.push(word.parse()?)?;
    }
    Ok(())
}

/// Puts the places of these words behind others.
fn put_places(places: &mut Vec<usize>, words: &str) -> Result<(), Fault> {
    for word in words.split_whitespace() {
        places.push(word.parse()?)?;
    }
    Ok(())
}
