//! Cases of cells that hold sets of numbers. A case has a line `cell NUMBERS to CELLS` for each cell, counted from 0: the
//! numbers that the cell holds whatever the others hold, and the cells that hold what it holds as well. It may have a line
//! `limit N`. It wants `holds NUMBERS` for each cell, or `too large N`, N the number of members that there were when the
//! solver stopped. The plain solution, which goes round by round, has to be the same.

mod cells;
mod rounds;
mod systems;

use crate::sets::cells::Cell;
use crate::sets::rounds::least_by_rounds;
use crate::sets::systems::LinkedCells;
use bw_solve::{Set, Solution, SolveFault, solve};
use case_files::{Case, Fault, Verdict, put_line};
use std::alloc::{AllocError, Global};

/// The limit where a case names none.
const LIMIT: u64 = 2_000_000;

/// Tries a case.
pub fn try_case(alloc: Global, case: &Case<'_>) -> Result<Verdict, Fault> {
    let got = got(alloc, case)?;
    Ok(Verdict::of(case.wanted(alloc, &["cell", "limit"])?, got))
}

/// What comes of a case.
fn got(alloc: Global, case: &Case<'_>) -> Result<String, Fault> {
    let limit = limit_of(case)?;
    let system = LinkedCells::of(cells_of(alloc, case)?)?;
    let got = solved(alloc, &system, limit);
    drop(system);
    got
}

/// The cells of a case.
fn cells_of(alloc: Global, case: &Case<'_>) -> Result<Vec<Cell>, Fault> {
    let mut cells = Vec::new(alloc);
    for line in &case.lines {
        if line.key == "cell" {
            cells.push(Cell::of(alloc, line.value)?)?;
        }
    }
    Ok(cells)
}

/// How many members a solution of a case may have.
fn limit_of(case: &Case<'_>) -> Result<u64, Fault> {
    match case.value_of("limit") {
        Some(limit) => Ok(limit.parse()?),
        None => Ok(LIMIT),
    }
}

/// What the solver gives, and behind it what rounds give, where that is something else.
fn solved(alloc: Global, system: &LinkedCells, limit: u64) -> Result<String, Fault> {
    let plain = by_rounds(alloc, system)?;
    match by_solver(alloc, system, limit) {
        Ok(solution) => compared(alloc, solution.as_slice(), &plain),
        Err(SolveFault::TooLarge(members)) => refused(alloc, members, limit, &plain),
        Err(SolveFault::Memory) => Err(Fault::Memory),
    }
}

/// What the solver gives. Nothing is said of it here: the comparison takes it as it comes.
fn by_solver(
    alloc: Global,
    system: &LinkedCells,
    limit: u64,
) -> Result<Solution<Set<u32>>, SolveFault> {
    solve(alloc, system, limit.min(u64::MAX - 1))
}

/// What rounds give.
fn by_rounds(alloc: Global, system: &LinkedCells) -> Result<Vec<Set<u32>>, Fault> {
    least_by_rounds(alloc, system)
}

/// The lines of these values, and behind them those that rounds give, where these are others.
fn compared(alloc: Global, values: &[Set<u32>], plain: &[Set<u32>]) -> Result<String, Fault> {
    let mut text = String::new(alloc);
    put_values(&mut text, values)?;
    let mut other = String::new(alloc);
    put_values(&mut other, plain)?;
    if text.as_str() != other.as_str() {
        write!(text, "; by rounds: {other}")?;
    }
    Ok(text)
}

/// Puts a line for each cell behind others.
fn put_values(text: &mut String, values: &[Set<u32>]) -> Result<(), AllocError> {
    for value in values {
        put_line(text, "holds")?;
        put_members(text, value.as_slice())?;
    }
    Ok(())
}

/// Puts the members of a cell behind its word.
fn put_members(text: &mut String, members: &[u32]) -> Result<(), AllocError> {
    for member in members {
        write!(text, " {member}")?;
    }
    Ok(())
}

/// How many members there were when the solver stopped, and behind it how many rounds give, where the limit allows these.
fn refused(alloc: Global, members: u64, limit: u64, plain: &[Set<u32>]) -> Result<String, Fault> {
    let mut all = 0u64;
    for value in plain {
        all = all.saturating_add(value.len() as u64);
    }
    if all <= limit {
        return Ok(format!(in alloc; "too large {members}; by rounds: {all}")?);
    }
    Ok(format!(in alloc; "too large {members}")?)
}
