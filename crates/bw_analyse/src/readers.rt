//! Which cells look at a cell.
ghost use Rattle.std.specs.Prelude.{◌≡◌, ◌++◌, ◌∷◌, ◌+◌, ◌<◌, [], ℕ, IfOk, OnOk, length, map, slice_get, slice_index_or, vec_len, Some};
ghost use Rattle.bw_flow.specs.View.{seen};
ghost use Rattle.bw_analyse.specs.Readers.{all_below, readers_at};

use bw_flow::Point;
use bw_lang::Memory;
use std::alloc::Global;
use std::marker::Model;

/// The cells that look at a cell.
#[derive(Drop)]
pub struct Readers {
    list: Vec<usize>,
}

impl Model for Readers {
    ghost use Rattle.std.specs.Prelude.{List, ℕ};

    ghost Value = { List ℕ };

    ghost view = { λ r. r.list.items };
}

impl Readers {
    pub fn as_slice(&self) -> &[usize]
        ensures { result.now ≡ self.now }
    {
        self.list.as_slice()
    }
}

/// Those that look at a point, in a flow of so many: the points that it leads to, and the shared variables.
fn behind(alloc: Global, point: &Point, count: usize) -> Result<Readers, Memory>
    ensures { IfOk result (λ r. r ≡ readers_at count (Some (seen point.now))) }
{
    let mut list = Vec::new(alloc);
    for id in point.next.as_slice() {
        if id.place() < count {
            list.push(id.place())?;
        }
    }
    list.push(count)?;
    Ok(Readers { list })
}

/// The cells of so many numbers.
fn everyone(alloc: Global, count: usize) -> Result<Readers, Memory>
    ensures { IfOk result (λ r. r ≡ all_below count) }
{
    let mut list = Vec::new(alloc);
    for cell in 0..count {
        list.push(cell)?;
    }
    Ok(Readers { list })
}

/// For each point, and behind them for the shared variables, the cells that look at it.
pub fn readers_of(alloc: Global, points: &[Point]) -> Result<Vec<Readers>, Memory>
    ensures len { IfOk result (λ v. vec_len v ≡ length points.now + 1) }
    ensures each { IfOk result (λ v. (cell : ℕ) → cell < length points.now + 1 →
        slice_index_or v.items cell [] ≡ readers_at (length points.now) (slice_get (map seen points.now) cell)) }
{
    let count = points.len();
    let mut all = Vec::new(alloc);
    for point in points {
        all.push(behind(alloc, point, count)?)?;
    }
    all.push(everyone(alloc, count + 1)?)?;
    Ok(all)
}
