//! The pieces of the check, and how they are dealt to workers.
ghost use Rattle.std.specs.Prelude.{◌≡◌, ◌*◌, ◌<◌, ◌≤◌, ◌^◌, max, IfOk, is_some};
ghost use Rattle.std.specs.List.{All};
ghost use Rattle.bw_analyse.specs.Facts.{AreFacts, page_of};
ghost use Rattle.bw_analyse.specs.Pages.{HasPage};
ghost use Rattle.bw_faults.specs.Lists.{Lists};
ghost use Rattle.bw_flow.specs.View.{act};
ghost use Rattle.bw_check.specs.Faults.{IsFaultOfSome};
ghost use Rattle.bw_check.specs.Pieces.{pages_from};

use crate::bench::{Bench, judge_piece};
use bw_faults::Faults;
use bw_flow::{Flow, PointId, What};
use bw_lang::Memory;
use bw_out::Pulse;
use std::alloc::Global;
use std::thread::{Threads, map_chunks};

/// Whether a point shows a page.
fn has_page(what: &What) -> bool
    ensures { result ≡ is_some (page_of (act what.now)) }
{
    matches!(what, What::Show { .. } | What::Exit { .. })
}

/// The places of all shows and exits, in source order.
pub fn pieces_of(alloc: Global, flow: &Flow) -> Result<Vec<PointId>, Memory>
    ensures { IfOk result (λ v. v.items ≡ pages_from 0 flow.now.steps) }
{
    let mut pieces = Vec::new(alloc);
    for (place, point) in flow.points().iter().enumerate() {
        if has_page(&point.what) {
            pieces.push(PointId::of(place))?;
        }
    }
    Ok(pieces)
}

/// Judges some pieces, one after another; the first of them has this number.
fn judge_in_turn<P: Pulse>(
    alloc: Global,
    bench: Bench<'_>,
    pulse: &P,
    first: u32,
    pieces: &[PointId],
) -> Result<Faults, Memory>
    requires facts { AreFacts bench.basis.now.typed.now.service bench.facts.now }
    requires pages { All (HasPage bench.basis.now.typed.now.service) pieces.now }
    ensures { IfOk result (Lists (IsFaultOfSome bench.entry.basis.now.typed.now.service bench.entry.basis.now.schema.now bench.entry.facts.now pieces.now)) }
{
    let mut faults = Faults::new(alloc);
    let mut number = first;
    for place in pieces {
        faults.join(judge_piece(alloc, bench, pulse, number, *place)?)?;
        number = number.saturating_add(1);
    }
    Ok(faults)
}

/// A count as the number of a piece.
fn numbered(count: usize) -> u32
    ensures { count < 2 ^ 32 → result ≡ count }
{
    u32::try_from(count).unwrap_or(u32::MAX)
}

/// How many neighbouring pieces a worker takes: at least one, and so many that no more workers than these have some.
fn dealt(pieces: usize, workers: u32) -> usize
    ensures some { 0 < result }
    ensures all { pieces ≤ result * max 1 workers }
{
    pieces.div_ceil((workers as usize).max(1)).max(1)
}

/// Judges pieces by up to so many workers at once, and by one where there are none. Each takes neighbours, and the
/// faults are put together in the order of pieces, whichever worker ends first.
pub fn judge_pieces<R: Threads + Sync, P: Pulse>(
    rt: &R,
    alloc: Global,
    bench: Bench<'_>,
    pulse: &P,
    pieces: &[PointId],
    workers: u32,
) -> Result<Faults, Memory>
    requires facts { AreFacts bench.basis.now.typed.now.service bench.facts.now }
    requires pages { All (HasPage bench.basis.now.typed.now.service) pieces.now }
    ensures { IfOk result (Lists (IsFaultOfSome bench.entry.basis.now.typed.now.service bench.entry.basis.now.schema.now bench.entry.facts.now pieces.now)) }
{
    let size = dealt(pieces.len(), workers);
    let lists = map_chunks(
        rt,
        alloc,
        pieces,
        size,
        &|start: usize, part: &[PointId]| -> Result<Faults, Memory>
            requires facts { AreFacts bench.basis.now.typed.now.service bench.facts.now }
            requires pages { All (HasPage bench.basis.now.typed.now.service) part.now }
            ensures { IfOk result (Lists
                (IsFaultOfSome bench.entry.basis.now.typed.now.service bench.entry.basis.now.schema.now bench.entry.facts.now part.now)) }
        { judge_in_turn(alloc, bench, pulse, numbered(start), part) },
    )?;
    let mut faults = Faults::new(alloc);
    for list in lists {
        faults.join(list?)?;
    }
    Ok(faults)
}
