//! An order of the templates in which the facts of a page graph settle soon.
ghost use Rattle.std.specs.Prelude.{◌≡◌, ℕ, ◌<◌, true, IfOk, OnOk, length};
ghost use Rattle.std.specs.List.{All, Contains};
ghost use Rattle.bw_shape.specs.Rows.Rows.{flag};
ghost use Rattle.bw_shape.specs.Reach.{Placed};

use crate::reach::take_in;
use crate::{Node, Row};
use bw_lang::Memory;
use std::alloc::Global;

/// Leads a path on to a template, unless it was seen.
fn lead(to: u32, seen: &mut Row, path: &mut Vec<(u32, usize)>) -> Result<(), Memory> {
    if !seen.has(to as usize) {
        seen.put(to as usize, true);
        path.push((to, 0))?;
    }
    Ok(())
}

/// Goes on from a template of a path: along its next link, or back where it has no more links, and then it is taken in.
fn go_on(
    nodes: &[Node],
    template: u32,
    next: usize,
    seen: &mut Row,
    path: &mut Vec<(u32, usize)>,
    placed: &mut Row,
    back: &mut Vec<u32>,
) -> Result<(), Memory>
    requires { Placed (length nodes.now) placed.old back.old.items }
    ensures { OnOk result (Placed (length nodes.now) placed.new back.new.items) }
{
    match nodes.get(template as usize) {
        Some(node) => match node.links().get(next) {
            Some(link) => {
                path.push((template, next.saturating_add(1)))?;
                lead(link.1.number(), seen, path)
            }
            None => take_in(template, placed, back),
        },
        None => Ok(()),
    }
}

/// How many steps a path takes along all links of some templates and back.
fn steps(nodes: &[Node], order: &[u32]) -> usize {
    let mut steps = 0usize;
    for n in order {
        if let Some(node) = nodes.get(*n as usize) {
            steps = steps.saturating_add(node.links().len().saturating_add(1));
        }
    }
    steps
}

/// Takes the templates in that the root leads to: each behind those that it leads to, where no cycle of links hinders it.
fn place_inner(
    alloc: Global,
    nodes: &[Node],
    steps: usize,
    root: u32,
    placed: &mut Row,
    back: &mut Vec<u32>,
) -> Result<(), Memory>
    requires { Placed (length nodes.now) placed.old back.old.items }
    ensures { OnOk result (Placed (length nodes.now) placed.new back.new.items) }
{
    let mut seen = Row::of(alloc, nodes.len(), false)?;
    let mut path = Vec::new(alloc);
    lead(root, &mut seen, &mut path)?;
    let mut left = steps;
    while left > 0 {
        left -= 1;
        if let Some((template, next)) = path.pop() {
            go_on(nodes, template, next, &mut seen, &mut path, placed, back)?;
        }
    }
    Ok(())
}

/// Takes templates in.
fn place_all(order: &[u32], placed: &mut Row, back: &mut Vec<u32>) -> Result<(), Memory>
    requires small { All (λ n. n < length placed.old) order.now }
    requires placed { Placed (length placed.old) placed.old back.old.items }
    ensures placed { OnOk result (Placed (length placed.old) placed.new back.new.items) }
    ensures all { OnOk result (All (λ n. flag placed.new n ≡ true) order.now) }
{
    for n in order {
        take_in(*n, placed, back)?;
    }
    Ok(())
}

/// The templates that the root leads to, which are those of `order`, in another order: each behind those that it leads to,
/// where no cycle of links hinders it. Contracts promise no more than that none is left out.
pub(crate) fn arranged(
    alloc: Global,
    nodes: &[Node],
    order: &[u32],
    root: u32,
) -> Result<Vec<u32>, Memory>
    requires { All (λ n. n < length nodes.now) order.now }
    ensures covers { IfOk result (λ v. (n : ℕ) → Contains order.now n → Contains v.items n) }
    ensures small { IfOk result (λ v. All (λ n. n < length nodes.now) v.items) }
{
    let mut placed = Row::of(alloc, nodes.len(), false)?;
    let mut back = Vec::new(alloc);
    place_inner(
        alloc,
        nodes,
        steps(nodes, order),
        root,
        &mut placed,
        &mut back,
    )?;
    place_all(order, &mut placed, &mut back)?;
    Ok(back)
}
