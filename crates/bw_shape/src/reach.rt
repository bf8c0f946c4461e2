//! Which templates are reached from a root.
ghost use Rattle.std.specs.Prelude.{◌≡◌, ℕ, ◌<◌, [], true, false, IfOk, OnOk, length, replicate};
ghost use Rattle.std.specs.List.{All};
ghost use Rattle.bw_shape.specs.Nodes.Nodes.{node_at};
ghost use Rattle.bw_shape.specs.Reach.{Takes, Visit, Reaches};

use crate::{Node, Row};
use bw_lang::{GapId, Memory, TemplateId};
use std::alloc::Global;

/// Takes a template in, unless it was seen.
pub fn take_in(to: u32, seen: &mut Row, order: &mut Vec<u32>) -> Result<(), Memory>
    requires { to < length seen.old }
    ensures { OnOk result (Takes to seen.old order.old.items seen.new order.new.items) }
{
    if seen.has(to as usize) {
        return Ok(());
    }
    seen.put(to as usize, true);
    order.push(to)?;
    Ok(())
}

/// Takes the templates in that some links lead to.
fn visit(links: &[(GapId, TemplateId)], seen: &mut Row, order: &mut Vec<u32>) -> Result<(), Memory>
    requires { All (λ l. l.1 < length seen.old) links.now }
    ensures { OnOk result (Visit links.now (length links.now) seen.old order.old.items seen.new order.new.items) }
{
    for link in links {
        take_in(link.1.number(), seen, order)?;
    }
    Ok(())
}

/// Takes the templates in that are reached from the root, where none was seen yet: the root is the first of them.
fn reach(nodes: &[Node], root: u32, seen: &mut Row, order: &mut Vec<u32>) -> Result<(), Memory>
    requires root { root < length nodes.now }
    requires links { (n : ℕ) → All (λ l. l.1 < length nodes.now) (node_at nodes.now n).links }
    requires seen { seen.old ≡ replicate (length nodes.now) false }
    requires order { order.old.items ≡ [] }
    ensures { OnOk result (Reaches nodes.now root order.new.items) }
{
    take_in(root, seen, order)?;
    let mut next = 0;
    while next < order.len() {
        let template = order[next] as usize;
        visit(nodes[template].links(), seen, order)?;
        next += 1;
    }
    Ok(())
}

/// The templates that are reached from the root, it being the first of them.
pub fn reached(alloc: Global, nodes: &[Node], root: u32) -> Result<Vec<u32>, Memory>
    requires root { root < length nodes.now }
    requires links { (n : ℕ) → All (λ l. l.1 < length nodes.now) (node_at nodes.now n).links }
    ensures { IfOk result (λ v. Reaches nodes.now root v.items) }
{
    let mut seen = Row::of(alloc, nodes.len(), false)?;
    let mut order = Vec::new(alloc);
    reach(nodes, root, &mut seen, &mut order)?;
    Ok(order)
}
