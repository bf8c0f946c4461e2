//! What is known of a document while values are plugged into it, one after the other.
ghost use Rattle.std.specs.Prelude.{◌≡◌, [], IfOk};
ghost use Rattle.bw_solve.specs.Sets.{merge};
ghost use Rattle.bw_sum.specs.Edges.{edge_cmp};
ghost use Rattle.bw_analyse.specs.Abstracts.{plugged_by};
ghost use Rattle.bw_analyse.specs.Apart as spec;

use crate::abstracts::{Abstract, Edges};
use bw_lang::{GapId, Memory};
use bw_solve::Set;
use std::alloc::Global;
use std::marker::Model;

/// What is known of a document while values are plugged into it. Edges may be by far the most of its members, and where each
/// plug put them together anew, many plugs would take the square of their number. So they stand apart from the other members,
/// and those of the last plugs wait until they are many enough to join the others. Contracts see what is known.
#[derive(Drop)]
pub(crate) struct Plugging {
    bare: Abstract,
    edges: Edges,
    waiting: Edges,
}

impl Model for Plugging {
    ghost use Rattle.bw_solve.specs.Sets.{merge};
    ghost use Rattle.bw_sum.specs.Edges.{edge_cmp};
    ghost use Rattle.bw_analyse.specs.declared.abstracts.Abstract.{Abstract};
    ghost use Rattle.bw_analyse.specs.Apart.{with_edges, AreApart};

    ghost Value = { Abstract };

    ghost view = { λ f. with_edges f.bare (merge edge_cmp f.edges f.waiting) };

    ghost invariant = { λ f. AreApart f.bare f.edges f.waiting };
}

/// The edges of both. Where one side has none, nothing is copied.
fn joined(alloc: Global, edges: Edges, more: Edges) -> Result<Edges, Memory>
    ensures { IfOk result (λ s. s ≡ merge edge_cmp edges more) }
{
    if more.len() == 0 {
        drop(more);
        return Ok(edges);
    }
    if edges.len() == 0 {
        drop(edges);
        return Ok(more);
    }
    let all = edges.union(alloc, &more);
    drop(edges);
    drop(more);
    Ok(all?)
}

impl Plugging {
    /// A value before the first plug.
    pub(crate) fn of(alloc: Global, value: Abstract) -> Plugging
        ensures { result ≡ value }
    {
        let (bare, edges) = value.parted(alloc);
        Plugging {
            bare,
            edges,
            waiting: Set::new(alloc),
        }
    }

    /// The value with these parts. The edges that wait join the others where they are at least a quarter as many.
    fn settled(
        alloc: Global,
        bare: Abstract,
        edges: Edges,
        waiting: Edges,
    ) -> Result<Plugging, Memory>
        requires { spec.AreApart bare edges waiting }
        ensures { IfOk result (λ f. f ≡ spec.with_edges bare (merge edge_cmp edges waiting)) }
    {
        if waiting.len() < edges.len() / 4 {
            return Ok(Plugging {
                bare,
                edges,
                waiting,
            });
        }
        let Ok(edges) = joined(alloc, edges, waiting) else {
            drop(bare);
            return Err(Memory);
        };
        Ok(Plugging {
            bare,
            edges,
            waiting: Set::new(alloc),
        })
    }

    /// What is known with a value in the open gaps of that number.
    pub(crate) fn plug(
        self,
        alloc: Global,
        gap: GapId,
        value: &Abstract,
    ) -> Result<Plugging, Memory>
        ensures { IfOk result (λ f. f ≡ plugged_by self gap value.now) }
    {
        let Plugging {
            bare,
            edges,
            waiting,
        } = self;
        let plugged = bare.plug(alloc, gap, value);
        drop(bare);
        let Ok(plugged) = plugged else {
            drop(edges);
            drop(waiting);
            return Err(Memory);
        };
        let (bare, new) = plugged.parted(alloc);
        let Ok(waiting) = joined(alloc, waiting, new) else {
            drop(bare);
            drop(edges);
            return Err(Memory);
        };
        Plugging::settled(alloc, bare, edges, waiting)
    }

    /// The value after the last plug.
    pub(crate) fn done(self, alloc: Global) -> Result<Abstract, Memory>
        ensures { IfOk result (λ a. a ≡ self) }
    {
        let Plugging {
            bare,
            edges,
            waiting,
        } = self;
        let Ok(edges) = joined(alloc, edges, waiting) else {
            drop(bare);
            return Err(Memory);
        };
        Ok(bare.with_edges(edges))
    }
}
