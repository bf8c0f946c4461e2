//! Pages that explain faults.
ghost use Rattle.std.specs.Prelude.{IfOk};
ghost use Rattle.bw_explain.specs.Explained.{IsExplained, IsSplit, NotValid};
ghost use Rattle.bw_explain.specs.Shows.{Shows};
ghost use Rattle.bw_judge.specs.Faults.{IsFault};
ghost use Rattle.bw_shape.specs.Outlines.{IsPageGraph, root_of};
ghost use Rattle.bw_strings.specs.Literals.{literals_of};
ghost use Rattle.bw_sum.specs.Graph.{graph as summary_graph};
ghost use Rattle.bw_sum.specs.Templates.{template_items};

use bw_explain::{Explained, explain};
use bw_faults::Fault;
use bw_lang::Memory;
use bw_schema::Schema;
use bw_sum::Summary;
use bw_types::Typed;
use std::alloc::Global;

/// `explain`: the answer for another fault of the page graph, and other pages.
pub fn explained(
    alloc: Global,
    page: &Summary,
    typed: &Typed,
    schema: &Schema,
    fault: &Fault,
    other: &Fault,
) -> Result<Explained, Memory>
    requires page { IsPageGraph typed.now.service page.now }
    requires fault { IsFault (template_items typed.now.service) (summary_graph (literals_of typed.now.service) page.now) (root_of page.now)
        schema.now fault.now.point fault.now }
    requires other { IsFault (template_items typed.now.service) (summary_graph (literals_of typed.now.service) page.now) (root_of page.now)
        schema.now other.now.point other.now }
    ensures explained { IfOk result (λ e. IsExplained
        (Shows (template_items typed.now.service) (summary_graph (literals_of typed.now.service) page.now) schema.now.elements fault.now (root_of page.now))
        (IsSplit (template_items typed.now.service) (summary_graph (literals_of typed.now.service) page.now) schema.now.elements fault.now) e) }
    ensures refused { IfOk result (NotValid schema.now) }
{
    explain(alloc, page, typed, schema, fault)
}
