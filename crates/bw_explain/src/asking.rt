//! `explain`: the wrappers and the literals are made for one fault.
ghost use Rattle.std.specs.Prelude.{◌≡◌, IfOk};
ghost use Rattle.bw_judge.specs.Faults.{IsFault};
ghost use Rattle.bw_shape.specs.Outlines.{IsPageGraph, root_of};
ghost use Rattle.bw_strings.specs.Literals.{literals_of};
ghost use Rattle.bw_sum.specs.Graph.{graph as summary_graph};
ghost use Rattle.bw_sum.specs.Templates.{template_items};
ghost use Rattle.bw_explain.specs.Explained.{IsExplained, IsSplit, NotValid};
ghost use Rattle.bw_explain.specs.Shows.{Shows};

use crate::explained::Explained;
use crate::fault::explain_by;
use bw_faults::Fault;
use bw_lang::Memory;
use bw_schema::Schema;
use bw_shape::{Basis, Wrappers};
use bw_strings::Literals;
use bw_sum::Summary;
use bw_types::Typed;
use std::alloc::Global;

/// A page in which a fault 1 to 7 of a page graph shows, of the least size there is, or why there is none. The page graph is
/// one of the service's, as `page_graph` gives it, and the fault is one of those that `judge` gives for it by the schema.
///
/// The page isn't valid by the schema. The only error is want of memory.
pub fn explain(
    alloc: Global,
    page: &Summary,
    typed: &Typed,
    schema: &Schema,
    fault: &Fault,
) -> Result<Explained, Memory>
    requires page { IsPageGraph typed.now.service page.now }
    requires fault { IsFault (template_items typed.now.service) (summary_graph (literals_of typed.now.service) page.now) (root_of page.now)
        schema.now fault.now.point fault.now }
    ensures explained { IfOk result (λ e. IsExplained
        (Shows (template_items typed.now.service) (summary_graph (literals_of typed.now.service) page.now) schema.now.elements fault.now (root_of page.now))
        (IsSplit (template_items typed.now.service) (summary_graph (literals_of typed.now.service) page.now) schema.now.elements fault.now) e) }
    ensures refused { IfOk result (NotValid schema.now) }
{
    let literals = Literals::of(alloc, typed.service())?;
    let explained = explain_by_literals(alloc, &literals, page, typed, schema, fault);
    drop(literals);
    explained
}

/// The same, where the literals of the service are lent.
fn explain_by_literals(
    alloc: Global,
    literals: &Literals,
    page: &Summary,
    typed: &Typed,
    schema: &Schema,
    fault: &Fault,
) -> Result<Explained, Memory>
    requires literals { literals.now ≡ literals_of typed.now.service }
    requires page { IsPageGraph typed.now.service page.now }
    requires fault { IsFault (template_items typed.now.service) (summary_graph (literals_of typed.now.service) page.now) (root_of page.now)
        schema.now fault.now.point fault.now }
    ensures explained { IfOk result (λ e. IsExplained
        (Shows (template_items typed.now.service) (summary_graph (literals_of typed.now.service) page.now) schema.now.elements fault.now (root_of page.now))
        (IsSplit (template_items typed.now.service) (summary_graph (literals_of typed.now.service) page.now) schema.now.elements fault.now) e) }
    ensures refused { IfOk result (NotValid schema.now) }
{
    let wrappers = Wrappers::of(alloc, typed)?;
    let templates = wrappers.behind(typed);
    let basis = Basis {
        typed,
        literals,
        templates: &templates,
        schema,
    };
    let explained = explain_by(alloc, &basis, page, fault);
    drop(templates);
    drop(wrappers);
    explained
}
