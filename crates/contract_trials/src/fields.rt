//! The fields that a show receives.
ghost use Rattle.std.specs.Prelude.{IfOk, length};
ghost use Rattle.std.specs.List.{All};
ghost use Rattle.bw_faults.specs.Lists.{Lists};
ghost use Rattle.bw_fields.specs.Received as spec;
ghost use Rattle.bw_schema.specs.declared.schema.Schema.{Schema};
ghost use Rattle.bw_strings.specs.Literals.{literals_of};
ghost use Rattle.bw_sum.specs.Graph.{graph};
ghost use Rattle.bw_sum.specs.Templates.{template_items};
ghost use Rattle.bw_sum.specs.declared.summary.Summary.{Summary};

use bw_faults::Faults;
use bw_flow::Receiveds;
use bw_lang::Memory;
use bw_shape::Outline;
use bw_types::Typed;
use std::alloc::Global;

/// The faults of the fields that a show receives: one that may be missing.
pub fn judge_fields(
    alloc: Global,
    outline: &Outline,
    typed: &Typed,
    received: &Receiveds,
    point: u32,
) -> Result<Faults, Memory>
    requires { All (spec.IsReceived typed.now.service) received.now }
    ensures exact { IfOk result (λ l. (page : Summary) (schema : Schema) → spec.IsShown typed.now.service page schema outline.now
        → Lists (spec.IsFieldFault (template_items typed.now.service) (graph (literals_of typed.now.service) page) (length typed.now.service.templates)
        typed.now.service point received.now) l) }
{
    bw_fields::judge_fields(alloc, outline, typed, received, point)
}
