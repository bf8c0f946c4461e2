//! The check of a service.
ghost use Rattle.std.specs.Prelude.{◌≡◌, IfOk, IfErr};
ghost use Rattle.bw_check.specs.Accepts.{Accepts, HasNoList, IsCheckFault};
ghost use Rattle.bw_check.specs.Findings.{AreFindings};

use bw_check::{CheckFault, Checked, Findings};
use bw_out::Pulse;
use bw_schema::Schema;
use bw_types::Typed;
use std::alloc::Global;
use std::thread::Threads;

/// The check of a service: all of its faults.
pub fn check<R: Threads + Sync, P: Pulse>(
    rt: &R,
    alloc: Global,
    typed: Typed,
    schema: Schema,
    workers: u32,
    pulse: &P,
) -> Result<Checked, CheckFault>
    ensures kept { IfOk result (λ c. (c.typed ≡ typed) × (c.schema ≡ schema)) }
    ensures accepted { IfOk result (λ c. Accepts typed.service schema) }
    ensures fault { IfErr result (IsCheckFault typed.service schema) }
{
    bw_check::check(rt, alloc, typed, schema, workers, pulse)
}

/// What the check finds of a service: its faults, and one that has plugs.
pub fn find_faults<R: Threads + Sync, P: Pulse>(
    rt: &R,
    alloc: Global,
    typed: &Typed,
    schema: &Schema,
    workers: u32,
    pulse: &P,
) -> Result<Findings, CheckFault>
    ensures found { IfOk result (AreFindings typed.now.service schema.now) }
    ensures fault { IfErr result (IsCheckFault typed.now.service schema.now) }
    ensures limit { IfErr result HasNoList }
{
    bw_check::find_faults(rt, alloc, typed, schema, workers, pulse)
}
