//! What is shown behind the line of a refusal.
ghost use Rattle.std.specs.Prelude.{◌≡◌, ◌++◌, OnOk};
ghost use Rattle.bw_diagnose.specs.Blocks as spec;

use bw_diagnose::{Marks, Tokened};
use bw_faults::Fault;
use bw_lang::Memory;
use std::alloc::Global;

/// The block of a fault of a service: its statement, and its element.
pub fn fault_block(
    out: &mut Vec<u8>,
    alloc: Global,
    name: &[u8],
    told: &Tokened<'_>,
    marks: &Marks,
    fault: &Fault,
) -> Result<(), Memory>
    ensures { OnOk result (out.new.items ≡ out.old.items ++ spec.marked_block name.now told.now.text.now marks.now fault.now) }
{
    bw_diagnose::push_fault_block(out, alloc, name, told, marks, fault)
}
