//! Worlds become files.
ghost use Rattle.std.specs.Prelude.{◌≡◌, ◌++◌, ◌≤◌, length, map, IfOk, IfErr, OnOk};
ghost use Rattle.bw_save.specs.Freezes.{MayBeFrozen, IsFreezeFault};
ghost use Rattle.bw_save.specs.Frozen as spec;
ghost use Rattle.bw_lang.specs.declared.limits.TheConstants.{MAX_FILE_BYTES};
ghost use Rattle.bw_model.specs.declared.limits.TheConstants.{MAX_LIVE};
ghost use Rattle.bw_save.specs.Saves.{FitSessions};
ghost use Rattle.bw_flow.specs.Layout.{flow_of};
ghost use Rattle.bw_saved.specs.Sessions.Layout.{file};
ghost use Rattle.bw_world.specs.Kept.{IsKept};
ghost use Rattle.bw_world.specs.Restored.{seen_of};

use crate::filled::is_all_filled;
use crate::saving::{SaveFault, save};
use bw_check::Checked;
use bw_lang::Memory;
use bw_run::SharedValues;
use bw_saved::{Record, Records, Saved};
use bw_world::{Parts, Suspended, Suspendeds, World};
use std::alloc::Global;

/// Why a world isn't frozen.
#[derive(Drop)]
pub enum FreezeFault {
    /// A plug of a document filled nothing. In a service that the check accepted each plug of a turn finds an open gap, but a
    /// world's type doesn't keep of its documents that they were made so.
    Unfilled,
    /// All values weigh so much, as far as 64 bits go: more than 67,108,864.
    TooLong(u64),
    /// There was no memory.
    Memory,
}

impl From<Memory> for FreezeFault {
    ghost use Rattle.std.specs.Prelude.{◌≡◌};
    ghost use Rattle.bw_save.specs.declared.freezing.FreezeFault.TheVariants.{Memory as NoMemory};

    ghost from_gives = { λ _ e. e ≡ NoMemory };

    fn from(_error: Memory) -> FreezeFault {
        FreezeFault::Memory
    }
}

/// What is saved of a live session.
fn record_of(one: Suspended) -> Record
    ensures { result ≡ spec.record_of one }
{
    let Suspended {
        number,
        key,
        session,
        turn,
        frame,
        page,
    } = one;
    Record {
        number,
        key,
        session,
        turn,
        frame,
        page,
    }
}

/// What is saved of live sessions, in their order.
fn records_of(alloc: Global, live: Suspendeds) -> Result<Records, Memory>
    ensures { IfOk result (λ records. records ≡ map spec.record_of live) }
{
    let mut left = live;
    let mut records = Records::new(alloc);
    while let Some(one) = left.pop() {
        records.push(record_of(one))?;
    }
    Ok(records)
}

/// What is saved of the parts of a world, but for its service.
pub(crate) fn saved_of(
    alloc: Global,
    next: u64,
    first: u32,
    shared: SharedValues,
    live: Suspendeds,
) -> Result<Saved, Memory>
    ensures { IfOk result (λ s. s ≡ record { next = next; first = first; shared = shared; records = map spec.record_of live }) }
{
    let Ok(records) = records_of(alloc, live) else {
        drop(shared);
        return Err(Memory);
    };
    Ok(Saved {
        next,
        first,
        shared,
        records,
    })
}

/// The file of what is saved, if each plug of its documents filled a gap.
pub(crate) fn file_of(
    alloc: Global,
    text: &[u8],
    checked: &Checked,
    saved: &Saved,
) -> Result<Vec<u8>, FreezeFault>
    requires text { length text.now ≤ MAX_FILE_BYTES }
    requires few { length saved.now.records ≤ MAX_LIVE }
    requires sessions { FitSessions saved.now.records }
    ensures file { IfOk result (λ v. v.items ≡ file (flow_of checked.now.typed.service) text.now saved.now) }
    ensures fit { OnOk result (MayBeFrozen checked.now.typed.service saved.now) }
    ensures fault { IfErr result (IsFreezeFault checked.now.typed.service saved.now) }
{
    if !is_all_filled(alloc, checked.typed(), saved)? {
        return Err(FreezeFault::Unfilled);
    }
    match save(alloc, text, checked, saved) {
        Ok(bytes) => Ok(bytes),
        Err(SaveFault::TooLong(weight)) => Err(FreezeFault::TooLong(weight)),
        Err(SaveFault::Memory) => Err(FreezeFault::Memory),
    }
}

/// The file of what waits in the world of these parts.
fn freeze_parts(alloc: Global, text: &[u8], parts: Parts) -> Result<Vec<u8>, FreezeFault>
    requires text { length text.now ≤ MAX_FILE_BYTES }
    requires kept { IsKept (seen_of parts) }
    ensures file { IfOk result (λ v. v.items ≡ file (flow_of parts.checked.typed.service) text.now (spec.saved_of (seen_of parts))) }
    ensures fit { OnOk result (MayBeFrozen parts.checked.typed.service (spec.saved_of (seen_of parts))) }
    ensures fault { IfErr result (IsFreezeFault parts.checked.typed.service (spec.saved_of (seen_of parts))) }
{
    let Parts {
        checked,
        next,
        first,
        shared,
        live,
    } = parts;
    let Ok(saved) = saved_of(alloc, next, first, shared, live) else {
        drop(checked);
        return Err(FreezeFault::Memory);
    };
    let bytes = file_of(alloc, text, &checked, &saved);
    drop(saved);
    drop(checked);
    bytes
}

/// The file of what waits in a world, for a service of that text. The world is given up. Want of memory aside there is a file
/// exactly where each plug of each document of the world filled a gap, and all values together weigh no more than may be
/// saved; else the first of both that fails is answered.
pub fn freeze(alloc: Global, text: &[u8], world: World) -> Result<Vec<u8>, FreezeFault>
    requires { length text.now ≤ MAX_FILE_BYTES }
    ensures kept { OnOk result (IsKept world) }
    ensures file { IfOk result (λ v. v.items ≡ file (flow_of world.service) text.now (spec.saved_of world)) }
    ensures fit { OnOk result (MayBeFrozen world.service (spec.saved_of world)) }
    ensures fault { IfErr result (IsFreezeFault world.service (spec.saved_of world)) }
{
    let parts = world.dismantle(alloc)?;
    freeze_parts(alloc, text, parts)
}
