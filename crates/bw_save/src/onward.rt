//! Worlds that are frozen and go on.
ghost use Rattle.std.specs.Prelude.{◌≡◌, ◌≤◌, length, IfOk, IfSome, IfNone};
ghost use Rattle.bw_lang.specs.declared.limits.TheConstants.{MAX_FILE_BYTES};
ghost use Rattle.bw_model.specs.declared.limits.TheConstants.{MAX_LIVE};
ghost use Rattle.bw_save.specs.Frozen as spec;
ghost use Rattle.bw_save.specs.Onward.{IsAgain, IsFileAgain, IsNoFile, IsNotAgain};
ghost use Rattle.bw_save.specs.Saves.{FitSessions};
ghost use Rattle.bw_world.specs.Good.{IsSound};
ghost use Rattle.bw_world.specs.Kept.{IsKept};
ghost use Rattle.bw_world.specs.Restored.{seen_of};

use crate::freezing::{FreezeFault, file_of, saved_of};
use crate::thawing::parts_of;
use bw_check::Checked;
use bw_lang::Memory;
use bw_load::{LoadFault, load};
use bw_saved::Saved;
use bw_saved::limits::MAX_SAVED_BYTES;
use bw_world::{Parts, World};
use std::alloc::Global;

/// A world, and the file of what waits in it.
#[derive(Drop)]
pub struct Frozen {
    pub world: World,
    /// None where what waits is too much to be saved, or wouldn't be loaded again from the file.
    pub file: Option<Vec<u8>>,
}

/// A file, if what it holds is loaded again. It is looked at before anything rests on it alone.
fn again(
    alloc: Global,
    text: &[u8],
    checked: &Checked,
    bytes: Vec<u8>,
) -> Result<Option<Vec<u8>>, Memory>
    ensures some { IfOk result (λ o. IfSome o (λ v. (v.items ≡ bytes.items) × IsAgain checked.now.typed.service text.now bytes.items)) }
    ensures none { IfOk result (λ o. IfNone o (IsNotAgain checked.now.typed.service text.now bytes.items)) }
{
    if bytes.len() > MAX_SAVED_BYTES {
        drop(bytes);
        return Ok(None);
    }
    match load(alloc, &bytes, text, checked) {
        Ok(saved) => {
            drop(saved);
            Ok(Some(bytes))
        }
        Err(fault) => {
            drop(bytes);
            match fault {
                LoadFault::Memory => Err(Memory),
                _ => Ok(None),
            }
        }
    }
}

/// The file of what is saved, if there is one that is loaded again.
fn file_again(
    alloc: Global,
    text: &[u8],
    checked: &Checked,
    saved: &Saved,
) -> Result<Option<Vec<u8>>, Memory>
    requires text { length text.now ≤ MAX_FILE_BYTES }
    requires few { length saved.now.records ≤ MAX_LIVE }
    requires sessions { FitSessions saved.now.records }
    ensures some { IfOk result (λ o. IfSome o (λ v. IsFileAgain checked.now.typed.service text.now saved.now v.items)) }
    ensures none { IfOk result (λ o. IfNone o (IsNoFile checked.now.typed.service text.now saved.now)) }
{
    match file_of(alloc, text, checked, saved) {
        Ok(bytes) => again(alloc, text, checked, bytes),
        Err(FreezeFault::Memory) => Err(Memory),
        Err(FreezeFault::Unfilled) => Ok(None),
        Err(FreezeFault::TooLong(_)) => Ok(None),
    }
}

/// The world that goes on from what was saved, beside its file.
fn restored(
    alloc: Global,
    checked: Checked,
    saved: Saved,
    file: Option<Vec<u8>>,
) -> Result<Frozen, Memory>
    requires kept { IsKept (seen_of (spec.parts_of checked saved)) }
    requires sound { ∥ IsSound (seen_of (spec.parts_of checked saved)) ∥₁ }
    ensures world { IfOk result (λ f. f.world ≡ seen_of (spec.parts_of checked saved)) }
    ensures file { IfOk result (λ f. f.file ≡ file) }
{
    let Ok(parts) = parts_of(alloc, checked, saved) else {
        drop(file);
        return Err(Memory);
    };
    match World::restore(alloc, parts) {
        Ok(world) => Ok(Frozen { world, file }),
        Err(Memory) => {
            drop(file);
            Err(Memory)
        }
    }
}

/// The world, and the file of what waits in it, for a service of that text: if each plug of each document of the world filled a gap,
/// all values together weigh no more than may be saved, and what the file holds is loaded again. Where there is no memory the
/// world is given up.
pub fn freeze_on(alloc: Global, text: &[u8], world: World) -> Result<Frozen, Memory>
    requires { length text.now ≤ MAX_FILE_BYTES }
    ensures same { IfOk result (λ f. f.world ≡ world) }
    ensures some { IfOk result (λ f. IfSome f.file (λ v. IsFileAgain world.service text.now (spec.saved_of world) v.items)) }
    ensures none { IfOk result (λ f. IfNone f.file (IsNoFile world.service text.now (spec.saved_of world))) }
{
    let parts = world.dismantle(alloc)?;
    freeze_on_parts(alloc, text, parts)
}

/// The same of the parts of a world.
fn freeze_on_parts(alloc: Global, text: &[u8], parts: Parts) -> Result<Frozen, Memory>
    requires text { length text.now ≤ MAX_FILE_BYTES }
    requires kept { IsKept (seen_of parts) }
    requires sound { ∥ IsSound (seen_of parts) ∥₁ }
    ensures same { IfOk result (λ f. f.world ≡ seen_of parts) }
    ensures some { IfOk result (λ f. IfSome f.file (λ v. IsFileAgain parts.checked.typed.service text.now (spec.saved_of (seen_of parts)) v.items)) }
    ensures none { IfOk result (λ f. IfNone f.file (IsNoFile parts.checked.typed.service text.now (spec.saved_of (seen_of parts)))) }
{
    let Parts {
        checked,
        next,
        first,
        shared,
        live,
    } = parts;
    let Ok(saved) = saved_of(alloc, next, first, shared, live) else {
        drop(checked);
        return Err(Memory);
    };
    match file_again(alloc, text, &checked, &saved) {
        Ok(file) => restored(alloc, checked, saved, file),
        Err(Memory) => {
            drop(checked);
            drop(saved);
            Err(Memory)
        }
    }
}
