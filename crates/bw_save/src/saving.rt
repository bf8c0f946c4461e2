//! Saving of sessions.
ghost use Rattle.std.specs.Prelude.{◌≡◌, ◌<◌, ◌≤◌, ◌^◌, ◌++◌, length, IfOk, IfErr, OnOk};
ghost use Rattle.std.specs.List.{All};
ghost use Rattle.bw_lang.specs.declared.limits.TheConstants.{MAX_FILE_BYTES};
ghost use Rattle.bw_load.specs.Loads.{loaded, by_cells, uncovered};
ghost use Rattle.bw_save.specs.Fitting.{FitValues, FitsRecord};
ghost use Rattle.bw_save.specs.Saves.{IsSaveFault, MayBeWritten};
ghost use Rattle.bw_saved.specs.declared.limits.TheConstants.{MAX_SAVED_WEIGHT};
ghost use Rattle.bw_flow.specs.Layout.{flow_of};
ghost use Rattle.bw_saved.specs.Sessions.Demands.{IsSaved};
ghost use Rattle.bw_saved.specs.Sessions.Layout as layout;
ghost use Rattle.bw_saved.specs.Sessions.Weights as weights;

use crate::fields::{put_text, put_u32, put_u64};
use crate::sessions::put_sessions;
use crate::values::put_variables;
use crate::weights::total_weight;
use bw_check::Checked;
use bw_flow::Flow;
use bw_lang::Memory;
use bw_load::laws::saved_is_loaded;
use bw_saved::Saved;
use bw_saved::limits::MAX_SAVED_WEIGHT;
use std::alloc::Global;

/// Why nothing is saved.
#[derive(Drop)]
pub enum SaveFault {
    /// All values weigh so much, as far as 64 bits go: more than 67,108,864.
    TooLong(u64),
    /// There was no memory.
    Memory,
}

impl From<Memory> for SaveFault {
    ghost use Rattle.std.specs.Prelude.{◌≡◌};
    ghost use Rattle.bw_save.specs.declared.saving.SaveFault.TheVariants.{Memory as NoMemory};

    ghost from_gives = { λ _ e. e ≡ NoMemory };

    fn from(_error: Memory) -> SaveFault {
        SaveFault::Memory
    }
}

/// The file.
fn put_file(
    alloc: Global,
    text: &[u8],
    flow: &Flow,
    saved: &Saved,
    out: &mut Vec<u8>,
) -> Result<(), Memory>
    requires text { length text.now < 2 ^ 32 }
    requires few { length saved.now.records < 2 ^ 32 }
    requires shared { FitValues saved.now.shared }
    requires sessions { All FitsRecord saved.now.records }
    ensures { OnOk result (out.new.items ≡ out.old.items ++ layout.file flow.now.steps text.now saved.now) }
{
    out.extend_from_slice(b"BWSAVE1\n")?;
    put_text(out, text)?;
    put_u64(out, saved.next)?;
    put_u32(out, saved.first)?;
    put_variables(alloc, out, &saved.shared)?;
    put_u32(out, saved.records.len() as u32)?;
    put_sessions(alloc, flow, out, saved.records.as_slice())?;
    Ok(())
}

/// The file of what waits, for a service of that text. TooLong comes exactly where all values weigh more than may be saved;
/// where they don't, and there is memory, there is a file. What may be saved is loaded again from it, unless a value isn't
/// below its cell.
pub fn save(
    alloc: Global,
    text: &[u8],
    checked: &Checked,
    saved: &Saved,
) -> Result<Vec<u8>, SaveFault>
    requires text { length text.now ≤ MAX_FILE_BYTES }
    requires written { MayBeWritten checked.now.typed.service saved.now }
    ensures file { IfOk result (λ v. v.items ≡ layout.file (flow_of checked.now.typed.service) text.now saved.now) }
    ensures light { IfOk result (λ v. weights.total_weight saved.now ≤ MAX_SAVED_WEIGHT) }
    ensures loads { IfOk result (λ v. IsSaved checked.now.typed.service saved.now →
        loaded checked.now.typed.service checked.now.facts text.now v.items ≡
        by_cells saved.now (uncovered checked.now.typed.service checked.now.facts saved.now)) }
    ensures fault { IfErr result (IsSaveFault (weights.total_weight saved.now)) }
{
    saved_is_loaded();
    let weight = total_weight(saved);
    if weight > MAX_SAVED_WEIGHT {
        return Err(SaveFault::TooLong(weight));
    }
    let mut out = Vec::new(alloc);
    put_file(alloc, text, checked.flow(), saved, &mut out)?;
    Ok(out)
}
