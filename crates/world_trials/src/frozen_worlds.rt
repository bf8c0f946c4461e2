//! Worlds as files.
ghost use Rattle.std.specs.Prelude.{◌≡◌, ◌≤◌, length, IfOk};
ghost use Rattle.bw_lang.specs.declared.limits.TheConstants.{MAX_FILE_BYTES};
ghost use Rattle.bw_save.specs.Filled as filled;
ghost use Rattle.bw_save.specs.Saves.{MayBeWritten};
ghost use Rattle.bw_flow.specs.Layout.{flow_of};
ghost use Rattle.bw_saved.specs.Sessions.Layout as layout;

use bw_check::Checked;
use bw_lang::Memory;
use bw_save::{SaveFault, is_all_filled, save};
use bw_saved::Saved;
use bw_types::Typed;
use std::alloc::Global;

/// `save`: another key of a session.
pub fn saved(
    alloc: Global,
    text: &[u8],
    checked: &Checked,
    saved: &Saved,
) -> Result<Vec<u8>, SaveFault>
    requires text { length text.now ≤ MAX_FILE_BYTES }
    requires written { MayBeWritten checked.now.typed.service saved.now }
    ensures file { IfOk result (λ v. v.items ≡ layout.file (flow_of checked.now.typed.service) text.now saved.now) }
{
    save(alloc, text, checked, saved)
}

/// `is_all_filled`: a plug that filled nothing.
pub fn all_filled(alloc: Global, typed: &Typed, saved: &Saved) -> Result<bool, Memory>
    ensures { IfOk result (λ b. b ≡ filled.is_all_filled typed.now.service saved.now) }
{
    is_all_filled(alloc, typed, saved)
}
