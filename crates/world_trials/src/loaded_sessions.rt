//! What is loaded from files of saved sessions.
ghost use Rattle.std.specs.Prelude.{IfOk};
ghost use Rattle.bw_load.specs.Loaded.{world_of};
ghost use Rattle.bw_load.specs.Loads as spec;
ghost use Rattle.bw_sound.specs.Worlds.{IsSoundWorld};

use bw_check::Checked;
use bw_load::{LoadFault, load};
use bw_saved::Saved;
use std::alloc::Global;

/// `load`: what the sessions carry and show isn't tested.
pub fn loaded(
    alloc: Global,
    bytes: &[u8],
    text: &[u8],
    checked: &Checked,
) -> Result<Saved, LoadFault>
    ensures loaded { spec.IsLoaded result (spec.loaded checked.now.typed.service checked.now.facts text.now bytes.now) }
    ensures sound { IfOk result (λ s. ∥ IsSoundWorld checked.now.typed.service (world_of checked.now.typed.service s) ∥₁) }
{
    load(alloc, bytes, text, checked)
}
