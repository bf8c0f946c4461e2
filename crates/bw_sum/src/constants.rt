//! The parts of the summary of a template.
ghost use Rattle.std.specs.Prelude.{◌≡◌, IfOk};
ghost use Rattle.bw_sum.specs.Constants.{tracked, lacked};

use crate::opening::opens;
use bw_lang::{GapId, Items, Memory, TemplateId};
use bw_solve::Set;
use std::alloc::Global;

/// A track for each of the first so many gaps that is open in the items of a template.
pub fn tracks_of(
    alloc: Global,
    template: TemplateId,
    items: &Items,
    gaps: u32,
) -> Result<Set<(GapId, TemplateId)>, Memory>
    ensures { IfOk result (λ s. s ≡ tracked template items.now gaps) }
{
    let mut all = Set::new(alloc);
    for number in 0..gaps {
        if opens(items, GapId::of(number)) {
            all.add((GapId::of(number), template))?;
        }
    }
    Ok(all)
}

/// Those of the first so many gaps that aren't open in the items of a template.
pub fn lacks_of(alloc: Global, items: &Items, gaps: u32) -> Result<Set<GapId>, Memory>
    ensures { IfOk result (λ s. s ≡ lacked items.now gaps) }
{
    let mut all = Set::new(alloc);
    for number in 0..gaps {
        if !opens(items, GapId::of(number)) {
            all.add(GapId::of(number))?;
        }
    }
    Ok(all)
}
