//! What plugs make: edges, labels, and the members that stay.
ghost use Rattle.std.specs.Prelude.{◌≡◌, ◌||◌, ◌==◌, not, [], if◌then◌else◌, IfOk};
ghost use Rattle.std.specs.Ordering.{nat_cmp};
ghost use Rattle.bw_solve.specs.Sets.{has, sifted};
ghost use Rattle.bw_strings.specs.Strings.{is_none};
ghost use Rattle.bw_sum.specs.Labels.{pair_cmp, labels_at};
ghost use Rattle.bw_sum.specs.Edges.{edge_cmp, edges_from, edges_at};

use crate::labels::Labels;
use bw_lang::{GapId, Memory, TemplateId};
use bw_solve::Set;
use bw_strings::StrSet;
use std::alloc::Global;

/// An edge from each template where a gap is tracked to each root.
pub fn new_edges(
    alloc: Global,
    tracks: &Set<(GapId, TemplateId)>,
    gap: GapId,
    roots: &Set<TemplateId>,
) -> Result<Set<(TemplateId, GapId, TemplateId)>, Memory>
    ensures { IfOk result (λ s. s ≡ edges_at [] tracks.now gap roots.now) }
{
    let mut all = Set::new(alloc);
    for track in tracks.as_slice() {
        if track.0 == gap {
            all = linked(all, track.1, gap, roots)?;
        }
    }
    Ok(all)
}

// The edges, and one from the gap in a template to each root.
fn linked(
    edges: Set<(TemplateId, GapId, TemplateId)>,
    from: TemplateId,
    gap: GapId,
    roots: &Set<TemplateId>,
) -> Result<Set<(TemplateId, GapId, TemplateId)>, Memory>
    ensures { IfOk result (λ s. s ≡ edges_from edges from gap roots.now) }
{
    let mut all = edges;
    for root in roots.as_slice() {
        all.add((from, gap, *root))?;
    }
    Ok(all)
}

/// The tracks of other gaps.
pub fn other_tracks(
    alloc: Global,
    tracks: &Set<(GapId, TemplateId)>,
    gap: GapId,
) -> Result<Set<(GapId, TemplateId)>, Memory>
    ensures { IfOk result (λ s. s ≡ sifted pair_cmp (λ t. not (t.0 == gap)) [] tracks.now) }
{
    let mut all = Set::new(alloc);
    for track in tracks.as_slice() {
        if track.0 != gap {
            all.add(*track)?;
        }
    }
    Ok(all)
}

// Whether a gap is this gap or is in a set.
fn is_kept(lack: GapId, gap: GapId, others: &Set<GapId>) -> bool
    ensures { result ≡ ((lack == gap) || has nat_cmp others.now lack) }
{
    lack == gap || others.contains(&lack)
}

/// The gaps of a set that are this gap or are in another set too.
pub fn lacking(
    alloc: Global,
    lacks: &Set<GapId>,
    gap: GapId,
    others: &Set<GapId>,
) -> Result<Set<GapId>, Memory>
    ensures { IfOk result (λ s. s ≡ sifted nat_cmp (λ h. (h == gap) || has nat_cmp others.now h) [] lacks.now) }
{
    let mut all = Set::new(alloc);
    for lack in lacks.as_slice() {
        if is_kept(*lack, gap, others) {
            all.add(*lack)?;
        }
    }
    Ok(all)
}

/// A label for each template where the gap is tracked; none for no string.
pub fn text_labels(
    alloc: Global,
    tracks: &Set<(GapId, TemplateId)>,
    gap: GapId,
    strings: &StrSet,
) -> Result<Labels, Memory>
    ensures { IfOk result (λ l. l ≡ (if is_none strings.now then [] else labels_at tracks.now gap strings.now)) }
{
    if strings.is_none() {
        return Ok(Labels::new(alloc));
    }
    Labels::at_tracks(alloc, tracks, gap, strings)
}
