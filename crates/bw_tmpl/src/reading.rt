//! Templates are read.
ghost use Rattle.std.specs.Prelude.{◌≡◌, ◌≢◌, ◌≤◌, ℕ, List, [], length, None, Some, MatchOption, MatchResult, OnOk, IfOk, IfErr};
ghost use Rattle.bw_tmpl.specs.AtOnce.{at_once as at_once_spec};
ghost use Rattle.bw_lang.specs.Document.Documents.{count};
ghost use Rattle.bw_lang.specs.Table.Names.{with_names, Extends};
ghost use Rattle.bw_tmpl.specs.Steps.Checks.{Passes, Fails};
ghost use Rattle.bw_lang.specs.Template.PieceGaps.{gap_names};
ghost use Rattle.bw_lang.specs.Template.Pieces.{SpellsPieces};
ghost use Rattle.bw_lang.specs.Template.Templates.{IsTemplate, IsClosedTemplate};
ghost use Rattle.bw_tmpl.specs.Refusals.{IsTemplateRefused, IsClosedRefused};
ghost use Rattle.bw_lang.specs.declared.pieces.Piece.{Piece as Piece_};
ghost use Rattle.bw_lang.specs.declared.limits.TheConstants.{MAX_TEMPLATE_NEST};

use crate::at_once::at_once;
use crate::building::items_of;
use crate::fault::TmplFault;
use crate::gaps::{add_all, any_gap};
use crate::nesting::depth_of;
use crate::repeats::any_repeats;
use crate::tags::pieces_of;
use bw_lang::limits::MAX_TEMPLATE_NEST;
use bw_lang::pieces::Piece;
use bw_lang::{GapNames, Items, Memory};
use std::alloc::Global;

/// Refuses pieces that can't be built. The tags are paired and counted here, so that no refused text is built.
fn check(alloc: Global, pieces: &[Piece], most: u32) -> Result<(), TmplFault>
    ensures { MatchResult result (λ _. Passes most pieces.now) (λ e. Fails most pieces.now e) }
{
    if any_repeats(alloc, pieces)? {
        return Err(TmplFault::RepeatedAttribute);
    }
    let depth = depth_of(alloc, pieces)?;
    if depth > most as usize {
        return Err(TmplFault::Nesting);
    }
    Ok(())
}

/// Reads the inside of a template of a service, the bytes between `<html>` and `</html>`: its items, whose gaps
/// have their numbers by `gaps`. The names of its gaps are taken in there, in the order in which they stand, so
/// that each is in the table afterwards, and the numbers of the others stay.
///
/// It refuses, in this order: `Malformed` where the bytes are no list of pieces, `RepeatedAttribute` where a tag
/// names an attribute twice, `Mismatched` where the tags don't pair, and `Nesting` where more than
/// `MAX_TEMPLATE_NEST` elements stand inside one another. Then `gaps` is as it was. After `Memory`, which may come
/// at any time, it may have new names behind the old ones.
pub fn read_template(alloc: Global, bytes: &[u8], gaps: &mut GapNames) -> Result<Items, TmplFault>
    ensures items { MatchResult result (λ f. IsTemplate gaps.new MAX_TEMPLATE_NEST bytes.now f) (λ e. IsTemplateRefused MAX_TEMPLATE_NEST bytes.now e) }
    ensures names { OnOk result ((ps : List Piece_) → SpellsPieces ps bytes.now → gaps.new ≡ with_names gaps.old (gap_names ps)) }
    ensures numbered { IfOk result (λ f. (g : ℕ) → length gaps.new ≤ g → count g f ≡ 0) }
    ensures extends { Extends gaps.old gaps.new }
    ensures unchanged { IfErr result (λ e. e ≢ TmplFault.Memory → gaps.new ≡ gaps.old) }
{
    let list = pieces_of(alloc, bytes)?;
    let pieces = list.as_slice();
    check(alloc, pieces, MAX_TEMPLATE_NEST)?;
    add_all(gaps, pieces)?;
    items_of(alloc, pieces, gaps)
}

/// The items of a text without gaps, or none where there is a reason to refuse it.
fn closed_at_once(alloc: Global, bytes: &[u8], most: u32) -> Result<Option<Items>, Memory>
    ensures { IfOk result (λ o. MatchOption o (at_once_spec [] most bytes.now ≡ None) (λ f. at_once_spec [] most bytes.now ≡ Some f)) }
{
    let gaps = GapNames::new(alloc);
    let items = at_once(alloc, most as usize, bytes, &gaps);
    drop(gaps);
    items
}

/// Reads a text without gaps by the list of its pieces, which tells the first reason to refuse it.
fn closed_by_pieces(alloc: Global, bytes: &[u8], most: u32) -> Result<Items, TmplFault>
    ensures items { MatchResult result (λ f. IsClosedTemplate most bytes.now f) (λ e. IsClosedRefused most bytes.now e) }
    ensures closed { IfOk result (λ f. (g : ℕ) → count g f ≡ 0) }
{
    let list = pieces_of(alloc, bytes)?;
    let pieces = list.as_slice();
    if any_gap(pieces) {
        return Err(TmplFault::Malformed);
    }
    check(alloc, pieces, most)?;
    items_of(alloc, pieces, &GapNames::new(alloc))
}

/// Reads a template without gaps, as the text of a page, where at most `most` elements may stand inside one
/// another. It refuses as `read_template` does, and a gap is `Malformed`.
pub fn read_closed(alloc: Global, bytes: &[u8], most: u32) -> Result<Items, TmplFault>
    ensures items { MatchResult result (λ f. IsClosedTemplate most bytes.now f) (λ e. IsClosedRefused most bytes.now e) }
    ensures closed { IfOk result (λ f. (g : ℕ) → count g f ≡ 0) }
{
    match closed_at_once(alloc, bytes, most)? {
        Some(items) => Ok(items),
        None => closed_by_pieces(alloc, bytes, most),
    }
}
