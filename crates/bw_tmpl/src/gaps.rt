//! The gaps that pieces have.
ghost use Rattle.std.specs.Prelude.{◌≡◌, ◌≢◌, [], ◌∷◌, OnOk};
ghost use Rattle.std.specs.Bool.{MatchBool};
ghost use Rattle.bw_lang.specs.Table.Names.{with_names, Extends};
ghost use Rattle.bw_lang.specs.Template.PieceGaps.{value_gaps, attr_gaps, piece_gaps, gap_names};

use bw_lang::pieces::{Piece, RawAttr, RawValue};
use bw_lang::{GapNames, Memory, Name};

/// Takes in the name of a gap.
#[tactic(auto, using(crate::proofs::GapLaws::taking_in))]
fn add_name(gaps: &mut GapNames, name: &Name) -> Result<(), Memory>
    ensures ok { OnOk result (gaps.new ≡ with_names gaps.old (name.now ∷ [])) }
    ensures extends { Extends gaps.old gaps.new }
{
    // A table with no number left has 4,294,967,295 names, which take more memory than any text that is read: there
    // is none for a further name.
    if gaps.is_full() {
        return Err(Memory);
    }
    gaps.add(name.as_str())?;
    Ok(())
}

/// Takes in the name of the gap that the value is, if it is one.
fn add_value(gaps: &mut GapNames, value: &RawValue) -> Result<(), Memory>
    ensures ok { OnOk result (gaps.new ≡ with_names gaps.old (value_gaps value.now)) }
    ensures extends { Extends gaps.old gaps.new }
{
    match value {
        RawValue::Fixed(_) => Ok(()),
        RawValue::Hole(name) => add_name(gaps, name),
    }
}

/// Takes in the names of the gaps among the values of attributes.
#[tactic(auto, using(crate::proofs::GapLaws::taking_in))]
fn add_attrs(gaps: &mut GapNames, attrs: &[RawAttr]) -> Result<(), Memory>
    ensures ok { OnOk result (gaps.new ≡ with_names gaps.old (attr_gaps attrs.now)) }
    ensures extends { Extends gaps.old gaps.new }
{
    for attr in attrs {
        add_value(gaps, &attr.value)?;
    }
    Ok(())
}

/// Takes in the names of a piece's gaps.
#[tactic(auto, using(crate::proofs::GapLaws::taking_in))]
fn add_piece(gaps: &mut GapNames, piece: &Piece) -> Result<(), Memory>
    ensures ok { OnOk result (gaps.new ≡ with_names gaps.old (piece_gaps piece.now)) }
    ensures extends { Extends gaps.old gaps.new }
{
    match piece {
        Piece::Gap(name) => add_name(gaps, name),
        Piece::Start(tag) | Piece::Whole(tag) => add_attrs(gaps, tag.attrs.as_slice()),
        Piece::Text(_) | Piece::End(_) => Ok(()),
    }
}

/// Takes in the names of all gaps, in their order.
#[tactic(auto, using(crate::proofs::GapLaws::taking_in))]
pub fn add_all(gaps: &mut GapNames, pieces: &[Piece]) -> Result<(), Memory>
    ensures ok { OnOk result (gaps.new ≡ with_names gaps.old (gap_names pieces.now)) }
    ensures extends { Extends gaps.old gaps.new }
{
    for piece in pieces {
        add_piece(gaps, piece)?;
    }
    Ok(())
}

/// Whether the value is a gap.
fn is_hole(value: &RawValue) -> bool
    ensures { MatchBool result (value_gaps value.now ≢ []) (value_gaps value.now ≡ []) }
{
    matches!(value, RawValue::Hole(_))
}

/// Whether an attribute has a gap for its value.
pub fn has_hole(attrs: &[RawAttr]) -> bool
    ensures { MatchBool result (attr_gaps attrs.now ≢ []) (attr_gaps attrs.now ≡ []) }
{
    for attr in attrs {
        if is_hole(&attr.value) {
            return true;
        }
    }
    false
}

/// Whether the piece is a gap or has one.
fn piece_has_gap(piece: &Piece) -> bool
    ensures { MatchBool result (piece_gaps piece.now ≢ []) (piece_gaps piece.now ≡ []) }
{
    match piece {
        Piece::Gap(_) => true,
        Piece::Start(tag) | Piece::Whole(tag) => has_hole(tag.attrs.as_slice()),
        Piece::Text(_) | Piece::End(_) => false,
    }
}

/// Whether there is a gap.
pub fn any_gap(pieces: &[Piece]) -> bool
    ensures { MatchBool result (gap_names pieces.now ≢ []) (gap_names pieces.now ≡ []) }
{
    for piece in pieces {
        if piece_has_gap(piece) {
            return true;
        }
    }
    false
}
