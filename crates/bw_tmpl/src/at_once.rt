//! A text without gaps becomes items while it is read. No list of its pieces is kept, since a page may be long.
ghost use Rattle.std.specs.Prelude.{◌≡◌, None, Some, IfOk, MatchOption};
ghost use Rattle.bw_tmpl.specs.AtOnce as spec;

use crate::building::Draft;
use crate::fault::TmplFault;
use crate::gaps::has_hole;
use crate::repeats::is_repeated;
use crate::tags::next_piece;
use bw_lang::pieces::{Piece, Tag};
use bw_lang::{GapNames, Items, Memory};
use std::alloc::Global;

/// Whether a tag inside so many elements is within the limit, has no gap and names no attribute twice.
fn tag_suits(alloc: Global, most: usize, around: usize, tag: &Tag) -> Result<bool, Memory>
    ensures { IfOk result (λ b. b ≡ spec.tag_suits most around tag.now) }
{
    let attrs = tag.attrs.as_slice();
    if around >= most || has_hole(attrs) {
        return Ok(false);
    }
    Ok(!is_repeated(alloc, attrs)?)
}

/// Whether a piece is no gap, and no tag that doesn't suit.
fn suits(alloc: Global, most: usize, around: usize, piece: &Piece) -> Result<bool, Memory>
    ensures { IfOk result (λ b. b ≡ spec.suits most around piece.now) }
{
    match piece {
        Piece::Text(_) | Piece::End(_) => Ok(true),
        Piece::Gap(_) => Ok(false),
        Piece::Start(tag) | Piece::Whole(tag) => tag_suits(alloc, most, around, tag),
    }
}

impl Draft {
    /// Takes the next piece in, if it suits and the tags pair so far, and says whether it does.
    fn take_suiting(
        &mut self,
        alloc: Global,
        most: usize,
        piece: Piece,
        gaps: &GapNames,
    ) -> Result<bool, Memory>
        ensures { IfOk result (λ b. spec.Tells b (spec.suiting gaps.now most self.old piece) self.new) }
    {
        match suits(alloc, most, self.parents.len(), &piece) {
            Ok(true) => match self.take_whole(piece, gaps) {
                Ok(()) => Ok(true),
                Err(TmplFault::Mismatched) => Ok(false),
                Err(_) => Err(Memory),
            },
            unsuited => {
                drop(piece);
                unsuited
            }
        }
    }

    /// Takes all pieces in, and says whether all of the bytes are such pieces.
    fn fill(
        &mut self,
        alloc: Global,
        most: usize,
        bytes: &[u8],
        gaps: &GapNames,
    ) -> Result<bool, Memory>
        ensures { IfOk result (λ b. spec.Tells b (spec.filled gaps.now most self.old bytes.now) self.new) }
    {
        let mut rest = bytes;
        'pieces: loop {
            match next_piece(alloc, rest) {
                Ok((piece, after)) => {
                    if !self.take_suiting(alloc, most, piece, gaps)? {
                        return Ok(false);
                    }
                    rest = after;
                }
                Err(TmplFault::Malformed) => return Ok(rest.is_empty()),
                Err(_) => return Err(Memory),
            }
        }
    }
}

/// The items that a text reads as, or none where it has a gap or doesn't read.
pub fn at_once(
    alloc: Global,
    most: usize,
    bytes: &[u8],
    gaps: &GapNames,
) -> Result<Option<Items>, Memory>
    ensures { IfOk result (λ o. MatchOption o (spec.at_once gaps.now most bytes.now ≡ None) (λ f. spec.at_once gaps.now most bytes.now ≡ Some f)) }
{
    let mut draft = Draft::new(alloc);
    match draft.fill(alloc, most, bytes, gaps) {
        Ok(true) => Ok(draft.finish()),
        Ok(false) => {
            drop(draft);
            Ok(None)
        }
        Err(Memory) => {
            drop(draft);
            Err(Memory)
        }
    }
}
