//! Refusals shown in the source.
ghost use Rattle.std.specs.Prelude.{◌≡◌, ◌≤◌, ◌++◌, length, OnOk};
ghost use Rattle.bw_excerpt.specs.Columns as columns;
ghost use Rattle.bw_excerpt.specs.Excerpts as lines;

use bw_excerpt::{Paper, Place, Spot};
use bw_lang::Memory;

/// The line and the column of a place: a column is a character.
pub fn spot_of(text: &[u8], at: usize) -> Spot
    requires { at ≤ length text.now }
    ensures { result ≡ columns.spot_of text.now at }
{
    bw_excerpt::spot_of(text, at)
}

/// The lines that show a place: its marks.
pub fn push_excerpt(
    out: &mut Vec<u8>,
    wide: usize,
    arrow: &[u8],
    paper: Paper<'_>,
    place: Place,
) -> Result<(), Memory>
    ensures { OnOk result (out.new.items ≡ out.old.items ++ lines.excerpt wide arrow.now paper.entry.name.now paper.entry.text.now place) }
{
    bw_excerpt::push_excerpt(out, wide, arrow, paper, place)
}
