//! Attributes that a tag names twice.
ghost use Rattle.std.specs.Prelude.{◌≡◌, [], IfOk};
ghost use Rattle.std.specs.List.{list_any};
ghost use Rattle.bw_lang.specs.Table.Names.{same};
ghost use Rattle.bw_lang.specs.Template.RepeatedAttributes as spec;

use bw_lang::pieces::{Piece, RawAttr};
use bw_lang::{Memory, Name, NameTable};
use std::alloc::Global;

/// So many attributes at most are compared each with each, which takes no memory.
const FEW: usize = 8;

/// Whether an attribute has the name.
fn is_named(name: &Name, attrs: &[RawAttr]) -> bool
    ensures { result ≡ list_any (same name.now) (spec.attr_names attrs.now) }
{
    for attr in attrs {
        if *name == attr.name {
            return true;
        }
    }
    false
}

/// Whether two of a few attributes have the same name.
fn few_repeat(attrs: &[RawAttr]) -> bool
    ensures { result ≡ spec.repeated (spec.attr_names attrs.now) }
{
    let mut rest = attrs;
    'names: loop {
        match rest {
            [] => return false,
            [first, after @ ..] => {
                if is_named(&first.name, after) {
                    return true;
                }
                rest = after;
            }
        }
    }
}

/// Whether two of many attributes have the same name, found with a table of those that were seen.
fn many_repeat(alloc: Global, attrs: &[RawAttr]) -> Result<bool, Memory>
    ensures { IfOk result (λ b. b ≡ spec.repeated (spec.attr_names attrs.now)) }
{
    let mut seen = NameTable::new(alloc);
    let repeats = repeat_behind(&mut seen, attrs);
    drop(seen);
    repeats
}

/// Whether two of the attributes have the same name, where none was seen yet.
fn repeat_behind(seen: &mut NameTable, attrs: &[RawAttr]) -> Result<bool, Memory>
    requires { seen.old ≡ [] }
    ensures { IfOk result (λ b. b ≡ spec.repeated (spec.attr_names attrs.now)) }
{
    for attr in attrs {
        let count = seen.len();
        if seen.add(attr.name.as_str())? < count {
            return Ok(true);
        }
    }
    Ok(false)
}

/// Whether two of the attributes have the same name. It takes time in proportion to their number.
pub fn is_repeated(alloc: Global, attrs: &[RawAttr]) -> Result<bool, Memory>
    ensures { IfOk result (λ b. b ≡ spec.repeated (spec.attr_names attrs.now)) }
{
    if attrs.len() <= FEW {
        Ok(few_repeat(attrs))
    } else {
        many_repeat(alloc, attrs)
    }
}

/// Whether the piece is a tag that names an attribute twice.
fn piece_repeats(alloc: Global, piece: &Piece) -> Result<bool, Memory>
    ensures { IfOk result (λ b. b ≡ spec.piece_repeats piece.now) }
{
    match piece {
        Piece::Start(tag) | Piece::Whole(tag) => is_repeated(alloc, tag.attrs.as_slice()),
        Piece::Text(_) | Piece::Gap(_) | Piece::End(_) => Ok(false),
    }
}

/// Whether a tag names an attribute twice.
pub fn any_repeats(alloc: Global, pieces: &[Piece]) -> Result<bool, Memory>
    ensures { IfOk result (λ b. b ≡ spec.repeats pieces.now) }
{
    for piece in pieces {
        if piece_repeats(alloc, piece)? {
            return Ok(true);
        }
    }
    Ok(false)
}
