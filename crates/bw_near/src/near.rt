//! Which of some names is nearest to a word.
ghost use Rattle.std.specs.Prelude.{◌≡◌, IfOk};
ghost use Rattle.bw_near.specs.Near as spec;

use bw_lang::{Bytes, Memory};
use std::alloc::Global;
use strsim::generic_levenshtein;

/// How many letters are changed, put in or left out between two words.
fn distance(alloc: Global, from: &[u8], to: &[u8]) -> Result<usize, Memory>
    ensures { IfOk result (λ d. d ≡ spec.distance from.now to.now) }
{
    Ok(generic_levenshtein(alloc, from, to)?)
}

/// Whether a name is nearer to the word than the nearest so far; where there is none yet, whether it is near: no more than
/// a third of the word's letters away.
fn is_nearer(alloc: Global, word: &[u8], best: &Option<Bytes>, name: &[u8]) -> Result<bool, Memory>
    ensures { IfOk result (λ b. b ≡ spec.is_nearer word.now best.now name.now) }
{
    let far = distance(alloc, word, name)?;
    match best {
        Some(best) => Ok(far < distance(alloc, word, best.as_slice())?),
        None => Ok(far <= word.len() / 3),
    }
}

/// Of the nearest name to a word so far and another one the nearer, and the first where both are as near. A name is near
/// that is no more than a third of the word's letters away.
pub fn nearer(
    alloc: Global,
    word: &[u8],
    best: Option<Bytes>,
    name: &[u8],
) -> Result<Option<Bytes>, Memory>
    ensures { IfOk result (λ o. o ≡ spec.nearer word.now best name.now) }
{
    if is_nearer(alloc, word, &best, name)? {
        Ok(Some(Bytes::of(alloc, name)?))
    } else {
        Ok(best)
    }
}
