//! The limits that are decided on the tokens of a service alone.
ghost use Rattle.std.specs.Prelude.{◌≡◌, ◌-◌, ◌<◌, ◌^◌, find, nat_lt};
ghost use Rattle.bw_lang.specs.Text.Brackets as spec;
ghost use Rattle.bw_lang.specs.declared.limits.TheConstants.{MAX_STRETCH};

use crate::passing::{over, passed};
use bw_lang::limits::{MAX_NESTING, MAX_STRETCH};
use bw_lang::{Lexeme, Limit};

fn is_opening(sign: &[u8]) -> bool
    ensures { result ≡ spec.is_opening sign.now }
{
    matches!(sign, b"{" | b"(" | b"[" | b"<[")
}

fn is_closing(sign: &[u8]) -> bool
    ensures { result ≡ spec.is_closing sign.now }
{
    matches!(sign, b"}" | b")" | b"]")
}

/// How many brackets are open behind the lexeme, where so many are in front of it. One that closes none changes nothing.
pub fn depth_behind(depth: u64, lexeme: &Lexeme) -> u64
    requires { depth < 2 ^ 64 - 1 }
    ensures { result ≡ spec.depth_behind depth lexeme.now }
{
    match lexeme {
        Lexeme::Sign(sign) => {
            let sign = sign.as_slice();
            if is_opening(sign) {
                depth + 1
            } else if is_closing(sign) {
                depth.saturating_sub(1)
            } else {
                depth
            }
        }
        _ => depth,
    }
}

/// The greatest number of brackets that are open at once.
#[tactic(auto, using(crate::proofs::BracketSteps::bracket_steps))]
fn deepest(lexemes: &[Lexeme]) -> u64
    ensures { result ≡ spec.deepest 0 lexemes.now }
{
    let mut deepest = 0;
    let mut depth = 0;
    for lexeme in lexemes {
        deepest = deepest.max(depth);
        depth = depth_behind(depth, lexeme);
    }
    deepest.max(depth)
}

/// Whether the lexeme ends a stretch: `;`, `{` or `}`.
pub fn ends_stretch(lexeme: &Lexeme) -> bool
    ensures { result ≡ spec.ends_stretch lexeme.now }
{
    match lexeme {
        Lexeme::Sign(sign) => { matches!(sign.as_slice(), b";" | b"{" | b"}") }
        _ => false,
    }
}

/// The length of the first stretch that is longer than the longest that is read.
#[tactic(auto, using(crate::proofs::BracketSteps::bracket_steps))]
fn long_stretch(lexemes: &[Lexeme]) -> Option<u64>
    ensures { result ≡ find (nat_lt MAX_STRETCH) (spec.stretches 0 lexemes.now) }
{
    let mut length = 0;
    for lexeme in lexemes {
        if !ends_stretch(lexeme) {
            length += 1;
        } else if length > MAX_STRETCH {
            return Some(length);
        } else {
            length = 0;
        }
    }
    over(MAX_STRETCH, length)
}

/// The first of the limits on brackets and stretches that the lexemes pass, with the number that does: the depth of
/// open brackets (64 at most), and the tokens in a row without `;`, `{` or `}` (500 at most). A bracket that closes
/// none changes no depth. It takes no memory.
pub fn too_deep(lexemes: &[Lexeme]) -> Option<(Limit, u64)>
    ensures { result ≡ spec.too_deep lexemes.now }
{
    let nesting = over(MAX_NESTING, deepest(lexemes));
    let stretch = long_stretch(lexemes);
    passed(Limit::Nesting, nesting).or(passed(Limit::Stretch, stretch))
}
