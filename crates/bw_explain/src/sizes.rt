//! Sizes of documents, in items and attributes, those left open among them.
ghost use Rattle.std.specs.Prelude.{◌≡◌, ◌≤◌};
ghost use Rattle.bw_explain.specs.Sizes.{plus, if_so};
ghost use Rattle.bw_explain.specs.declared.sizes.TheConstants.{NONE};

/// The greatest size of a page that is given.
pub const MAX_SIZE: u32 = 4_096;

/// Stands for each greater size.
pub const PAST: u32 = MAX_SIZE + 1;

/// Stands for no document.
pub const NONE: u32 = MAX_SIZE + 2;

/// The sum of two sizes.
pub fn plus(a: u32, b: u32) -> u32
    requires a { a ≤ NONE }
    requires b { b ≤ NONE }
    ensures sum { result ≡ plus a b }
    ensures most { result ≤ NONE }
{
    (a + b).min(PAST).max(a.max(b))
}

/// The size where it may be.
pub fn if_so(holds: bool, size: u32) -> u32
    requires { size ≤ NONE }
    ensures is { result ≡ if_so holds size }
    ensures most { result ≤ NONE }
{
    if holds { size } else { NONE }
}
