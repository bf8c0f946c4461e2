//! What a test is about.

/// What a test is about, in its declaration.
#[derive(Clone, Copy, PartialEq, Eq)]
pub enum Site {
    /// These tokens, from one on and in front of another, counted from the declaration's first.
    Tokens(usize, usize),
    /// This token, the variable that a receive sets, counted in the same way.
    Target(usize),
    /// The literal of a shared variable.
    Literal,
    /// In a template the start tag of this number.
    StartTag(usize),
    /// In a template the gap of this number outside tags.
    Hole(usize),
}

/// Why there is no place behind.
#[derive(Clone, Copy, PartialEq, Eq)]
pub enum Missed {
    /// A test fails, the first one, and this is what it is about.
    At(Site),
    /// There was no memory.
    Memory,
}

/// The first declaration with a test that fails, counted from 0, and what its first one is about.
#[derive(Clone, Copy, PartialEq, Eq)]
pub struct Blamed {
    pub declaration: usize,
    pub site: Site,
}
