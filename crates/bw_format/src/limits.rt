//! The limits of formats.

/// The bytes of a file of formats.
pub const MAX_FORMATS_BYTES: usize = 65_536;

/// The formats of a file.
pub const MAX_FORMATS: usize = 128;

/// The characters of a pattern. So it has as many places at most.
pub const MAX_PATTERN_CHARS: usize = 256;

/// The parentheses of a pattern that stand inside one another.
pub const MAX_GROUPS: usize = 16;

/// The steps of a pattern: for each character three at most.
pub const MAX_STEPS: usize = 768;
