//! Limits of visits.

/// The bytes of a script.
pub const MAX_SCRIPT_BYTES: usize = 1_048_576;

/// The bytes that a reply has room for.
pub const MAX_REPLY_BYTES: usize = 4_195_328;
