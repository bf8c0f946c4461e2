//! The limits of saved sessions.

/// The bytes of a file of saved sessions.
pub const MAX_SAVED_BYTES: usize = 69_206_016;

/// The weight of all that is saved: of the shared variables and of what each session carries.
pub const MAX_SAVED_WEIGHT: u64 = 67_108_864;

/// The version of the layout that is read and written.
pub const VERSION: u8 = 1;
