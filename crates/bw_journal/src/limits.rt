//! The limits of a journal.

/// The bytes of a message: those of the longest head and of the longest body.
pub const MAX_MESSAGE_BYTES: usize = 81_920;

/// The bytes of an entry: a message with its length, its key and two checks.
pub const MAX_ENTRY_BYTES: usize = 81_948;

/// The bytes of a saved world: those of the longest file of saved sessions.
pub const MAX_SAVED_BYTES: usize = 69_206_016;
