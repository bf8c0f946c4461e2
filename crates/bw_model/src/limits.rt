//! The limits of a world.

/// The live sessions. Where one more begins, the one that wasn't used for the longest time gives way.
pub const MAX_LIVE: usize = 1_000;

/// The greatest number of a session, and of a turn.
pub const MAX_NUMBER: u32 = 4_294_967_295;
