//! The limits of a desk.

/// The number of a session is below this.
pub const MOST_SESSIONS: u32 = 64;

/// The calls of all sessions together.
pub const MOST_CALLS: u32 = 10_000;
