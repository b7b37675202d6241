// The limits of what a poller watches and tells.

/// Feeds are numbered below this.
pub const MAX_FEEDS: u32 = 1024;

/// The most tells in one answer.
pub const MAX_TELLS: usize = 64;

/// The most bytes in one tell: 2^31 - 1.
pub const MAX_TELL_BYTES: u32 = 2_147_483_647;
