// How many may send.

/// The senders of a front, at most.
pub const MAX_SENDERS: u8 = 64;
