// How long worker 0 listens.

/// After so many empty answers of the poller in a row each live feed is taken to have ended.
pub const EMPTY_ANSWERS: u32 = 1_000;

/// How long a poll waits at most, in milliseconds.
pub const POLL_WAIT: u32 = 10;

/// How many pieces of news there may be: two a tell of one answer, or one for each object of a plan.
pub const MAX_NEWS: usize = 1_024;
