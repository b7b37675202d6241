// What a poller tells of one feed.

/// What came from one feed since it was last told of.
#[derive(Clone, Copy, Default, PartialEq, Eq)]
pub struct Tell {
    /// The feed: the number of its source, below [`MAX_FEEDS`](crate::MAX_FEEDS).
    pub feed: u32,
    /// How many bytes came, at most [`MAX_TELL_BYTES`](crate::MAX_TELL_BYTES).
    pub bytes: u32,
    /// Whether the feed has ended: nothing more comes from it.
    pub ended: bool,
}
