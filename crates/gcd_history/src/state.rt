// How far a run has come.

/// How far a history has come (this project's own rule).
#[derive(Clone, Copy, Debug, PartialEq, Eq)]
pub enum State {
    /// Nothing can come any more, and each submitted block has ended.
    Drained,
    /// Nothing can come any more, and a submitted block has not ended.
    Stuck,
    /// The last event is a misuse.
    Misused,
    /// The last event is a halt.
    Halted,
    /// None of these: an event can still come.
    Live,
}
