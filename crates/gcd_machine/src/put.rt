// What putting an event behind a history comes to.
use gcd_plan::Why;

/// The answer of a call that puts an event behind a history. Other workers may put events behind the same history.
#[derive(Clone, Copy, Debug, PartialEq, Eq)]
pub enum Put {
    /// The event stands in the history, with this many events before it.
    Placed(u32),
    /// The history had this many events at a moment of the call, and the first reason why the event may not come next.
    Barred { at: u32, why: Why },
    /// The event may come next, but its place still has event number `passed`, which the worker `by` has not read for good. No worker of
    /// a lower number holds it.
    Held { by: u8, passed: u64 },
    /// The history has as many events as it may have.
    Full,
}
