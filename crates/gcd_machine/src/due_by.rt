// What is due.
use gcd_plan::{Blk, Obj};

/// What is due at a moment (this project's own rule).
#[derive(Clone, Copy, Debug, PartialEq, Eq)]
pub enum DueBy {
    /// The timer is due (dispatch_source_set_timer(3)).
    Timer(Obj),
    /// The wait of the block reaches its limit (dispatch_semaphore_wait(3), dispatch_group_wait(3)).
    Wait(Blk),
}
