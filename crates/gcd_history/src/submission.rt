// A block that was submitted.

use gcd_plan::{Blk, Obj};

/// A block that was submitted: the node on which it waits until its start, None for `main` alone, and whether it is a
/// barrier (dispatch_async(3), dispatch_barrier_async(3)).
#[derive(Clone, Copy)]
pub struct Submission {
    /// The block.
    pub blk: Blk,
    /// The queue or source on which it was submitted.
    pub node: Option<Obj>,
    /// Whether it was submitted as a barrier.
    pub barrier: bool,
}
