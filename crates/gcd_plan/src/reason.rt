// What a parked block waits for.

use crate::numbers::{Blk, Obj};

/// What a parked block waits for.
#[derive(Clone, Copy, PartialEq, Eq)]
pub enum Reason {
    /// The end of a block: of one that it submitted (dispatch_sync(3), dispatch_barrier_sync(3)), or of another
    /// (dispatch_block_wait(3)).
    Block(Blk),
    /// A moment at which the group is empty, above this length of the history (dispatch_group_wait(3)).
    Group(Obj, u32),
    /// The ends of all blocks of the strip of this number (dispatch_apply(3)).
    Strip(u32),
    /// Its turn among the waits on the semaphore, which count from 1 (dispatch_semaphore_wait(3)).
    Rank(Obj, u32),
}
