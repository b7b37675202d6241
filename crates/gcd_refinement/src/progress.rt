// What a machine keeps of each block and of each source.

use gcd_plan::{Blk, Obj};

/// What a block has come to.
#[derive(Clone, Copy)]
pub struct BlockProgress {
    /// The queue or source on which it was submitted; None for `main`, and before the submission (dispatch_async(3)).
    pub node: Option<Obj>,
    /// Whether it was submitted as a barrier (dispatch_barrier_async(3)).
    pub barrier: bool,
    /// Whether it has started.
    pub started: bool,
    /// How many acts it has made, at most [`gcd_plan::MAX_ACTS`].
    pub done: u32,
    /// The group that counts it until its end (dispatch_group_async(3)).
    pub group: Option<Obj>,
    /// The queue to which it goes once the group at which it waits is empty, or the block for whose end it waits has ended
    /// (dispatch_group_notify(3), dispatch_block_notify(3)).
    pub home: Obj,
    /// The block that submitted it and waits for its end (dispatch_sync(3), dispatch_barrier_sync(3)).
    pub caller: Option<Blk>,
}

/// What a source's handler has come to.
#[derive(Clone, Copy)]
pub struct HandlerProgress {
    /// How many acts it has made since the last delivery, at most [`gcd_plan::MAX_ACTS`].
    pub done: u32,
    /// How many due times of a timer the deliveries have handed over (dispatch_source_set_timer(3)).
    pub taken: u64,
    /// What the last delivery handed over, 0 before one (dispatch_source_get_data(3)).
    pub given: u64,
}

impl HandlerProgress {
    /// A source at which nothing was delivered.
    pub const UNDELIVERED: HandlerProgress = HandlerProgress {
        done: 0,
        taken: 0,
        given: 0,
    };
}
