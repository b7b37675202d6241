// What a block or a handler does, step by step.
ghost use Rattle.std.specs.Prelude.{◌≡◌};
ghost use Rattle.gcd_plan.specs.Effects.{parks};
ghost use Rattle.gcd_plan.specs.Validity.{block_of, strip_of, is_handler_act};

use crate::numbers::{Blk, Obj};

/// One act of a block or of a source's handler.
#[derive(Clone, Copy, PartialEq, Eq)]
pub enum Act {
    /// Submits the block to the queue (dispatch_async(3)).
    Async(Obj, Blk),
    /// Submits the block to the queue as a barrier (dispatch_barrier_async(3)).
    Barrier(Obj, Blk),
    /// Submits the block to the queue and waits for its end (dispatch_sync(3)).
    Sync(Obj, Blk),
    /// Submits the block to the queue as a barrier and waits for its end (dispatch_barrier_sync(3)).
    BarrierSync(Obj, Blk),
    /// Submits the block to the queue as a member of the group: group, queue, block (dispatch_group_async(3)).
    GroupAsync(Obj, Obj, Blk),
    /// Submits the block to the queue once the group is empty: group, queue, block (dispatch_group_notify(3)).
    Notify(Obj, Obj, Blk),
    /// Enters the group (dispatch_group_enter(3)).
    Enter(Obj),
    /// Leaves the group (dispatch_group_leave(3)).
    Leave(Obj),
    /// Waits until the group is empty (dispatch_group_wait(3)).
    GroupWait(Obj),
    /// Waits until the group is empty, for so many milliseconds, at most [`crate::MAX_TIME`] (dispatch_group_wait(3)).
    GroupWaitFor(Obj, u32),
    /// Signals the semaphore (dispatch_semaphore_signal(3)).
    Signal(Obj),
    /// Waits for the semaphore (dispatch_semaphore_wait(3)).
    Wait(Obj),
    /// Waits for the semaphore, for so many milliseconds, at most [`crate::MAX_TIME`] (dispatch_semaphore_wait(3)).
    WaitFor(Obj, u32),
    /// Suspends the queue or source (dispatch_suspend(3)).
    Suspend(Obj),
    /// Resumes the queue or source (dispatch_resume(3)).
    Resume(Obj),
    /// Activates the queue or source (dispatch_activate(3)).
    Activate(Obj),
    /// Gives the queue or source another target queue (dispatch_set_target_queue(3)).
    Target(Obj, Obj),
    /// Merges a value, at most 2^31 - 1, into the source (dispatch_source_merge_data(3)).
    Merge(Obj, u32),
    /// Cancels the source (dispatch_source_cancel(3)).
    Cancel(Obj),
    /// Takes a reference on the object (dispatch_retain(3)).
    Retain(Obj),
    /// Gives a reference on the object back (dispatch_release(3)).
    Release(Obj),
    /// Submits the blocks of the strip of this number to the queue, in order, and waits for the ends of all of them
    /// (dispatch_apply(3)).
    Apply(Obj, u32),
    /// Cancels the block, which does nothing any more; a block that has started goes on (dispatch_block_cancel(3)).
    CancelBlock(Blk),
    /// Waits for the end of the block (dispatch_block_wait(3)).
    WaitBlock(Blk),
    /// Submits the second block to the queue once the first has ended: first, queue, second (dispatch_block_notify(3)).
    NotifyBlock(Blk, Obj, Blk),
}

impl Act {
    /// Whether the act parks its block until a Wake: a call that waits, even where what it waits for has come (dispatch_sync(3),
    /// dispatch_barrier_sync(3), dispatch_group_wait(3), dispatch_semaphore_wait(3), dispatch_apply(3), dispatch_block_wait(3)).
    pub fn parks(self) -> bool
        ensures { result ≡ parks self }
    {
        match self {
            Act::Sync(..) | Act::BarrierSync(..) | Act::GroupWait(_) | Act::Wait(_) => true,
            Act::GroupWaitFor(..) | Act::WaitFor(..) => true,
            Act::Apply(..) | Act::WaitBlock(_) => true,
            Act::Async(..) | Act::Barrier(..) | Act::GroupAsync(..) | Act::Notify(..) => false,
            Act::Enter(_) | Act::Leave(_) | Act::Signal(_) => false,
            Act::Suspend(_) | Act::Resume(_) | Act::Activate(_) | Act::Target(..) => false,
            Act::Merge(..) | Act::Cancel(_) | Act::Retain(_) | Act::Release(_) => false,
            Act::CancelBlock(_) | Act::NotifyBlock(..) => false,
        }
    }

    /// Whether a handler may have the act: it submits no block and waits for nothing (this project's own rule).
    pub fn is_for_handlers(self) -> bool
        ensures { result ≡ is_handler_act self }
    {
        match self {
            Act::Async(..) | Act::Barrier(..) | Act::Sync(..) | Act::BarrierSync(..) => false,
            Act::GroupAsync(..) | Act::Notify(..) => false,
            Act::GroupWait(_) | Act::Wait(_) => false,
            Act::GroupWaitFor(..) | Act::WaitFor(..) => false,
            Act::Apply(..) | Act::WaitBlock(_) | Act::NotifyBlock(..) => false,
            Act::Enter(_) | Act::Leave(_) | Act::Signal(_) => true,
            Act::Suspend(_) | Act::Resume(_) | Act::Activate(_) | Act::Target(..) => true,
            Act::Merge(..) | Act::Cancel(_) => true,
            Act::Retain(_) | Act::Release(_) => true,
            Act::CancelBlock(_) => true,
        }
    }

    /// The block that the act submits by itself; None exactly where it submits none, or the blocks of a strip
    /// ([`Act::strip`]).
    pub fn block(self) -> Option<Blk>
        ensures { result ≡ block_of self }
    {
        match self {
            Act::Async(_, b) | Act::Barrier(_, b) | Act::Sync(_, b) | Act::BarrierSync(_, b) => {
                Some(b)
            }
            Act::GroupAsync(_, _, b) | Act::Notify(_, _, b) => Some(b),
            Act::NotifyBlock(_, _, c) => Some(c),
            Act::Enter(_) | Act::Leave(_) | Act::GroupWait(_) | Act::Signal(_) => None,
            Act::Wait(_) | Act::GroupWaitFor(..) | Act::WaitFor(..) => None,
            Act::Suspend(_) | Act::Resume(_) | Act::Activate(_) | Act::Target(..) => None,
            Act::Merge(..) | Act::Cancel(_) | Act::Retain(_) | Act::Release(_) => None,
            Act::Apply(..) | Act::CancelBlock(_) | Act::WaitBlock(_) => None,
        }
    }

    /// The number of the strip whose blocks the act submits; None exactly where it submits no strip (dispatch_apply(3)).
    pub fn strip(self) -> Option<u32>
        ensures { result ≡ strip_of self }
    {
        match self {
            Act::Apply(_, a) => Some(a),
            Act::Async(..) | Act::Barrier(..) | Act::Sync(..) | Act::BarrierSync(..) => None,
            Act::GroupAsync(..) | Act::Notify(..) | Act::NotifyBlock(..) => None,
            Act::Enter(_) | Act::Leave(_) | Act::GroupWait(_) | Act::Signal(_) => None,
            Act::Wait(_) | Act::GroupWaitFor(..) | Act::WaitFor(..) => None,
            Act::Suspend(_) | Act::Resume(_) | Act::Activate(_) | Act::Target(..) => None,
            Act::Merge(..) | Act::Cancel(_) | Act::Retain(_) | Act::Release(_) => None,
            Act::CancelBlock(_) | Act::WaitBlock(_) => None,
        }
    }
}
