//! Parked blocks, and what each waits for (dispatch_sync(3), dispatch_group_wait(3), dispatch_semaphore_wait(3),
//! dispatch_apply(3), dispatch_block_wait(3)).
//!
//! Contracts see [`Waits`] as plain lists by block (`WaitsView`): what the block waits for, where it is parked, the limit
//! of this wait, if it has one, and whether the wait has expired. What it waits for is the end of a block, a moment at
//! which a group is empty, the ends of all blocks of a strip, or its turn among the waits on a semaphore (`Reason` of
//! `gcd_plan`). A limit is a time in milliseconds.
//!
//! | call | answer | what it leaves |
//! |---|---|---|
//! | `Waits::new` | no block parked; or out of memory | |
//! | `copied` | the same parked blocks once more; or out of memory | |
//! | `park` | | the block parked, for this reason, without a limit |
//! | `park_until` | | the block parked, for this reason, with this limit |
//! | `reason` | what the block waits for; None exactly where it is not parked | |
//! | `limit` | until when; None exactly where it is not parked with a limit | |
//! | `expire` | | the wait of this block expired; it has a limit |
//! | `has_expired` | whether the block's wait has expired | |
//! | `may_wake` | whether what the block waits for has come, or its wait has expired | |
//! | `woken` | | the block no longer parked |
//!
//! `may_wake` asks the groups, the semaphores and the strips (`gcd_group`, `gcd_sema`, `gcd_apply`) and a list that says which
//! blocks have ended: a block wakes where the block that it waits for has ended, where the group was empty at some position
//! above its wait, a past one too, where no block of the strip is left, where the semaphore's first value and signals have
//! come to its turn, or where its wait has expired. That journal time has reached a limit is not asked here: the crate knows no time.
//!
//! What a call names is of the plan. `new` and `copied` take all memory, each array at once; every other call takes
//! none, cannot fail, and costs the same whatever the plan. The crate knows no history.
#![tactic(auto)]

mod limit;
mod waits;

pub use waits::Waits;
