//! Blocks as objects: which are cancelled, and which are to be submitted once another has ended (dispatch_block_cancel(3),
//! dispatch_block_notify(3)).
//!
//! Contracts see [`Marks`] as plain lists by block (`MarksView`): whether the block is cancelled, whether it has started,
//! whether it has ended, and the list of the blocks that are to be submitted once it has ended, the first first.
//!
//! | call | answer | what it leaves |
//! |---|---|---|
//! | `Marks::new` | no block cancelled, started or ended, and none to be told; or out of memory | |
//! | `copied` | the same marks once more; or out of memory | |
//! | `cancel` | | the block cancelled, if it has not started |
//! | `began` | | the block started: a cancellation from now on changes nothing |
//! | `ended` | | the block ended: each block that waits for its end is due from then on |
//! | `is_cancelled` | whether the block was cancelled before it started | |
//! | `notify` | | the block behind all that wait for the end of the other |
//! | `awaited` | the block for whose end this one waits to be submitted; None exactly where it waits for none | |
//! | `fired` | the block that waited first for this one's end, where that has come; None exactly where none is due | it waits no longer; where None, nothing changed |
//!
//! A block waits for the end of one block at a time. One that waits for a block that has ended already is due at once: `fired`
//! gives it. Those of one block come in the order of `notify`.
//!
//! Marks are kept of each block or, where no act of the plan needs them, of none (`Plan::mark_room`); a call on a block of which none are kept
//! changes nothing, and answers as before the first event. So a plan without such acts pays for three empty sets. `new` and
//! `copied` take all memory; every other call takes none, cannot fail, and costs the same whatever the plan. The crate knows
//! no history: that a block that waits here is submitted is for the caller to do, and so is that a cancelled block does nothing. It keeps its
//! place in its queue, starts in its turn, and has no act and no work; its `ended` is as any other's.
#![tactic(auto)]

mod marks;

pub use marks::Marks;
