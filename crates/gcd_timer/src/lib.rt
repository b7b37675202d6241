//! The timers of a plan, and the time (dispatch_source_create(3), dispatch_source_set_timer(3)).
//!
//! Contracts see [`Timers`] as plain data (`TimersView`): the kinds of the objects, the last due time, the present
//! time, and for each object the time at which it was activated and at which it was cancelled. A timer that is
//! activated at time A has the due times `A + start + k * every` for k from 0; none lies past the plan's `until`, and
//! none past the timer's cancellation (`is_due_at`). Times are whole milliseconds (this project's own rule).
//!
//! | call | answer | what it leaves |
//! |---|---|---|
//! | `Timers::new` | time 0, and nothing activated or cancelled; or out of memory | |
//! | `copied` | the same timers once more; or out of memory | |
//! | `moment` | the present time | |
//! | `next_due` | the least due time after the present; None exactly where no due time is left | |
//! | `soonest` | a timer that is due then; None exactly if no due time is left | |
//! | `due_count` | how many due times the timer has had, up to the present | |
//! | `activate` | | the timer activated now, where it was not before |
//! | `cancel` | | the timer cancelled now, where it was not before |
//! | `tick` | | the present moved on, over any number of due times |
//! | `tick_marked` | | the same, and each timer marked of which a due time came |
//!
//! No due time is kept in a list: they are counted by division, so a timer with an interval of 1 ms costs what one with
//! two due times costs. Of each timer the next due time is kept, in a tree of which the least is read at once
//! (`gcd_sets`). So `next_due` costs the same however many timers there are; `activate` and `cancel` take a step for
//! each doubling of the objects, and a tick as many, twice, for each timer of which it reaches a due time. `new` and
//! `copied` take all memory, each array at once; every other call takes none and cannot fail.
//!
//! `proofs/Marks` has, for proofs above, what a due time that comes says of the number of due times.
//!
//! The crate knows no history, and not whether a timer's source is held. What a timer has pending is the caller's to
//! say: the difference of two counts.
//!
//! `moment` is journal time. The limits of waits are kept by `gcd_sync` and the machine.
#![tactic(auto)]

mod clock;
mod due_times;
mod timers;

pub use timers::Timers;
