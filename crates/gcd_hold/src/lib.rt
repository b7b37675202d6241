//! The holds on the queues and sources of a plan, and which of them are active (dispatch_suspend(3),
//! dispatch_activate(3)).
//!
//! Contracts see [`Holds`] as plain lists by object (`HoldsView`): the hold, whether the object is active, and whether
//! it is a source.
//!
//! | call | answer | what it leaves |
//! |---|---|---|
//! | `Holds::new` | no hold, and active what is created active; or out of memory | |
//! | `copied` | the same lists once more; or out of memory | |
//! | `hold`, `is_active` | what the lists hold | |
//! | `is_free` | whether the object is active with hold 0 | |
//! | `may_resume` | whether a resume is no misuse: the hold is above 0, or the object is an inactive source | |
//! | `suspend` | | the hold of the object 1 higher |
//! | `resume` | | the hold 1 lower where it is above 0; else the object, an inactive source, active |
//! | `activate` | | the object active, as it may have been before |
//!
//! Each call changes its object alone, and one list alone. What a call names is an object of the plan (its number is
//! below the length of the lists), a resume is no misuse, and a suspend leaves a hold below 2^32. `new` and `copied`
//! take all memory, each array at once; every other call takes none, cannot fail, and costs the same whatever the plan.
//!
//! The crate knows no history, and no targets: an object that is about to change its target is not free either, and
//! that is for the caller to ask of the tree of targets.
#![tactic(auto)]

mod first;
mod holds;

pub use holds::Holds;
