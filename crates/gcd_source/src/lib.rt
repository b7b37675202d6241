//! What is pending at the sources of a plan, and which of them are cancelled (dispatch_source_create(3),
//! dispatch_source_merge_data(3), dispatch_source_get_data(3), dispatch_source_cancel(3)).
//!
//! Contracts see [`Sources`] as plain lists by object (`SourcesView`): the kind, what is pending, and whether the
//! source is cancelled. Values come together until they are taken: by bitwise or at an or source, the newest in place of the others at a
//! replace source, and else by addition (`folded` of `gcd_plan`).
//!
//! | call | answer | what it leaves |
//! |---|---|---|
//! | `Sources::new` | nothing pending, and none cancelled; or out of memory | |
//! | `copied` | the same sources once more; or out of memory | |
//! | `pending`, `is_cancelled` | what the lists hold | |
//! | `merge` | | the value joined to what is pending; a merge of 0 changes nothing, but at a replace source, where nothing is pending then |
//! | `take` | what is pending | nothing pending |
//! | `cancel` | | the source cancelled, as it may have been before |
//!
//! A merge counts whether the source is held, cancelled, or its handler runs: when a handler may run is the caller's
//! to say. What a call names is an object of the plan. `new` and `copied` take all memory, each array at once; every
//! other call takes none, cannot fail, and costs the same whatever the plan. The crate knows no history. What is
//! pending at a timer is not kept here: it is counted from its due times (`gcd_timer`). `proofs/Merges` has the bound
//! by which a caller knows that a merge has room.
//!
//! To cancel a timer takes `Timers::cancel` of `gcd_timer` too. Whether a read source is live the machine tells.
#![tactic(auto)]

mod sources;

pub use sources::Sources;
