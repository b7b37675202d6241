//! The groups of a plan: what each counts, when it was empty, and the blocks that are to be told
//! (dispatch_group_create(3), dispatch_group_wait(3), dispatch_group_notify(3)).
//!
//! Contracts see [`Groups`] as plain lists by object (`GroupsView`): the count, the enters that no leave has answered,
//! the last position of the history at which the group is known to have been empty, the notify blocks that have not
//! fired, in the order of their registration, and how many of these are due.
//!
//! | call | answer | what it leaves |
//! |---|---|---|
//! | `Groups::new` | every group empty, and no block to be told; or out of memory | |
//! | `copied` | the same groups once more; or out of memory | |
//! | `count`, `entered` | what the lists hold | |
//! | `empty_since` | whether the group was empty at some position from this one on | |
//! | `notify_group` | the group whose notify block it is, until it fires; else None | |
//! | `enter`, `leave` | | an enter more, or less, and the count with it |
//! | `added`, `done` | | a submitted block more, or less, in the count |
//! | `notify` | | the block behind the group's notify blocks, and due where the group is empty |
//! | `fired` | the first notify block, where it is due; None exactly where none is | the others |
//!
//! A notify block is due from the first position on, from its registration, at which the group is empty; it stays due
//! when the group counts again. Each fires once, in the order of registration.
//!
//! What a call names is an object of the plan. Calls that change a count are told `at`, the length of the history
//! after the event that changes it. `new` and `copied` take all memory, each array at once; every other call takes
//! none, cannot fail, and costs the same whatever the plan. The crate knows no history: that `at` is its length is for
//! the caller to see to.
#![tactic(auto)]

mod groups;

pub use groups::Groups;
