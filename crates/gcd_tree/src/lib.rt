//! The targets of queues and sources, and how many runs are open beneath each (dispatch_set_target_queue(3)).
//!
//! Contracts see a [`Tree`] as plain lists by object (`TreeView`): its target, its request, how many runs are open on
//! it, and whether it is a queue or a source. An object's chain is the object, its target and so on to `root`; a run
//! is open beneath each object of its node's chain.
//!
//! | call | answer, exactly | cost |
//! |---|---|---|
//! | `Tree::new` | the first targets, no request, nothing open; or out of memory | the objects |
//! | `copied` | the same tree once more; or out of memory | the objects |
//! | `objects` | how many objects there are | constant |
//! | `target`, `is_moving`, `open_on` | what the lists hold | constant |
//! | `open_beneath` | the runs open on all objects whose chain has the object | constant |
//! | `any_open` | whether a run is open on any object | constant |
//! | `is_never_target` | true only if no object has, or had, the object as its target | constant |
//! | `chain` | the chain, an iterator | its length |
//! | `would_cycle` | whether a walk from the new target reaches the object | its length |
//! | `has_child` | whether another object has the object as target or as request | the objects |
//! | `set_target` | a new target at once, or as a request where a run is open on the object; it replaces an earlier request | constant |
//! | `opened`, `closed` | one run more or less; the last close turns a request into the target | the chain's length |
//!
//! No call but `new` and `copied` takes memory, and none is refused: what a call needs is its condition, and another
//! call tests it.
//!
//! That every chain ends at `root`, and that no object above the one of an open run is about to move, holds of every tree
//! (`IsTree`). `proofs/Quiet` says, for proofs above, that nothing is open on or beneath any object if nothing is open beneath
//! `root`. The crate says nothing of histories: which acts come, and in what order, is for its callers.
#![tactic(auto)]

mod along;
mod chain;
mod first;
mod flags;
mod tree;

pub use chain::Chain;
pub use tree::Tree;
