//! Whether a block that waits may start, and whether the handler of a source may run (dispatch_async(3),
//! dispatch_barrier_async(3), dispatch_suspend(3), dispatch_set_target_queue(3)).
//!
//! Contracts see [`Drains`] as plain lists by object (`DrainsView`): how many barriers are open on it, and its kind.
//! The rest the calls read of what the other parts hold: the lists of waiting blocks, the tree of targets and the
//! holds.
//!
//! | call | answer | what it leaves |
//! |---|---|---|
//! | `Drains::new` | no barrier open, and the plan's kinds; or out of memory | |
//! | `copied` | the same numbers once more; or out of memory | |
//! | `may_start` | the first reason why the block may not start, None exactly where it may | |
//! | `may_run` | the first reason why the source's handler may not run, None exactly where it may | |
//! | `is_shut` | whether the node's chain is shut: `NotFree` or `Excluded` applies to it | marks that say so |
//! | `is_fenced` | whether the barrier rule keeps a block of the node from starting | |
//! | `barriers` | how many barriers are open on the node | |
//! | `began` | | one barrier more on the node, if the block is one |
//! | `ended` | | one barrier less on the node, if the block was one |
//!
//! The reasons of `may_start`, in order, of which the first that applies is told:
//!
//! | reason | where |
//! |---|---|
//! | `Unready` | the block waits nowhere: it is not submitted, or has started |
//! | `Behind` | another block is first on its node |
//! | `NotFree` | an object of its node's chain is inactive, has a hold above 0, or is about to change its target |
//! | `Excluded` | a run is open beneath a serial queue or source of the chain |
//! | `Fenced` | the node is a concurrent queue other than `root`; a barrier is open there, or it is one and a run is open there. Queues that have the node as target are not asked |
//!
//! `may_run` tells of `NotFree` and `Excluded`, over the chain of the source. Both take one look at the set of held chains for freedom, and
//! walk the chain at most once for exclusion. If no run is open they do not walk. A caller that asks of many nodes asks `is_shut` with one [`KnownChains`]: each object is then
//! looked at once in all, and a block that is first on its node may start exactly where the chain is not shut and the block
//! not fenced (`proofs/Starts`). Nothing else costs more with a larger plan. `new` and `copied` take all memory, each array at
//! once; every other call takes none and cannot fail.
//!
//! [`HeldChains`] is the set of the objects whose chain is held, so that nobody walks a chain to learn it. Contracts see a list of truth
//! values by object; `AreHeld` (`specs/Held`) says that the list is right for a tree and holds.
//!
//! | call | answer | what it leaves | cost |
//! |---|---|---|---|
//! | `HeldChains::new` | the held chains of a tree under holds; or out of memory | | the objects |
//! | `copied` | the same set once more; or out of memory | | the objects / 64 |
//! | `has` | whether the chain of the object is held | | constant |
//! | `next_in` | the least number from one on that is in `busy` and whose chain is not held; None exactly if there is none | | a step for each word of 64 objects that it passes |
//! | `rehold` | | the set right again after a change of one object | constant if the object's own answer stays or it never was a target, else a look at each object |
//!
//! A caller calls `rehold` after each call that makes one object free or not free, or gives it a target or a request. `proofs/HeldAfter` shows
//! its condition for each such call. `proofs/Quiet` says that, if no run is open, a chain is shut exactly if it is held.
//!
//! The tests of exclusion and of barriers, and the order of the reasons, are `StartRule` of `gcd_plan`. Which blocks wait in front of
//! one is `gcd_history`'s to define, and `gcd_lists` tells it here. `specs/Rule` says what each part tells. The crate knows no history:
//! that the parts hold what a history says is for its callers. Whether something is pending at a source is not asked here, and of
//! `main`, which waits on no node, nothing is told. `gcd_machine` asks it before each Start and Deliver. A `Drain` of `gcd_steal` is another
//! thing: the right of one worker to start runs on a node. It spares workers the same attempt, and no rule rests on it.
#![tactic(auto)]

mod drains;
mod faults;
mod free;
mod held_chains;
mod known_chains;
mod shut;

pub use drains::Drains;
pub use held_chains::HeldChains;
pub use known_chains::KnownChains;
