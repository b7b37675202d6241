//! The blocks that wait on the objects of a plan: submitted and not started, each object's in the order of their
//! submission.
//!
//! Contracts see [`Lists`] as plain lists by number (`ListsView`): for each object the list of the blocks that wait
//! there, first first, each with whether it is a barrier; and how many blocks there are. `list_at` is the list of an
//! object, `place_of` where a block waits.
//!
//! | call | answer | what it leaves |
//! |---|---|---|
//! | `Lists::new` | lists of the plan's objects and blocks, all empty; or out of memory | |
//! | `Lists::of` | so many lists for so many blocks, all empty; or out of memory | |
//! | `copied` | the same lists once more; or out of memory | |
//! | `len` | how many lists there are | |
//! | `push` | | the block behind all that wait on the object, nothing else changed |
//! | `push_span` | | so many blocks that follow each other in their numbers behind all that wait on the object, none as a barrier |
//! | `first` | the first of the object's list; None exactly where it is empty | |
//! | `pop` | the same | the object's list without its first, which waits nowhere then; nothing else changed |
//! | `remove` | | the object's list without the block, which waits nowhere then; nothing else changed |
//! | `place` | where the block waits, and whether as a barrier; None exactly where it waits nowhere | |
//!
//! What a call names is of the plan (its number is below the number of lists, or of blocks), and a block that is
//! pushed waits nowhere: it waits at one place at a time. So no more blocks wait on an object than there are: `push`
//! says it of the list that it leaves, `first` of the list that it looks at. A block that is removed waits on that object.
//! `new`, `of` and `copied` take all memory, each array at once; every other call takes none, cannot fail, and takes the
//! same time however much waits (`push_span` a step for each block that it pushes). Which blocks wait where is for the
//! caller to say: the crate knows no history, and any object may have a list, a group or a semaphore too. By `of` there may
//! be a list for something else than objects, as one for each block; at most 32,767.
//!
//! A block takes 6 bytes of memory: 2 for its link to the block behind it, 2 for that to the block before it, and 2 for its
//! place.
//!
//! `proofs/Places` has, for proofs above, what `place_of` says of the lists, and `proofs/Leaves` and `proofs/Spans` what it
//! says of a list without a block, and of one with a span behind it.
//!
//! The machine keeps such lists three times: the blocks that wait at each queue, those that sleep at a semaphore or a group, from which
//! an expired wait is removed, and by block those that are parked until its end.
#![tactic(auto)]

mod link;
mod lists;
mod place;

pub use lists::Lists;
