//! The strips of a plan: how many blocks of each have not ended (dispatch_apply(3)).
//!
//! A strip is a list of blocks that do the same, each to a part of a file of its own. Contracts see [`Strips`] as two plain
//! lists (`StripsView`): for each strip, by number, how many of its blocks have not ended; and for each block the strip that it is
//! of, if it is of one.
//!
//! | call | answer | what it leaves |
//! |---|---|---|
//! | `Strips::new` | no block has ended; or out of memory | |
//! | `copied` | the same strips once more; or out of memory | |
//! | `left` | how many blocks of the strip have not ended | |
//! | `strip_of` | the strip of the block; None exactly where it is of none | |
//! | `done` | | one block of its strip less that has not ended |
//!
//! Where the plan has no strip both lists are empty. `new` and `copied` take all memory; `left`, `strip_of` and `done` take none,
//! cannot fail, and cost the same however many strips and blocks there are. The crate knows no history: that a block has ended is for
//! the caller to say.
#![tactic(auto)]

mod strips;

pub use strips::Strips;
