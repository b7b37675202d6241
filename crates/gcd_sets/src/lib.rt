//! Sets of small numbers, and the least of many times: what the parts of the machine keep beside their lists.
//!
//! Contracts see a [`BitSet`] as a list of truth values: element i says whether i is in the set. The length of the list is
//! fixed when the set is made, and bounds the numbers. The set is kept in words of 64 bits.
//!
//! | call | answer | what it leaves | cost |
//! |---|---|---|---|
//! | `BitSet::new` | an empty set for the numbers below `len`; or out of memory | | `len` / 64 |
//! | `copied` | the same set once more; or out of memory | | `len` / 64 |
//! | `len` | the length that the set was made with | | constant |
//! | `has` | whether the number is in the set | | constant |
//! | `count`, `is_empty` | how many numbers are in the set, whether there are none | | constant |
//! | `next` | the least number in the set from one on; None exactly if there is none | | a step for each word that it passes, and constant if the set is empty |
//! | `next_without` | the least number from one on that is in the set and not in another of the same length; None exactly if there is none | | a step for each word that it passes, and constant if the set is empty |
//! | `set`, `clear`, `put` | | the number in the set, or not, as it may have been before | constant |
//!
//! A [`SmallSet`] has numbers below 1,024 and takes no memory at all: it serves within one call. Contracts see its words.
//!
//! Contracts see [`Times`] as a list (`List (Option ℕ)`): element i is the time of i, or none. The length of the list is fixed
//! when it is made, and may be 0. `least` of a list is its least time, and none if it has none.
//!
//! | call | answer | what it leaves | cost |
//! |---|---|---|---|
//! | `Times::new` | no time for any number below `len`; or out of memory | | `len` |
//! | `copied` | the same times once more; or out of memory | | `len` |
//! | `len` | the length that it was made with | | constant |
//! | `get` | the time of the number; None exactly if it has none | | constant |
//! | `least` | the least of all times; None exactly if there is none | | constant |
//! | `soonest` | a number whose time is the least; None exactly if there is none | | a step for each doubling of the length |
//! | `set`, `clear` | | the number with that time, or with none | a step for each doubling of the length, or fewer |
//!
//! Times are below 2^32 - 1, and a number is below the length. Of several numbers with the least time `soonest` gives any one.
//!
//! `new` and `copied` take all memory, for times 8 bytes a number; every other call takes none and cannot fail.
//!
//! `proofs/Ranges` has, for proofs above, what it says that a number is the first of a range that passes a test, and
//! `proofs/Least` what the least of a list is.
#![tactic(auto)]

mod set;
mod small;
mod times;
mod tree;
mod word;

pub use set::BitSet;
pub use small::SmallSet;
pub use times::Times;
