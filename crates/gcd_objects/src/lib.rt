//! The references on the objects of a plan (dispatch_object(3)).
//!
//! Contracts see [`Objects`] as a plain list of numbers: how many references each object has, by object. Every object
//! starts with one, `root` too, though no act retains or releases `root`.
//!
//! | call | answer | what it leaves |
//! |---|---|---|
//! | `Objects::new` | one reference on each object of the plan; or out of memory | |
//! | `copied` | the same counts once more; or out of memory | |
//! | `refs` | how many references the object has | |
//! | `is_live` | whether it has any | |
//! | `retain` | | one reference more on the object, the others as they were |
//! | `release` | | one reference less on the object, the others as they were |
//!
//! What a call names is an object of the plan (its number is below the length of the list). A retain and a release
//! need a live object, and a retain fewer than 2^32 - 1 references on it. `new` and `copied` take all memory, each
//! array at once; every other call takes none, cannot fail, and costs the same whatever the plan. Which act comes, and
//! whether it is a misuse, is for the caller to say: the crate knows no history.
#![tactic(auto)]

mod objects;

pub use objects::Objects;
