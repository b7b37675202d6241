//! The semaphores of a plan (dispatch_semaphore_create(3), dispatch_semaphore_signal(3), dispatch_semaphore_wait(3)).
//!
//! Contracts see [`Semas`] as plain lists by object (`SemasView`): the value with which a semaphore was created, how
//! often it was signalled, for each wait on it whether it has expired, and how many waits may begin. Waits have ranks from
//! 1, in their order, and are served in this order: a wait passes where it has not expired, and the first value plus the
//! signals is at least the number of waits, up to and with it, that have not expired.
//!
//! | call | answer | what it leaves |
//! |---|---|---|
//! | `Semas::new` | the first values, and no signal or wait; or out of memory | |
//! | `copied` | the same semaphores once more; or out of memory | |
//! | `waits`, `signals` | how often the semaphore was waited for, and signalled | |
//! | `room` | how many waits may begin: the acts of the plan that wait for it | |
//! | `wait` | the rank of this wait | a wait more |
//! | `signal` | | a signal more |
//! | `expire` | | the wait of this rank expired |
//! | `has_expired` | whether the wait of this rank has expired | |
//! | `passed` | whether the wait of this rank passes | |
//! | `has_value` | whether the value is above 0: one wait more would pass at once | |
//! | `value` | the first value, and the signals less the waits that have not expired; it may be negative | |
//! | `is_below_first` | whether the value is below the first value | |
//!
//! A wait is counted when it begins, whether it passes or not, until it expires; a wait that has passed does not expire. An
//! expiry lets no other wait pass: one that did not pass before it does not pass by it.
//!
//! What a call names is an object of the plan. `new` and `copied` take all memory, each array at once; every other call
//! takes none and cannot fail. It costs the same whatever the plan, but for `signal` and `expire`: these pass over the
//! expired waits that stand next, and each of those is passed over once in a run. The crate knows no history.
//!
//! `is_below_first` serves the misuse of releasing a semaphore whose value is below its first.
#![tactic(auto)]

mod awaited;
mod first;
mod rooms;
mod semas;

pub use awaited::has_awaited;
pub use semas::Semas;
