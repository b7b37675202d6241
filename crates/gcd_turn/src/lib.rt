//! The turn of worker 0, which alone has poller and clock. (This project's own rules; read sources and timers are those of
//! dispatch_source_create(3), waits with a limit those of dispatch_semaphore_wait(3) and dispatch_group_wait(3).)
//!
//! A turn ends at its first recorded event. [`Outside`] has poller and clock, and what worker 0 keeps of them between its turns
//! ([`Outlook`]): the clock's answer before the first turn, what was told and is not yet recorded, and how many empty answers came in a
//! row. It sees a machine and says what to record; the engine that keeps the machine records it in its own way, and may hand the outside
//! on to another. No call takes memory.
//!
//! | call of [`Outside`] | steps of a turn | answer |
//! |---|---|---|
//! | `new` | | asks the clock once |
//! | `ask` | 1. the run has ended | [`Ask::Leave`]: it is quiescent, halted or full, which is at `most` events |
//! | | 2. each live feed that is not watched is watched, by number | at a fault [`Ask::Put`] of a Halt |
//! | | 3. news | [`Ask::Told`]: the first piece, as a Ready or a FeedEnd; then, placed or barred, [`Outside::settle`] |
//! | | 4. the intake is open | [`Ask::Open`]: to take in a job of an outside caller, or to record a Shut; where neither comes, `ask_on` |
//! | `ask_on`, and `ask` by it | 5. a due time is left: the clock is asked | [`Ask::Put`] of a Tick where one has come |
//! | | 6. a wait may expire | [`Ask::Put`] of the Expire of the lowest-numbered block whose wait may |
//! | | 7. the engine's: what worker 0 chooses | [`Ask::Work`], with that choice and the milliseconds to the next due time |
//! | `idle` | 8. where a feed is live, one poll | a Halt at a fault; else what came is news |
//! | | 9. else, where a due time is left, nothing runs and no intake is open, a wait for it; the clock gets the name of what is due | |
//!
//! Due times are those of timers, and the limits of waits that are not over.
//!
//! A poll waits 10 milliseconds, not past the next due time, and not at all where a run is open and not parked or the intake is
//! open. An empty answer to a wait counts; [`EMPTY_ANSWERS`] of them in a row, while the history does not grow and nothing runs, end each
//! live feed.
//!
//! | file of specs/ | says |
//! |---|---|
//! | `Promises` | what is promised of the outside, over the states of poller and clock before and after the calls: `IsHeard`, `IsTimely` |
//! | `Hearing`, `Timing` | the invariants from which the promises follow: `Heard`, `TimeKept` |
//! | `Turns`, `Asked`, `Times` | what each step answers |
//! | `Named` | what is due, by the names that the clock gets |
//! | `Outsides` | the outside before and after calls on it |
//!
//! The promises follow for every engine that places what it is told to, since the invariants speak of a history that grows:
//! `proofs/HeardSteps`, `HeardPolls` and `TimeSteps` have a lemma for each step and for each kind of event, and
//! `proofs/Promised` the promises. `heard` of `ask` and of `idle` keep the invariant, at each history that the machine stands for.
//!
//! Nothing is said of how long a poll or a wait takes, nor of a poller that tells nothing but that a Halt stands only where it
//! failed.
#![tactic(auto)]

mod ask;
mod limits;
mod news;
mod outlook;
mod outside;
mod steps;

pub use ask::Ask;
pub use limits::{EMPTY_ANSWERS, POLL_WAIT};
pub use outlook::Outlook;
pub use outside::Outside;
