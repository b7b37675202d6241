//! Jobs from outside: threads that are no workers hand jobs to a running queue, and one intake takes them.
//!
//! A [`Front`] is a bounded queue with room for so many jobs, and is made for so many senders, at most [`MAX_SENDERS`]. Each
//! sender has a [`Mouth`], by which it sends jobs until it shuts the mouth; what is [`Left`] of the mouth then keeps the
//! sender's *account*, all jobs of it that were accepted, in order. The [`Intake`] takes the jobs of all senders, in the order
//! in which they were accepted, and hears which mouths are shut. That any thread may submit to a queue is libdispatch's rule
//! (dispatch_async(3)); front, mouths and intake are this project's own. A job is a value of any type that can be dropped;
//! one that can be run is [`Sent`].
//!
//! # What callers see
//!
//! Fields are the crate's own. In contracts each value is a record (`specs/Views`): a front its tables, its room and the number
//! of its senders; a mouth its front, its sender and what was accepted of it; an intake its front, what it took, the accounts
//! that it knows, the number of senders of whose shutting it heard, and whose mouths it found open. Each call asks that what
//! it is given is of the front of the call (`IsMouthOf`, `IsIntakeOf`, `IsLeftOf`).
//!
//! # What is shared
//!
//! Two structures, each with a rule that holds between any two steps of any number of threads. A rule is over what the
//! structure contains and what each of its users knows, and each call shows that its steps keep it.
//!
//! | structure | rule |
//! |---|---|
//! | queue | What the intake took, and behind it what lies in the queue, is what was accepted: of each sender just the jobs that its open mouth or its account says, in that order, each with its number among them (`specs/Queue`). |
//! | notes | Each sender has a word, which says whether its mouth is not made, open, shut or heard of, and a slot. While it is shut and not heard of, the slot has a note, by which the account goes to the intake; while it is open, there is its mouth (`specs/Notes`). |
//!
//! The kinds of step are push and pop, splitting off the pass of a new mouth or of a mouth that is shut, joining a note with
//! the intake's pass, laying a note down, and looking for one.
//!
//! # Calls
//!
//! | call | answer | steps |
//! |---|---|---|
//! | [`Front::new`] | a front, its mouths by number and its intake, or out of memory | all that is made |
//! | [`Mouth::send`] | Ok(k), the job is the k-th of this sender's; Err, with the job, only where the queue held as many jobs as it has room for at a moment of the call | one exchange, after each that another won, and a load; a wake where the intake's thread sleeps |
//! | [`Mouth::shut`] | what is left | one store |
//! | [`Intake::take`] | the oldest job, with its sender and its number; None only where the queue was empty at a moment of the call, and then all was taken of the senders whose accounts the intake knows | one exchange |
//! | [`Intake::all_shut`] | true only where every mouth was shut, and the intake knows each account then; false only where a mouth was found open at a look of the call | one exchange for each mouth that it finds shut for the first time, and one for the first that is open |
//! | [`Intake::settle`] | what was taken of the sender is how its account begins, and all of it where a `take` gave None while the intake knew the account | two loads |
//! | [`Intake::settle_all`] | what `settle` promises of each of several mouths, in order (`IsSettled`) | two loads each |
//! | [`Front::senders`], [`Mouth::sender`], [`Mouth::sent`], [`Left::sender`] | what they are called | none |
//! | [`Front::listen`], [`Front::ignore`] | none: from now on, or no more, what comes wakes who sleeps | one store |
//! | [`Front::sleep`] | none | a sleep, which what comes ends where it is listened to |
//!
//! Nothing but [`Front::new`] takes memory. A front may be shared by threads, and mouths, intake and what is left be sent to
//! some, where the jobs may be sent.
//!
//! So of each sender the intake takes the accepted jobs, in their order, each once. Where `all_shut` was true and a later `take`
//! gave None, it took them all: by the clause on None of `take` and `known` of `all_shut` for each account that it knows, and by
//! `all` of `settle` for what is left of a mouth.
//!
//! # What rests on more than the clauses
//!
//! - Err of [`Mouth::send`] and None of [`Intake::take`]: by their clauses the queue can have been full, or empty, while mouth
//!   or intake knew what it knows. That it was so at a moment of that call rests on the form of two private functions
//!   (`src/steps.rt`): they hand on what the queue's own step tells, whatever the rule is, so none of their bodies can make it
//!   up. What a pass knows stays as it was at such a step, so no clause over the rule of this queue can say it.
//! - False of [`Intake::all_shut`]: its clause says that the last of the looks, which the intake's seat notes in their order,
//!   found the mouth open. That what is noted is the number that the look found is said by what that kind of step tells
//!   (`LookingTells` of `specs/Notes`), and no other kind notes anything.
//!
//! # What it does not say
//!
//! - That a call of `send` or `take` returns: each waits for a thread that is within its own step on the same place of the
//!   queue, and tries again while others come before it.
//! - That a queue with room accepts: on one thread it does, which is tested.
//! - That a job is taken, or run: whoever takes one may drop it.
//! - That a sleeper wakes where a job comes, or sleeps at all: that is tested.
#![tactic(auto)]

mod bell;
mod front;
mod intake;
mod ledger;
mod left;
mod limits;
mod mouth;
mod notes;
mod queue;
mod sent;
mod settling;
mod steps;

pub use front::Front;
pub use intake::Intake;
pub use left::Left;
pub use limits::MAX_SENDERS;
pub use mouth::Mouth;
pub use sent::Sent;
