//! The queue machine: it stands for a plan and for what has happened so far, and tells what may come next.
//!
//! A [`Machine`] keeps no list of events. Its contracts speak of each history h that it stands for, `StandsFor m plan h`,
//! by the words of `gcd_history`; no layer above looks into that relation. It serves every valid plan.
//!
//! | call | answer |
//! |---|---|
//! | `Machine::new` | a machine that stands for the plan and the empty history, or out of memory |
//! | `copy` | the same machine once more, which shares the plan, or out of memory |
//! | `permits` | the first reason why the event may not come next (`why`), or None |
//! | `apply` | takes a permitted event: what the machine stood for, with the event |
//! | `choose` | what a worker records next (`choice_of`), permitted and the worker's own |
//! | `quick` | takes at once what `choose` would give, if that is the end of a block, an async of a block or, as long as no run is open on an object, the start of a block (`quick_of`, `IsTaken`); or None, and nothing is changed |
//! | `quick_run` | takes at once the start of a block that `quick` would take and the end of it, if that is the worker's next event (`IsRunNext`, `IsRunTaken`); or None, and nothing is changed |
//! | `is_calm` | whether nothing can come of poller, clock or outside callers (`IsCalm`) |
//! | `begin_on` | what a worker may begin on a node: a Start or a Deliver (`begin_of`) |
//! | `expiry` | the Expire that worker 0 records (`expiry_of`), or None where no wait may expire |
//! | `state`, `is_quiescent`, `is_halted` | how far the run has come (`HasState`), whether nothing but a halt can come, whether it is over |
//! | `len`, `running` | how many events came, how many runs are open and not parked |
//! | `due_by` | what is due at `next_due`: a timer, or a block whose wait reaches its limit ([`DueBy`], `is_due_by`) |
//! | `next_due`, `is_live_feed`, `next_live_feed`, `data_of`, `pending_of` | due times of timers and limits of waits, live feeds, what sources handed over and have pending |
//! | `first_waiting`, `node_of`, `is_started`, `is_ended`, `awaited`, `parks` | what waits on an object; of a block where it was submitted, whether it has started and ended, what it waits for; whether an act parks its block |
//! | `is_cancelled` | whether a block is cancelled: its run has no act and no work |
//! | `intake_open`, `next_intake` | whether blocks may be accepted from outside, and which one is next |
//! | `objects`, `blocks` | the plan's numbers, for the conditions of the calls |
//! | [`Put`] | for the layers above: the answer of a call that puts an event behind a history |
//! | [`laws::histories_are_lawful`] | the histories that a machine stands for are lawful, of its own plan, which is valid |
//!
//! # What each event checks, and what it changes
//!
//! `may_start` and `may_run` of `gcd_drain` look at the waiting blocks (`gcd_lists`), the targets (`gcd_tree`) and the holds
//! (`gcd_hold`). `may_wake` of `gcd_sync` looks at groups, semaphores and strips.
//!
//! | event | `permits` checks | `apply` changes |
//! |---|---|---|
//! | Start | whether the worker is free, and `may_start`; of `main`, whether it has not started | the block leaves its list, a run opens in `gcd_tree`, a barrier in `gcd_drain`; from now on its cancellation changes nothing (`gcd_blockobj`) |
//! | Act | whether it is the next act of the worker's run, and no misuse. A cancelled block has no next act. It does not look at the chain, so a suspension stops no open run | what `Effects` of `gcd_plan` says of the act (below) |
//! | Wake | whether the worker is free, and `may_wake` | the block is parked no longer (`gcd_sync`) |
//! | End | whether no act of the worker's run is left | the run closes in `gcd_tree`, which may set a new target, and in `gcd_drain`. Its group, its strip, whoever waits for it and the notify blocks that become due are told, of a cancelled block as of any other |
//! | Deliver | whether the worker is free, something is pending at the source (`gcd_source`, `gcd_timer`), it is not cancelled, and `may_run` | what is pending is handed over, and 0 is left; a run opens |
//! | DeliverEnd | whether no act of the worker's run is left | the run closes |
//! | Misuse | whether the next act of the worker's run is a misuse of this code | the run is over |
//! | Tick | whether the time is above journal time, at most `until`, and has reached a due time or a limit | the time of `gcd_timer`, and with it what is due |
//! | Expire | whether the block is parked, time has reached its limit, and what it waits for has not come: a signal or a last leave that stands before the Expire decides | the wait has expired (`gcd_sync`), and counts at its semaphore no more (`gcd_sema`) |
//! | Ready | whether the read source is live | the bytes told are added to what is pending (`gcd_source`) |
//! | FeedEnd | whether the read source is live | the source is live no longer |
//! | Accept | whether the intake is open, and the block its next | the block waits on the intake's queue |
//! | Shut | whether the intake is open | the intake is open no longer |
//! | Halt | only that the run is not over, as for every event | the run is over |
//!
//! After a Misuse or a Halt nothing is permitted.
//!
//! An act that submits puts its block behind all that wait on the queue, and the act `apply` puts all blocks of its strip there, in the
//! order of their numbers. If a queue gets a new target, its waiting blocks stay in its list. An act that waits parks its block; its
//! limit is journal time plus the act's milliseconds, at most `until`. Blocks of `notify` (`gcd_group`) and `notify_block` (`gcd_blockobj`) are
//! submitted with the event by which they become due.
//!
//! `choose` records the first that is permitted of these: the next event of the worker's run, the Wake of the block with the lowest
//! number, the Start of `main`, and at the nodes from a given number on, round, the first block that waits or the delivery.
//!
//! How it is proved: `Registers` is all that a machine keeps; `specs/Steps` says what each private step of it changes,
//! `specs/Conditions` what each asks, `specs/Judged` and `specs/Chosen` what it tells. `gcd_refinement` says what the whole
//! is of a history, and that a permitted event keeps the tie between them; `proofs/Steps` shows that the steps of an event are
//! that change, `proofs/Conditions` that what they ask holds, and `proofs/Views`, `Reasons` and `Choice` that what is told is the
//! definition's answer.
//!
//! A misuse is judged here: a resume too many (code 1) and a release of what is suspended (7) by the holds, a leave without an enter (2) by
//! the group's enters, a cycle of targets (3) and a target of what others have as target (5) by `would_cycle` and `has_child` of `gcd_tree`,
//! a new target of an active object that was created inactive (4) by the plan and `gcd_hold`, a released name (6) by the references
//! (`gcd_objects`), and a semaphore's last release below its first value (8) by `gcd_sema`. `next_due` joins the due times of timers with the limits of waits, which `gcd_timer` does
//! not know. If one End submits blocks of `notify_block` and of `notify`, those of `notify_block` come first.
//!
//! Every array is made by `new` with its final length. No other call but `copy` takes memory.
//!
//! Nothing here says that a worker does anything, or when.
#![tactic(auto)]

mod due_by;
pub mod laws;
mod machine;
mod put;
mod registers;

pub use due_by::DueBy;
pub use machine::Machine;
pub use put::Put;
