//! What each worker of a pool does next, and a team that does it: helpers in threads, and worker 0, which alone has poller and
//! clock. (This project's own rules: libdispatch's pool of threads promises an order of blocks, and not which thread runs one.)
//!
//! A [`Pool`] is what the workers of a run share: the row of events (`gcd_row`), the rack of Drains (`gcd_steal`) and the plan of
//! both. Each worker has a [`Hand`]: a pass of the row and a bench of the rack, and worker 0's has its journal. A helper goes from turn to
//! turn. It looks at the row, asks [`duty_of`] what there is to do by what it has seen, and does it. A worker that has a run goes on with it
//! before it begins another:
//!
//! | duty | what the helper does |
//! |---|---|
//! | `Leave` | it leaves: it has seen that the run is quiescent, halted or full |
//! | `Record` | it puts the event. Before an End it runs the body, unless the block is cancelled, before a DeliverEnd it calls the handler ([`RunCells`]), and it puts that event until it stands or the run is halted or full |
//! | `Begin` | it wakes the Drain of the event's node, and puts the event with it. Where that Drain does not sleep it takes another: the front of its own deque, or else of another's from the next number on and round, or else the node's own if it sleeps by now; with that it begins what may begin on that Drain's node ([`gcd_machine::Machine::begin_on`]). Then it lays the Drain down: at the back of its deque where a block waits on a concurrent queue and the team has another hand, and else asleep |
//! | `Rest` | it waits ([`Idle`]), and asks again once the row has grown |
//!
//! A helper that has no run begins none, and waits, while others' runs begin and end within about a microsecond ([`free_turn`]).
//!
//! Worker 0 looks, asks the outside (`gcd_turn`), and puts what was told, an Accept, a Shut, a Tick, an Expire or a Halt. Or else it does
//! what its machine chooses, as a helper does, and it polls or waits only if that is nothing. If it is the team's only hand it needs no
//! Drain and pushes none: it records at once what its machine chose, whatever the number of the rack's benches.
//!
//! No worker holds a Drain from one turn to the next, so one that leaves, or whose run is parked, keeps none from the others.
//!
//! # Jobs of outside callers
//!
//! Threads that are no workers send jobs through a front (`gcd_front`), and worker 0 alone has its intake. While the plan's intake is open
//! and nothing is told, worker 0 sees to it before it chooses anything:
//!
//! | where | what worker 0 does |
//! |---|---|
//! | each block of the intake is accepted | it puts a Shut |
//! | a job lies in the front | it takes it, lays it into the slot of the intake's next block ([`AdmitCells::lay`]), and puts that block's Accept, with the sender's number |
//! | all mouths were shut, and a later take gave none | it puts a Shut |
//! | else | nothing: its turn goes on, and it polls without waiting |
//!
//! With nothing to do worker 0 sleeps as a helper does. If the front has senders it yields its processor for a while first, and the next job
//! that is sent, or mouth that is shut, ends its sleep ([`FrontIdle`]; no clause says how soon).
//!
//! So a job is dropped only where the run is halted or full as its Accept is put. A sender's jobs are accepted in their order, each once. A
//! run without outside callers has a front without senders, whose mouths are all shut at once.
//!
//! # Writing over what was seen
//!
//! The row is a ring of 4,096 cells: an event is put into the cell of the one 4,096 places before it, and not before each worker has
//! passed that one on. A helper passes on what it has seen after each look. Worker 0 first gathers it into the journal of its hand: where
//! a thousand events have come since it last did, where an event that it puts is held by its own passed word, and at the end, with which
//! its journal is all that it has seen. A worker whose event is held by another's passed word waits for that worker.
//!
//! So a body must not wait for another worker's body. A worker in a long body passes nothing on: once 4,096 further events stand the others
//! wait till it has ended.
//!
//! Where memory is refused to worker 0's journal the team stops, and also where no thread was made for a worker: that is taken to be so
//! where a worker that has not begun holds an event for ten seconds. Worker 0 leaves then, each helper that is held leaves
//! ([`Turn::Stopped`]), and each other once it has nothing to do, whatever it has seen. [`pool_run`] answers which of the two it was
//! ([`PoolFault`]).
//!
//! # Contract
//!
//! | call | promises |
//! |---|---|
//! | [`duty_of`] | the worker's choice (`choice_of` of `gcd_history`), and to leave exactly where the run has ended |
//! | [`begin`] | as [`gcd_row::RowBoard::put`]; it asks for the Drain of the event's node |
//! | [`begin_near`], [`take_turn`], [`free_turn`] | the hand is still one of the pool; what it adds is work of its worker; of its looks for a Drain at most the last finds one, and that one is laid down, asleep or at the back of the bench's deque (`HasFound` of `specs/Found`, `LaysDown` of `specs/Turns`) |
//! | [`take_turn`], [`free_turn`] | of the worker's own events exactly one is new where the answer is `Placed` or `Ended`, with which no run or one ends, and else none (`SaysPlaced` of `specs/Placing`); where it is `Rested` the run goes on and no event of the worker is permitted (`SaysRested`); where it is `Out` the call wrote to the place of that node's Drain, which did not sleep there (`SaysOut`) |
//! | [`take_turn`] | an event is *due* if it is the worker's choice after what it had seen at the call, or, if that choice begins a run on a node, what the worker may begin then on the node of the Drain that the call found (`IsDue` of `specs/Due`). With `Placed` and `Ended` the event that is new was due. With `Waited` an event that was due and permitted is not permitted any more, or the row is full, or nothing may begin on the node of the Drain that was found. With `Stopped` a passed word held an event that was due (`SaysDue`) |
//! | [`begin_near`] | the same; what is due is what the worker may begin on the node of the Drain that the call found (`BeginsThere`) |
//! | [`free_turn`] | the same of what the worker had seen at a moment of the call; or it answers `Waited`, and three events or more came in the call; or `Stopped`, and it is worker 0 (`SaysFree`) |
//! | [`begin_near`] | it answers `Placed`, with an event that begins a run, `Waited`, `Stopped` or `Out`, of the node that was asked for (`SaysBegun`, `SaysOut`) |
//! | [`record_own`] | it answers `Placed` or `Ended` where this event is the one that is new; `Left` where the run has ended, `Waited` where the event is not permitted any more, and `Stopped` where a passed word held it, and none is new (`SaysRecorded`) |
//! | [`Crew::serve`] of a [`Pool`] | the hand is still one of the pool, of the same worker and bench, and has seen no less (`Serving` of `specs/Hands`) |
//! | worker 0's part of [`pool_run`] | the hand is still one of the pool, as for a helper; and if worker 0 is done the hand has seen that the run has ended, all that it has seen is in its journal, and what poller and clock said since any beginning stands in it, if it did before (`Led` of `specs/Leads`, by `GoesOn` of `gcd_loop`) |
//! | | of each sender the jobs that were taken begin with those of the blocks that were accepted of it, in order, each of which gives only what its job may; they are all of them where the run is neither halted nor full, and where a Shut stands; no sender has another number than the front's; and a Shut stands only where each block of the intake is accepted, or all mouths were shut and all that was sent was taken (`Admitted` of `specs/Admitted`, in `LedWithFront`) |
//! | [`AdmitCells::lay`] | the slot of the intake's next block has what gives only what the job that was sent may, and nothing else has changed |
//! | [`pool_run`] | worker 0 has led, and an `Ok` says how the run has ended that it has seen, and that each hand has seen the run to end (`Served`), with the whole run in worker 0's journal, and of the jobs of outside callers what `LedWithFront` says; the hands come back either way, still of the pool; of a team of one, if each event of the row since the call began is worker 0's, each of a worker among them is what worker 0 chooses at its place (`Follows`) |
//!
//! Worker 0's journal alone takes memory.
//!
//! # What it does not say
//!
//! No clause says that a helper ever places an event, that it has a thread of its own, that a team of one makes no thread, or that a call
//! returns. No clause says when a team stops, or which [`PoolFault`] it was: the flags that tell are plain words. Of a `Stopped` turn they
//! say that a passed word held its event, or that it is worker 0's, and not that memory was refused or that no thread was made. No clause
//! follows a Drain from where a call laid it down.
#![tactic(auto)]

mod admit_cells;
mod drains;
mod duty;
mod fault;
mod finding;
mod front_idle;
mod hand;
mod head;
mod head_idle;
mod idle;
mod lead;
mod own;
mod putting;
mod run;
mod run_cells;
mod serve;
mod team;
mod turn;

pub use admit_cells::AdmitCells;
pub use drains::{begin, begin_near};
pub use duty::{Duty, Exit, duty_of};
pub use fault::PoolFault;
pub use front_idle::FrontIdle;
pub use hand::{Hand, Pool};
pub use idle::Idle;
pub use own::record_own;
pub use run::pool_run;
pub use run_cells::RunCells;
pub use serve::free_turn;
pub use team::{Crew, serve_all};
pub use turn::{Turn, take_turn};
