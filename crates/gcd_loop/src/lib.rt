//! The loop of worker 0, over whatever keeps the events of a run. (This project's own rules.)
//!
//! [`run_turns`] goes turn by turn (`gcd_turn`) until the run has ended. What keeps the events is a [`Recorder`]: a list that one
//! worker keeps, the row that several share, or rounds. It knows the plan and how many events the run may have, and passes the time
//! between two turns. A recorder that has to do something outside its methods stops a turn ([`Step::Stopped`]): then [`run_turns`] ends,
//! and another recorder may go on with the same outside. An engine that goes on with the same recorder calls [`take_turn`] itself, and
//! [`idle`] if worker 0 then has to listen or wait.
//!
//! | clause of `run_turns` | says |
//! |---|---|
//! | `going` (`GoesOn`) | where memory sufficed: what poller and clock said since any beginning stands in what came since, if it did before. So two runs with one outside, one behind the other, are one ([`laws::two_runs_are_one`]); and from the first turn on, on any beginning of which the poller watches active feeds alone, it does ([`laws::first_run_is_true`]) |
//! | `ended`, `left` | where the run has ended: that it has, and what the recorder says of it |
//! | `stopped` | where the recorder stopped a turn: what it says of that |
//! | `kept` | what no step of the recorder changes |
//! | `listens` | no listen was made, and the poller's count of faults did not fall, where memory runs out too |
//!
//! | file of specs/ | says |
//! |---|---|
//! | `Recorded` | what a recorder says of its steps |
//! | `Rushed` | what it may record at the beginning of a turn: choices of worker 0, while nothing can come of the outside |
//! | `Going` | what holds between the turns, and what they come to |
//! | `Followed` | whose the events of a history are, whether any comes of an outside caller, and that they are worker 0's choice |
//! | `Ran` | what a run by any engine promises: `RunsPlan` |
//!
//! While no read source is live, no due time is left, no wait may expire and no intake is open, a turn has nothing to ask of the outside.
//! So a recorder may record one choice of worker 0 after another there ([`Recorder::rush`]), as the list of a run by one worker does.
//!
//! An event that a poller told, a Tick, a Halt and an Expire are the events of the outside; an Accept and a Shut are those of the intake.
//! A run has at most `most` events. Where the intake is open, and nothing is told, the recorder sees to it ([`Recorder::admit`]), and
//! where it has nothing to put now, the turn goes on. What holds of the jobs that are accepted is the recorder's to say; one without
//! outside callers shuts the intake, and no job is ever accepted (`AcceptsNone`).
#![tactic(auto)]

pub mod laws;
mod recorder;
mod turns;

pub use recorder::{Recorder, Step};
pub use turns::{Stop, TurnEnd, idle, run_turns, take_turn};
