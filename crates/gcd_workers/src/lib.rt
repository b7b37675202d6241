//! The engines that run a plan: worker 0 alone over a list, and a team over a row, which may go on from a list. (This project's own rules:
//! libdispatch's pool of threads promises an order of blocks, and not which thread runs one.)
//!
//! | to run | call |
//! |---|---|
//! | the works of a script's blocks over the contents of its files | [`run_workers`], with what it is given ([`Over`]) |
//! | any function as the job of each block | [`Dispatch::run`] |
//! | a list of jobs, one for each block | [`Dispatch::run_list`] |
//! | jobs that threads which are no workers send while the queue runs | [`run_callers`], with an impl of [`Callers`] that says what they send ([`Called`]) |
//! | jobs of both kinds, with a poller, a clock or a limit of events of one's own | [`JobsInput::run_beside`] |
//! | the same beside a front (`gcd_front`) that the caller made, in a thread of its own by [`run_beside`], beside a [`Side`] | [`JobsInput::run`] |
//! | a board with handlers of one's own, and a rack | [`Team`] |
//!
//! [`JobsInput::run`] makes rack, board and pool, and a [`Team`] of as many hands as there can be work for, and closes the board at the end.
//! The board is made for as many workers as there are hands, because a worker that never passes on what it has seen would hold the others.
//! For one worker it makes none of them: worker 0 runs alone over its list, which has a job or a value for each block, and takes the jobs of
//! outside callers as they come. It starts and ends a block at once where it can.
//!
//! [`run_workers`] begins with worker 0 alone, which keeps the events in a list, as [`run_alone`] does to the end. Before the Start of a long
//! block it asks [`hands_worth`] whether a team pays. If so, a board is made whose row begins with the list. Its slots have the values of the
//! blocks that have ended, the jobs of the others ([`file_jobs`] makes such jobs for a board of one's own), and tallies that took what sources
//! have handed over. The team goes on with the same outside. List and row are recorders of one loop, that of `gcd_loop`. (`gcd_example` and
//! `gcd_callers_example` call [`Dispatch::run`] and [`run_callers`].)
//!
//! A run goes on until it is quiescent or halted, or has so many events as its caller allows, `most`, which may be any number up to
//! `MAX_EVENTS` of `gcd_plan`. Nothing of that size is taken at once: the journal grows with the run.
//!
//! All runs of jobs take jobs from a front. Without outside callers that is a front without senders, so nothing is accepted, and an intake of
//! the plan is shut at once.
//!
//! | call | answer |
//! |---|---|
//! | [`team_size`] | how many of so many workers there can be work for, at least 1 |
//! | [`hands_worth`] | how many hands run fastest what is left of a run over files, at least 1 |
//! | [`Dispatch::new`], [`Dispatch::workers`], [`Dispatch::most`] | a run that is asked for: of the plan, by at most so many workers, of at most so many events |
//! | [`Ran::value`], [`Ran::state`], [`Ran::journal`] | the value of a block, the state, and the events of a run of jobs |
//! | [`Ran::report`] | the report of a run of jobs as a text (`jobs_report` of `gcd_journal`), or out of memory |
//! | [`tallies_of`], [`file_jobs`] | a tally for each source, and a job for each block's work, as a board has them, or out of memory |
//! | [`run_workers`], [`run_alone`] | the journal, the blocks' values, the state and the machine of a run over files (`RunsOverFiles`), or out of memory |
//! | [`Dispatch::run`] | the same of a run of jobs that a function makes ([`Ran`], `RunsJobsOf`), or why there is none: no number of workers, no event, out of memory |
//! | [`Dispatch::run_list`] | the same of a run of the jobs of a list (`RunsJobs`), or why there is none: another number of jobs, no number of workers, no event, out of memory |
//! | [`run_callers`] | the same of a run whose work comes from its callers (`RunsCallers`), or why there is none: no intake, no number of workers or of senders, out of memory |
//! | [`JobsInput::run_beside`], [`JobsInput::run`] | the same beside callers (`RunsBeside`), or beside a front and its intake (`RunsFront`), or out of memory |
//! | [`Team::run`] | worker 0's pass of a run that has ended, and the journal of what was gathered of it, with which the board may be closed (`HasLed`, `RunsPlan`, `IsGathered`), and which jobs its senders' blocks have (`Admitted`), or out of memory |
//! | [`run_beside`] | nothing; each of two sides has run, and has become what its `ran` says |
//!
//! | clause of [`run_workers`] and [`run_alone`] | says |
//! |---|---|
//! | `ran` (`RunsOverFiles`) | the journal is lawful, has at most `most` events, and has ended, in the state told; each event is of one of the workers, and with one of them each event of a worker is what worker 0 chooses at its place; no job of an outside caller is accepted, since there are none, and what poller and clock said stands in it (`RunsPlan` of `gcd_loop`); and the values are those of the works of the blocks that have ended and are not cancelled, and else 0 |
//! | `stands` | the machine that is left stands for the journal |
//! | `kept` | no listen was made, and the poller's count of faults did not fall; this holds if memory runs out too, and of the calls of [`JobsInput`] |
//! | `before` | if the answer is [`RunRefused::BeforeTheRun`], poller and clock are as they were; this holds of the calls of [`JobsInput`] too |
//!
//! | clause of `Dispatch::run_list` | says |
//! |---|---|
//! | `ran` (`RunsJobs`) | the journal is lawful, has at most `most` events, and has ended, in the state told, and nothing halts it from outside; whose its events are, as above; and a block has a value exactly if it has ended and is not cancelled, which is one that its own job may give (`AreGiven`) |
//! | `stands` | the machine that is left stands for the journal, so the run has a report; this holds of each call that runs jobs |
//! | `job_count`, `worker_count`, `event_count` | it is refused by that name exactly if there is not one job for each block; if otherwise the number of workers is 0 or above 64; and if otherwise there may be no event |
//!
//! | clause of `Dispatch::run` | says |
//! |---|---|
//! | `ran` (`RunsJobsOf`) | there are jobs, one for each block, each of which the function may return for its block, of whose run `RunsJobs` holds |
//! | `job_count`, `worker_count`, `event_count` | it is never refused for the number of jobs; it is refused by the other names exactly if the number of workers is 0 or above 64, and if otherwise there may be no event |
//!
//! | part of `RunsFront` | says |
//! |---|---|
//! | `run`, `state_is` | what a run of any engine promises (`RunsPlan`), and its state; each job that was accepted is of a sender of the front (`AcceptsOf`) |
//! | `given` | a block has a value exactly if it has ended and is not cancelled; if it is not of the plan's intake, one that its own job may give |
//! | `callers` | of each sender the jobs that the intake took begin with those of the blocks that were accepted of it, in order, a job for a block; if such a block has ended, its value is one that its caller's job may give (`OfSender`). No act cancels a block of the intake |
//! | `all` | if a Shut stands, all jobs that were taken were accepted |
//! | `why_shut` | if a Shut stands, each block of the intake is accepted, or all mouths were shut, and all that was sent was taken |
//!
//! Of what a sender sent, its account, the part that was taken is told by `settle` of the front's intake.
//!
//! | clause of `run_callers` | says |
//! |---|---|
//! | `ran` (`RunsCallers`) | there are a front with so many senders, its intake, beside which `RunsFront` holds, with a job that gives 0 for each block of the plan itself, and mouths that the callers left as they say, of whose senders the intake took what was sent first (`RunsBeside`), and nothing halts the run from outside. So of each sender the blocks that were accepted ran jobs that were taken of it, in order, each once, and their values are those that these may give |
//! | `no_intake`, `worker_count`, `sender_count` | it is refused by that name exactly if the plan has no intake; if otherwise the number of workers is 0 or above 64; and if otherwise that of senders is |
//!
//! The callers say of themselves what calling comes to (`called` of [`Callers`]): what they were and are, and the mouths as they leave them,
//! with all that was sent through each. `ran` says that it is so of mouths of which the intake took what it took: the jobs that were taken
//! of a sender are how those begin that were sent through its mouth, and all of them if the intake knew that each mouth was shut, and
//! has taken all (`IsTakenOf`), as it has if a Shut stands and not each block of the intake is accepted (`why_shut`).
//!
//! A run by worker 0 alone takes memory before its first turn, and when its list has to grow; what is left of it at a refusal
//! is nothing, and the answer tells which of the two it was ([`RunRefused`]). So with a given clock and poller its journal is exact. A team
//! takes memory before the first turn, after the last, and when worker 0 gathers what it has seen, which it does each time that about 1,024
//! events more have come. So both may be refused memory in the midst of a run. So may a team be refused a thread for one of its workers:
//! that worker sees nothing, and once the others have waited ten seconds for it the run is given up, as if memory were refused. Blocks have
//! run then, poller and clock have told what they have told, and nothing is left of the run: no journal, no value and no state. A team's
//! threads have ended, each with what it did. The poller listens where it did before. The threads decide which worker of a team does what,
//! so the journal differs from run to run; each is lawful.
//!
//! A run waits for others, so nothing says that a call returns: a clock may stand still, and a poller may tell for ever of feeds that are no
//! longer live. No clause says that a helper ever places an event.
//!
//! A job must not wait for the job of another block: what it waits for may be held by it (docs/rules.md).
#![tactic(auto)]

mod alone;
mod beside;
mod beside_callers;
mod by_block;
mod called;
mod callers;
mod callers_refused;
mod dispatch;
mod gather;
mod go_on;
mod hire;
mod hiring;
mod job_state;
mod jobs_alone;
mod jobs_board;
mod jobs_input;
mod jobs_kept;
mod jobs_refused;
mod list_run;
mod nobodys_front;
mod opening;
mod outcome;
mod over;
mod ran;
mod refused;
mod room;
mod running_callers;
mod running_jobs;
mod silent;
mod tallies;
mod team;
mod workers;
mod works;
mod worth;

pub use alone::run_alone;
pub use beside::{Side, run_beside};
pub use called::Called;
pub use callers::Callers;
pub use callers_refused::CallersRefused;
pub use dispatch::Dispatch;
pub use hiring::team_size;
pub use jobs_input::JobsInput;
pub use jobs_refused::JobsRefused;
pub use outcome::Outcome;
pub use over::Over;
pub use ran::Ran;
pub use refused::RunRefused;
pub use room::Room;
pub use running_callers::run_callers;
pub use tallies::tallies_of;
pub use team::Team;
pub use workers::run_workers;
pub use works::file_jobs;
pub use worth::hands_worth;
