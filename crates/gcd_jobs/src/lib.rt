//! What runs inside a block, and what runs at a delivery of a source. (This project's own rules: libdispatch leaves both to
//! the caller's code.)
//!
//! | trait | call | what it promises |
//! |---|---|---|
//! | `Job` | `run(self, input)` | gives a value that the job may give at the input (`gives`); it can be called once |
//! | `Admits` | `admit(sent)` | the job that runs what a caller from outside sent (`Sent` of `gcd_front`): at 0 it gives only what that may give |
//! | `Handler` | `take(&mut self, value)` | keeps the kind, raises the times by one, folds the value into the total |
//!
//! | type | its model | what its calls give |
//! |---|---|---|
//! | `FileJob` | the files as lists of bytes and the work, or nothing | the work's value over the files (`work_value` of `gcd_history`), or 0 |
//! | `Tally` | its kind, times and total | `new`: times and total 0 |
//! | `Option` of a job | the job, or none | what the job may give, or 0 |
//! | `Nobody` | one value, of which none is ever sent | 0: the type of what is sent where a run has no outside callers, which a `FileJob` and an `Option` of any job admit |
//!
//! `one_thread` gives the values of a strip's blocks, in order of index, behind what the list has (dispatch_apply(3)). If memory runs
//! out, it answers an `Err` and the list is as before; no other call takes memory.
//!
//! Values are folded by bitwise or at an or source, to the newest at a replace source, and else by addition (`folded` of
//! `gcd_plan`). A work that names no file of the list, or whose range has no byte, counts nothing and gives 0. A `FileJob`
//! borrows its files, so that several threads can run jobs over them.
//!
//! In the program's runs a `Tally` folds what each delivery of a source hands over. A cancelled block has no value (`has_given` of
//! `specs/BlockValues`).
//!
//! Nothing is said of when a job runs, or on which thread. `Job::is_long` says whether it pays to run a job beside others. `FileJob::time` and
//! `counting_time` estimate how long a work takes, and bench/works.sh times the works. No clause says that an estimate is right.
#![tactic(auto)]

mod admits;
mod file_job;
mod handler;
mod job;
mod nobody;
mod strip;
mod tally;
mod times;
mod works;

pub use admits::Admits;
pub use file_job::FileJob;
pub use handler::Handler;
pub use job::Job;
pub use nobody::Nobody;
pub use strip::one_thread;
pub use tally::Tally;
pub use times::{LONG_TIME, counting_time};
