// What each block of a run of jobs has: its job, and once that ran its value.
ghost use Rattle.std.specs.Prelude.{◌≡◌, ◌∷◌, ◌++◌, ◌<◌, [], ℕ, List, IfOk, length, map, slice_get, Some};
ghost use Rattle.gcd_event.specs.declared.event.Event.{Event};
ghost use Rattle.gcd_workers.specs.JobStates.{HasRun, said};
ghost use Rattle.gcd_workers.specs.declared.job_state.JobState.TheVariants.{Waits};

use gcd_jobs::Job;
use gcd_plan::Blk;
use std::alloc::{AllocError, Global};
use std::mem;

/// A block's job until that runs, and then its value.
#[derive(Drop)]
pub(crate) enum JobState<J> {
    /// The job has not run. That of a cancelled block never runs.
    Waits(J),
    /// The job gave this.
    Gave(u64),
}

/// Makes a state for each job: it waits.
pub(crate) fn waiting<J: Drop>(alloc: Global, jobs: Vec<J>) -> Result<Vec<JobState<J>>, AllocError>
    ensures { IfOk result (λ states. states.items ≡ map Waits jobs.items) }
{
    jobs.into_iter().map(JobState::Waits).collect(alloc)
}

// Returns the value that a job gave, if it ran. A job that did not run is dropped.
fn said<J: Drop>(state: JobState<J>) -> Option<u64>
    ensures { result ≡ said state }
{
    match state {
        JobState::Waits(_) => None,
        JobState::Gave(value) => Some(value),
    }
}

/// Returns the values of the blocks, by number.
pub(crate) fn values_of<J: Drop>(
    alloc: Global,
    states: Vec<JobState<J>>,
) -> Result<Vec<Option<u64>>, AllocError>
    ensures { IfOk result (λ values. values.items ≡ map said states.items) }
{
    states.into_iter().map(said).collect(alloc)
}

/// Runs the job of a block, which has not run.
#[inline(always)]
pub(crate) fn run_job<J: Job + Drop>(states: &mut Vec<JobState<J>>, b: Blk)
    requires { (job : J) × (slice_get states.old.items b.0 ≡ Some (Waits job)) }
    ensures { HasRun J.gives b.0 states.old.items states.new.items }
{
    let state = mem::replace(&mut states[b.0 as usize], JobState::Gave(0));
    match state {
        JobState::Waits(job) => {
            states[b.0 as usize] = JobState::Gave(job.run(0));
        }
        JobState::Gave(_) => unreachable!(),
    }
}
