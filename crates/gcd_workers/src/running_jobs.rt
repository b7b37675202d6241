// A run of a caller's own jobs with the outside in memory.
ghost use Rattle.std.specs.Prelude.{◌≡◌, ◌<◌, ◌≤◌, Some, IfOk, length, map};
ghost use Rattle.gcd_machine.specs.Stands.{StandsFor};
ghost use Rattle.gcd_plan.specs.Limits.{max_workers};
ghost use Rattle.gcd_plan.specs.Validity.{IsPlan};
ghost use Rattle.gcd_workers.specs.JobsRuns.{RunsJobs};

use crate::jobs_input::JobsInput;
use crate::nobodys_front::nobodys_front;
use crate::ran::Ran;
use crate::silent::SilentPoller;
use gcd_jobs::Job;
use gcd_outer::JumpClock;
use gcd_plan::Plan;
use gcd_pool::PoolFault;
use std::alloc::{AllocError, Global};
use std::sync::Wait;
use std::thread::Threads;

// Wraps the jobs for a run without senders. A block of an intake would have None.
fn some_of_each<J: Drop>(alloc: Global, jobs: Vec<J>) -> Result<Vec<Option<J>>, AllocError>
    ensures { IfOk result (λ v. v.items ≡ map Some jobs.items) }
{
    jobs.into_iter().map(Some).collect(alloc)
}

// Returns the number of workers, but one if no job is long: nothing holds worker 0 up where the outside is in memory.
fn workers_for<J: Job>(workers: u8, jobs: &[J]) -> u8
    requires { 0 < workers }
    ensures some { 0 < result }
    ensures few { result ≤ workers }
{
    for job in jobs {
        if job.is_long() {
            return workers;
        }
    }
    1
}

// Runs one job for each block by a team of at most this many workers.
pub fn run_by_team<J: Job + Drop + Send, R: Threads + Wait + Sync>(
    rt: &R,
    alloc: Global,
    plan: &Plan,
    workers: u8,
    most: u32,
    jobs: Vec<J>,
) -> Result<Ran, PoolFault>
    requires valid { IsPlan plan.now }
    requires jobs { length jobs.items ≡ length plan.now.blocks }
    requires workers { (0 < workers) × (workers ≤ max_workers) }
    requires most { 0 < most }
    ensures ran { IfOk result (RunsJobs J.gives most plan.now jobs.items workers) }
    ensures stands { IfOk result (λ run. StandsFor run.machine plan.now run.journal.items) }
{
    let mut poller = SilentPoller::new();
    let (front, mut intake) = nobodys_front(alloc)?;
    let given = JobsInput {
        plan,
        workers: workers_for(workers, &jobs),
        most,
        jobs: some_of_each(alloc, jobs)?,
    };
    let mut clock = JumpClock::new(0);
    let ran = given.run(rt, alloc, &front, &mut intake, &mut poller, &mut clock)?;
    Ok(ran)
}
