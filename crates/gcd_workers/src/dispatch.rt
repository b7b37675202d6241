// The form of a run of a caller's own jobs.
ghost use Rattle.std.specs.Prelude.{◌≡◌, ◌≢◌, ◌↔◌, IfOk, IsErrOf, length};
ghost use Rattle.gcd_machine.specs.Stands.{StandsFor};
ghost use Rattle.gcd_plan.specs.Limits.{max_events};
ghost use Rattle.gcd_workers.specs.JobsOf.{RunsJobsOf};
ghost use Rattle.gcd_workers.specs.JobsRuns.{AreWorkers, IsNoTeam, RunsJobs};
ghost use Rattle.gcd_workers.specs.declared.jobs_refused.JobsRefused.{JobsRefused};

use crate::by_block::jobs_of;
use crate::jobs_refused::JobsRefused;
use crate::ran::Ran;
use crate::running_jobs::run_by_team;
use gcd_jobs::Job;
use gcd_plan::{Blk, MAX_EVENTS, MAX_WORKERS, Plan};
use gcd_pool::PoolFault;
use std::alloc::Global;
use std::sync::Wait;
use std::thread::Threads;

/// A run of a caller's own jobs, as it is asked for: `Dispatch::new(&plan).workers(4).run(&rt, alloc, |block| ..)`.
///
/// The run goes on until it is quiescent, or a misuse ends it, or it has `most` events. Each block has a job, which runs at most once, at the
/// input 0, when its block comes to its end, and never if its block is cancelled (dispatch_block_cancel(3)). A block has a value exactly if
/// it has ended and is not cancelled. There are no outside callers: an intake is shut at once. Each source's handler is a tally, of which
/// nothing is told. If no job is long ([`Job::is_long`]), worker 0 runs them all.
///
/// The outside is in memory. No feed is told of: a read source delivers nothing, and its feed ends once worker 0 gives up a silent feed,
/// after so many empty answers. Time jumps: each due time comes as soon as worker 0 has nothing else to do, so a run waits for no timer and
/// for no limit of a wait, and no Tick says anything of real time. A caller with feeds or a clock of its own calls
/// [`JobsInput::run`](crate::JobsInput::run), and one whose jobs come from other threads [`run_callers`](crate::run_callers).
#[derive(Drop)]
pub struct Dispatch<'a> {
    /// The plan.
    pub plan: &'a Plan,
    /// The run has at most this many workers, 1 to 64: not more than there can be work for. A run by another number is refused.
    pub workers: u8,
    /// The run ends at this many events, at least 1. A run of no event is refused.
    pub most: u32,
}

impl<'a> Dispatch<'a> {
    /// Asks for a run of this plan by one worker, with no limit of events but that of all runs, `MAX_EVENTS` of `gcd_plan`. (This project's
    /// own rule.)
    pub fn new(plan: &'a Plan) -> Dispatch<'a>
        ensures plan { result.plan.now ≡ plan.now }
        ensures workers { result.workers ≡ 1 }
        ensures most { result.most ≡ max_events }
    {
        Dispatch {
            plan,
            workers: 1,
            most: MAX_EVENTS,
        }
    }

    /// Asks for at most so many workers instead. The calls that run refuse 0, and more than 64.
    pub fn workers(self, workers: u8) -> Dispatch<'a>
        ensures plan { result.plan.now ≡ self.entry.plan.now }
        ensures workers { result.workers ≡ workers }
        ensures most { result.most ≡ self.entry.most }
    {
        Dispatch {
            plan: self.plan,
            workers,
            most: self.most,
        }
    }

    /// Asks for an end at this many events instead. The calls that run refuse 0.
    pub fn most(self, most: u32) -> Dispatch<'a>
        ensures plan { result.plan.now ≡ self.entry.plan.now }
        ensures workers { result.workers ≡ self.entry.workers }
        ensures most { result.most ≡ most }
    {
        Dispatch {
            plan: self.plan,
            workers: self.workers,
            most,
        }
    }

    /// Runs the plan with the jobs that `job_of` makes, which is called once for each block, the first of which, number 0, is `main`. The
    /// call makes board, rack, tallies, poller and clock, and drops them.
    ///
    /// Returns the first refusal that applies: [`JobsRefused::WorkerCount`] exactly if the number of workers is 0 or greater than
    /// `MAX_WORKERS`, which is 64, [`JobsRefused::EventCount`] exactly if otherwise `most` is 0, [`JobsRefused::OutOfMemory`] only if memory
    /// runs out, and [`JobsRefused::NoThread`] only if the system makes no thread for a worker on whom another waits. Each leaves nothing of a
    /// run, and the jobs are dropped; but the last two may come in the midst of a run, and then some jobs have run. The first two make no
    /// job.
    pub fn run<J: Job + Drop + Send, F: Fn(Blk) -> J, R: Threads + Wait + Sync>(
        self,
        rt: &R,
        alloc: Global,
        job_of: F,
    ) -> Result<Ran, JobsRefused>
        requires { F.IsAlwaysCallable job_of }
        ensures job_count { IsErrOf result JobsRefused.JobCount → ⊥ }
        ensures worker_count { IsErrOf result JobsRefused.WorkerCount ↔ IsNoTeam self.entry.workers }
        ensures event_count { IsErrOf result JobsRefused.EventCount ↔ AreWorkers self.entry.workers × (self.entry.most ≡ 0) }
        ensures ran { IfOk result (RunsJobsOf (λ b job. F.post job_of b job) J.gives self.entry.most self.entry.plan.now self.entry.workers) }
        ensures stands { IfOk result (λ run. StandsFor run.machine self.entry.plan.now run.journal.items) }
    {
        if self.workers == 0 {
            return Err(JobsRefused::WorkerCount);
        }
        if u32::from(self.workers) > MAX_WORKERS {
            return Err(JobsRefused::WorkerCount);
        }
        if self.most == 0 {
            return Err(JobsRefused::EventCount);
        }
        let Ok(jobs) = jobs_of(alloc, self.plan, job_of) else {
            return Err(JobsRefused::OutOfMemory);
        };
        self.run_list(rt, alloc, jobs)
    }

    /// Runs the plan with these jobs, one for each block, by number, so the first is `main`'s. The run is that of [`Dispatch::run`].
    ///
    /// Returns the first refusal that applies: [`JobsRefused::JobCount`] exactly if the number of jobs is not that of the plan's blocks,
    /// [`JobsRefused::WorkerCount`] exactly if otherwise the number of workers is 0 or greater than `MAX_WORKERS`, which is 64,
    /// [`JobsRefused::EventCount`] exactly if otherwise `most` is 0, and the other two as of [`Dispatch::run`]. Each drops the jobs.
    pub fn run_list<J: Job + Drop + Send, R: Threads + Wait + Sync>(
        self,
        rt: &R,
        alloc: Global,
        jobs: Vec<J>,
    ) -> Result<Ran, JobsRefused>
        ensures job_count { IsErrOf result JobsRefused.JobCount ↔ (length jobs.items ≢ length self.entry.plan.now.blocks) }
        ensures worker_count { IsErrOf result JobsRefused.WorkerCount ↔ ((length jobs.items ≡ length self.entry.plan.now.blocks)
            × IsNoTeam self.entry.workers) }
        ensures event_count { IsErrOf result JobsRefused.EventCount ↔ ((length jobs.items ≡ length self.entry.plan.now.blocks)
            × AreWorkers self.entry.workers × (self.entry.most ≡ 0)) }
        ensures ran { IfOk result (RunsJobs J.gives self.entry.most self.entry.plan.now jobs.items self.entry.workers) }
        ensures stands { IfOk result (λ run. StandsFor run.machine self.entry.plan.now run.journal.items) }
    {
        if jobs.len() != self.plan.blocks() as usize {
            return Err(JobsRefused::JobCount);
        }
        if self.workers == 0 {
            return Err(JobsRefused::WorkerCount);
        }
        if u32::from(self.workers) > MAX_WORKERS {
            return Err(JobsRefused::WorkerCount);
        }
        if self.most == 0 {
            return Err(JobsRefused::EventCount);
        }
        match run_by_team(rt, alloc, self.plan, self.workers, self.most, jobs) {
            Ok(run) => Ok(run),
            Err(PoolFault::Memory) => Err(JobsRefused::OutOfMemory),
            Err(PoolFault::NoThread) => Err(JobsRefused::NoThread),
        }
    }
}
