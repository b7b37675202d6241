// One call that runs the jobs of outside callers.
ghost use Rattle.std.specs.Prelude.{◌≡◌, ◌≢◌, ◌<◌, ◌≤◌, ◌↔◌, None, IfOk, IsErrOf};
ghost use Rattle.gcd_front.specs.Limits.{max_senders};
ghost use Rattle.gcd_machine.specs.Stands.{StandsFor};
ghost use Rattle.gcd_plan.specs.Limits.{max_workers};
ghost use Rattle.gcd_workers.specs.CalledRuns.{IsNoCrowd, RunsCallers, nothings};
ghost use Rattle.gcd_workers.specs.JobsRuns.{AreWorkers, IsNoTeam};
ghost use Rattle.gcd_workers.specs.declared.callers_refused.CallersRefused.{CallersRefused};

use crate::called::Called;
use crate::callers::Callers;
use crate::callers_refused::CallersRefused;
use crate::jobs_input::JobsInput;
use crate::ran::Ran;
use crate::silent::SilentPoller;
use gcd_front::{MAX_SENDERS, Sent};
use gcd_outer::JumpClock;
use gcd_plan::{MAX_EVENTS, MAX_WORKERS, Plan};
use gcd_pool::PoolFault;
use std::alloc::{AllocError, Global};
use std::sync::Wait;
use std::thread::Threads;

// Makes this many jobs that do nothing.
fn nothings<X: Drop>(alloc: Global, blocks: u32) -> Result<Vec<Called<X>>, AllocError>
    ensures { IfOk result (λ jobs. jobs.items ≡ nothings blocks) }
{
    let mut jobs = Vec::with_capacity(alloc, blocks as usize)?;
    for _ in 0..blocks {
        jobs.push(Called::Nothing)?;
    }
    Ok(jobs)
}

// Runs beside callers that have this many mouths.
fn run_by_callers<X: Sent + Drop + Send, C: Callers<X>, R: Threads + Wait + Sync>(
    rt: &R,
    alloc: Global,
    plan: &Plan,
    workers: u8,
    senders: u8,
    callers: &mut C,
) -> Result<Ran, PoolFault>
    requires workers { (0 < workers) × (workers ≤ max_workers) }
    requires senders { senders ≤ max_senders }
    ensures ran { IfOk result (RunsCallers X.gives (C.called callers.old callers.new) plan.now workers senders) }
    ensures stands { IfOk result (λ run. StandsFor run.machine plan.now run.journal.items) }
{
    let mut poller = SilentPoller::new();
    let given = JobsInput {
        plan,
        workers,
        most: MAX_EVENTS,
        jobs: nothings::<X>(alloc, plan.blocks())?,
    };
    let mut clock = JumpClock::new(0);
    let ran = given.run_beside(rt, alloc, senders, callers, &mut poller, &mut clock)?;
    Ok(ran)
}

/// Runs a plan whose work comes from callers outside, and the callers beside it: the plan by at most so many workers, each in a thread of its
/// own, until the run is quiescent, or a misuse ends it, or it has as many events as a run can have; and in this thread `callers`, which hand
/// in jobs through the mouths of so many senders (dispatch_async(3)). There are no more workers than there can be work for: one if the intake
/// is on a serial queue, and the plan has no timer, no read source and no wait with a limit. The next block of the plan's intake runs each
/// job that is accepted, and the values lie by block ([`Ran`]); the journal tells by an `Accept` each which block is whose job. The blocks of
/// the plan itself have no work of their own, and give 0 ([`Called`](crate::Called)). How mouths, front and threads go along is told at
/// [`JobsInput::run_beside`](crate::JobsInput::run_beside).
///
/// The outside is in memory, as [`Dispatch`](crate::Dispatch) has it: no feed is told of, and time jumps. A caller with feeds, with a
/// clock, with a limit of events or with work for the plan's own blocks calls [`JobsInput::run_beside`](crate::JobsInput::run_beside).
///
/// Returns the first refusal that applies: [`CallersRefused::NoIntake`] exactly if the plan has no intake,
/// [`CallersRefused::WorkerCount`] exactly if otherwise the number of workers is 0 or greater than `MAX_WORKERS`, which is 64,
/// [`CallersRefused::SenderCount`] exactly if otherwise the number of senders is 0 or greater than `MAX_SENDERS`, which is 64,
/// [`CallersRefused::OutOfMemory`] only if memory runs out, and [`CallersRefused::NoThread`] only if the system makes no thread for a worker
/// on whom another waits. Each leaves nothing of a run. With the last two the callers may have been called, and jobs may have run. With the
/// others no job has run, and the callers are as they were.
pub fn run_callers<X: Sent + Drop + Send, C: Callers<X>, R: Threads + Wait + Sync>(
    rt: &R,
    alloc: Global,
    plan: &Plan,
    workers: u8,
    senders: u8,
    callers: &mut C,
) -> Result<Ran, CallersRefused>
    ensures no_intake { IsErrOf result CallersRefused.NoIntake ↔ (plan.now.intake ≡ None) }
    ensures worker_count { IsErrOf result CallersRefused.WorkerCount ↔ ((plan.now.intake ≢ None) × IsNoTeam workers) }
    ensures sender_count { IsErrOf result CallersRefused.SenderCount ↔ ((plan.now.intake ≢ None) × AreWorkers workers × IsNoCrowd senders) }
    ensures no_intake_uncalled { IsErrOf result CallersRefused.NoIntake → callers.new ≡ callers.old }
    ensures worker_count_uncalled { IsErrOf result CallersRefused.WorkerCount → callers.new ≡ callers.old }
    ensures sender_count_uncalled { IsErrOf result CallersRefused.SenderCount → callers.new ≡ callers.old }
    ensures ran { IfOk result (RunsCallers X.gives (C.called callers.old callers.new) plan.now workers senders) }
    ensures stands { IfOk result (λ run. StandsFor run.machine plan.now run.journal.items) }
{
    let Some(_) = plan.intake() else {
        return Err(CallersRefused::NoIntake);
    };
    if workers == 0 {
        return Err(CallersRefused::WorkerCount);
    }
    if u32::from(workers) > MAX_WORKERS {
        return Err(CallersRefused::WorkerCount);
    }
    if senders == 0 {
        return Err(CallersRefused::SenderCount);
    }
    if senders > MAX_SENDERS {
        return Err(CallersRefused::SenderCount);
    }
    match run_by_callers(rt, alloc, plan, workers, senders, callers) {
        Ok(run) => Ok(run),
        Err(PoolFault::Memory) => Err(CallersRefused::OutOfMemory),
        Err(PoolFault::NoThread) => Err(CallersRefused::NoThread),
    }
}
