// A run of jobs beside a front.
ghost use Rattle.std.specs.Prelude.{◌≡◌, ◌<◌, ◌≤◌, ℕ, false, [], IfOk, IsErrOf, length};
ghost use Rattle.gcd_front.specs.Fronts.{IsIntakeOf};
ghost use Rattle.gcd_front.specs.Limits.{max_senders};
ghost use Rattle.gcd_machine.specs.Stands.{StandsFor};
ghost use Rattle.gcd_plan.specs.Limits.{max_workers};
ghost use Rattle.gcd_outer.specs.Outside.{seen};
ghost use Rattle.gcd_turn.specs.Asked.{KeepsListens};
ghost use Rattle.gcd_workers.specs.CallersRuns.{RunsFront};
ghost use Rattle.gcd_workers.specs.declared.refused.RunRefused.{RunRefused};

use crate::hiring::hands_for;
use crate::jobs_board::{close, open};
use crate::ran::Ran;
use crate::refused::{RunRefused, begun_refused};
use crate::room::Room;
use crate::team::Team;
use gcd_front::{Front, Intake, Sent};
use gcd_jobs::{Admits, Job};
use gcd_outer::{Clock, Poller};
use gcd_plan::Plan;
use gcd_pool::Pool;
use gcd_steal::Rack;
use std::alloc::{AllocError, Global};
use std::sync::Wait;
use std::thread::Threads;

// A bench pushes at most this many Drains. Later ones sleep.
pub(crate) const MOST_PUSHES: u32 = 4_096;

/// The input of a run of jobs.
#[derive(Drop)]
pub struct JobsInput<'a, J> {
    /// The plan.
    pub plan: &'a Plan,
    /// The run has at most this many workers, 1 to 64: no more than there can be work for ([`team_size`](crate::team_size)), and one if no job
    /// of `jobs` is long ([`Job::is_long`]), senders send to a serial queue or not at all, and the plan has no timer, no read source and no
    /// wait with a limit.
    pub workers: u8,
    /// The run ends at this many events, at least 1. `MAX_EVENTS` of `gcd_plan` is the limit of all runs.
    pub most: u32,
    /// One job for each block of the plan, by number. The first is `main`'s.
    pub jobs: Vec<J>,
}

impl<J: Job + Drop + Send> JobsInput<'_, J> {
    /// Runs the jobs, and the jobs that outside callers send to a front, until the run is quiescent or halted, or has as many events as it
    /// may have. A job runs at most once, at the input 0, when its block comes to its end, and never if its block is cancelled
    /// (dispatch_block_cancel(3)). A block of the plan's intake runs the job that was accepted for it, which [`Admits::admit`] makes. The job
    /// that `jobs` has for such a block is dropped. A plan without an intake accepts nothing. Each source's handler is a tally, and the
    /// result does not show it.
    ///
    /// [`Front::new`] made `front` and `intake` together, and nothing was taken yet. Its senders send from other threads while their mouths
    /// are open (dispatch_async(3)). Worker 0 takes jobs as long as a block of the intake is left. It shuts the intake, with a `Shut` in the
    /// journal, once each block has a job, or once each mouth is shut and all jobs are taken. So if a mouth is never shut, the run waits
    /// until the intake is full. Jobs that are sent beyond that stay in the queue of the front.
    ///
    /// One worker runs alone, in this thread, over a list. `poller` and `clock` are the outside, and the poller watches no feed yet. Returns
    /// `Err` only if memory runs out, before the first turn [`RunRefused::BeforeTheRun`], and poller, clock and intake are as they were
    /// (`before`), later [`RunRefused::InTheRun`]; or [`RunRefused::NoThread`] if the system makes no thread for a worker on whom another
    /// waits. After these two jobs may have run, and jobs that were taken are gone. Nothing is left of the run: the jobs are dropped, the
    /// threads have ended, and the poller listens where it did (`kept`).
    pub fn run<X: Sent + Drop + Send, R: Threads + Wait + Sync, P: Poller, C: Clock>(
        self,
        rt: &R,
        alloc: Global,
        front: &Front<X>,
        intake: &mut Intake<X>,
        poller: &mut P,
        clock: &mut C,
    ) -> Result<Ran, RunRefused>
    where
        J: Admits<X>,
        requires jobs { length self.jobs.items ≡ length self.plan.now.blocks }
        requires workers { (0 < self.workers) × (self.workers ≤ max_workers) }
        requires most { 0 < self.most }
        requires few { front.now.senders ≤ max_senders }
        requires intake { IsIntakeOf front.now intake.old }
        requires untaken { intake.old.taken ≡ [] }
        requires unwatched { (feed : ℕ) → (P.state poller.old).watched feed ≡ false }
        ensures ran { IfOk result (RunsFront J.gives X.gives self.entry front.now intake.new
            (seen P.tells P.state poller.old poller.new)
            (seen C.tells C.state clock.old clock.new)) }
        ensures stands { IfOk result (λ run. StandsFor run.machine self.entry.plan.now run.journal.items) }
        ensures intake { IfOk result (λ _. IsIntakeOf front.now intake.new) }
        ensures kept { KeepsListens P.tells (P.state poller.old) (P.state poller.new) }
        ensures before { IsErrOf result RunRefused.BeforeTheRun → (poller.new ≡ poller.old) × (clock.new ≡ clock.old) × (intake.new ≡ intake.old) }
    {
        let JobsInput {
            plan,
            workers,
            most,
            jobs,
        } = self;
        let workers = hands_for(plan, workers, &jobs, front.senders());
        if workers == 1 {
            let given = JobsInput {
                plan,
                workers,
                most,
                jobs,
            };
            return given.run_by_one(rt, alloc, front, intake, poller, clock);
        }
        let Ok((rack, benches)) = Rack::new(alloc, plan, workers, MOST_PUSHES) else {
            return Err(RunRefused::BeforeTheRun);
        };
        let Ok((board, pass)) = open(alloc, plan, workers, most, jobs) else {
            return Err(RunRefused::BeforeTheRun);
        };
        let Ok(room) = Room::new(alloc, pass.machine(), benches) else {
            return Err(RunRefused::BeforeTheRun);
        };
        let pool = Pool::new(&board, &rack, plan);
        let team = Team::new(&pool, pass, room, Vec::new(alloc));
        let (last, gathered) = match team.run(rt, front, intake, poller, clock) {
            Ok(left) => left,
            Err(fault) => return Err(begun_refused(fault)),
        };
        drop(pool);
        match close(alloc, board, last, gathered) {
            Ok(run) => Ok(run),
            Err(AllocError) => Err(RunRefused::InTheRun),
        }
    }
}
