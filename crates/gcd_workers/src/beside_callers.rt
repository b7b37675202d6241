// A run of jobs beside callers from outside.
ghost use Rattle.std.specs.Thread.{IsSend, IsSync};
ghost use Rattle.std.specs.Prelude.{◌≡◌, ◌<◌, ◌≤◌, ℕ, false, IfOk, IsErrOf, length, vec_capacity};
ghost use Rattle.gcd_front.specs.Fronts.{IsIntakeOf};
ghost use Rattle.gcd_front.specs.Limits.{max_senders};
ghost use Rattle.gcd_machine.specs.Stands.{StandsFor};
ghost use Rattle.gcd_plan.specs.Limits.{max_workers};
ghost use Rattle.gcd_outer.specs.Outside.{seen};
ghost use Rattle.gcd_turn.specs.Asked.{KeepsListens};
ghost use Rattle.gcd_workers.specs.CalledRuns.{AreNew, HaveCalled, RunsBeside};
ghost use Rattle.gcd_workers.specs.CallersRuns.{IsReadyBeside, RunsFront};
ghost use Rattle.gcd_workers.specs.Met.{met};
ghost use Rattle.gcd_workers.specs.declared.refused.RunRefused.{RunRefused};

use crate::callers::{Callers, Ends, call_and_shut};
use crate::jobs_input::JobsInput;
use crate::ran::Ran;
use crate::refused::RunRefused;
use gcd_front::{Front, Sent};
use gcd_jobs::{Admits, Job};
use gcd_outer::{Clock, Poller};
use gcd_plan::Plan;
use std::alloc::Global;
use std::mem;
use std::sync::Wait;
use std::thread::{Threads, join_mut};

// A run that gets its own thread.
#[derive(Drop)]
struct Given<'a, J> {
    alloc: Global,
    input: JobsInput<'a, J>,
}

impl<'a, J: Job + Drop + Send> Given<'a, J> {
    // Takes the jobs out, and returns the run with them.
    fn take(&mut self) -> JobsInput<'a, J>
        ensures { result ≡ self.old.input }
    {
        JobsInput {
            plan: self.input.plan,
            workers: self.input.workers,
            most: self.input.most,
            jobs: mem::replace(&mut self.input.jobs, Vec::new(self.alloc)),
        }
    }

    // Runs it in its own thread, or after the callers if the system makes no thread. The callers have the front's mouths.
    fn run_beside<
        X: Sent + Drop + Send,
        K: Callers<X>,
        R: Threads + Wait + Sync,
        P: Poller + Send,
        C: Clock + Send,
    >(
        &mut self,
        rt: &R,
        front: &Front<X>,
        ends: &mut Ends<X>,
        callers: &mut K,
        poller: &mut P,
        clock: &mut C,
    ) -> Result<Ran, RunRefused>
    where
        J: Admits<X>,
        requires ready { IsReadyBeside self.old.input front.now ends.old.intake (P.state poller.old) }
        requires new { AreNew front.now ends.old.mouths.items ends.old.lefts.items (vec_capacity ends.old.lefts) }
        ensures ran { IfOk result (RunsFront J.gives X.gives self.old.input front.now ends.new.intake
            (seen P.tells P.state poller.old poller.new) (seen C.tells C.state clock.old clock.new)) }
        ensures stands { IfOk result (λ run. StandsFor run.machine self.old.input.plan.now run.journal.items) }
        ensures intake { IfOk result (λ _. IsIntakeOf front.now ends.new.intake) }
        ensures called { HaveCalled (K.called callers.old callers.new) front.now ends.new.lefts.items }
        ensures kept { KeepsListens P.tells (P.state poller.old) (P.state poller.new) }
        ensures before { IsErrOf result RunRefused.BeforeTheRun → (poller.new ≡ poller.old) × (clock.new ≡ clock.old) }
    {
        let intake = &mut ends.intake;
        let mouths = &mut ends.mouths;
        let lefts = &mut ends.lefts;
        let (ran, ()) = join_mut(
            rt,
            &mut ||
                requires { IsSync R.row × IsSend J.row × IsSend X.row × IsSend P.row × IsSend C.row
                    × IsReadyBeside self.now.input front.now intake.now (P.state poller.now) }
                ensures { IfOk result (RunsFront J.gives X.gives self.entry.now.input front.entry.now intake.exit.now
                    (seen P.tells P.state poller.entry.now poller.exit.now) (seen C.tells C.state clock.entry.now clock.exit.now))
                    × IfOk result (λ _. IsIntakeOf front.entry.now intake.exit.now)
                    × KeepsListens P.tells (P.state poller.entry.now) (P.state poller.exit.now)
                    × IfOk result (λ run. StandsFor run.machine self.entry.now.input.plan.now run.journal.items)
                    × (IsErrOf result RunRefused.BeforeTheRun → (poller.exit.now ≡ poller.entry.now) × (clock.exit.now ≡ clock.entry.now)) }
            {
                self.take()
                    .run(rt, self.alloc, front, intake, poller, clock)
            },
            &mut ||
                requires { IsSync R.row × AreNew front.now mouths.now.items lefts.now.items (vec_capacity lefts.now) }
                ensures { HaveCalled (K.called callers.entry.now callers.exit.now) front.entry.now lefts.exit.now.items }
            { call_and_shut(rt, front, mouths, lefts, callers) },
        );
        ran
    }
}

// Returns how many jobs the front has room for: one for each block of the plan's intake.
fn room_for(plan: &Plan) -> u32
    ensures { 0 < result }
{
    // This call shows that the plan is valid, so its intake has a block.
    let _all = plan.blocks();
    match plan.intake() {
        Some((_, _, blocks)) => blocks,
        None => 1,
    }
}

impl<J: Job + Drop + Send> JobsInput<'_, J> {
    /// Runs the jobs in another thread and `callers` in this one (dispatch_async(3)). The callers hand in jobs through one mouth for each
    /// sender, and there are at most `MAX_SENDERS` of `gcd_front`. The run is that of [`JobsInput::run`] beside a front that has room for as
    /// many jobs as the plan's intake has blocks. If the system makes no thread, the run follows the callers, and finds in the front what
    /// they sent. So callers must not wait for a value, and must stop sending at some time. Returns when both have ended.
    ///
    /// The mouths are shut when [`Callers::call`] returns. The run waits for that, unless each block of the intake has a job before. Whatever
    /// the callers promise of the jobs that they send holds of the jobs that were taken (`ran`). The machine of the result stands for its
    /// journal (`stands`). Tests show, and no clause says, that a front
    /// with room accepts a job, and that each job is run if the run does not end early. A job that is sent beyond the room is refused, or
    /// accepted and never run.
    ///
    /// The poller watches no feed yet. Returns `Err` only if memory runs out, or if the system makes no thread for a worker on whom another
    /// waits. The callers may have been called by then. After [`RunRefused::BeforeTheRun`] no job has run, and poller and clock are as
    /// they were (`before`). The poller listens where it did (`kept`).
    pub fn run_beside<
        X: Sent + Drop + Send,
        K: Callers<X>,
        R: Threads + Wait + Sync,
        P: Poller + Send,
        C: Clock + Send,
    >(
        self,
        rt: &R,
        alloc: Global,
        senders: u8,
        callers: &mut K,
        poller: &mut P,
        clock: &mut C,
    ) -> Result<Ran, RunRefused>
    where
        J: Admits<X>,
        requires jobs { length self.jobs.items ≡ length self.plan.now.blocks }
        requires workers { (0 < self.workers) × (self.workers ≤ max_workers) }
        requires most { 0 < self.most }
        requires senders { senders ≤ max_senders }
        requires unwatched { (feed : ℕ) → (P.state poller.old).watched feed ≡ false }
        ensures ran { IfOk result (RunsBeside J.gives X.gives (K.called callers.old callers.new) self.entry senders
            (met P.Poller poller.old poller.new C.Clock clock.old clock.new)) }
        ensures stands { IfOk result (λ run. StandsFor run.machine self.entry.plan.now run.journal.items) }
        ensures kept { KeepsListens P.tells (P.state poller.old) (P.state poller.new) }
        ensures before { IsErrOf result RunRefused.BeforeTheRun → (poller.new ≡ poller.old) × (clock.new ≡ clock.old) }
    {
        let Ok(lefts) = Vec::with_capacity(alloc, senders as usize) else {
            return Err(RunRefused::BeforeTheRun);
        };
        let room = room_for(self.plan);
        let Ok((front, mouths, intake)) = Front::<X>::new(alloc, room, senders) else {
            return Err(RunRefused::BeforeTheRun);
        };
        let mut ends = Ends {
            intake,
            mouths,
            lefts,
        };
        let mut given = Given { alloc, input: self };
        let ran = given.run_beside(rt, &front, &mut ends, callers, poller, clock)?;
        ends.intake.settle_all(&front, ends.lefts.as_mut_slice());
        Ok(ran)
    }
}
