// A run of jobs by worker 0 alone, over its list.
ghost use Rattle.std.specs.Prelude.{◌≡◌, ◌<◌, ◌≤◌, [], true, false, ℕ, List, Some, IfOk, OnOk, IsErrOf, length, map};
ghost use Rattle.gcd_event.specs.declared.event.Event.{Event};
ghost use Rattle.gcd_history.specs.Ends.{HasState};
ghost use Rattle.gcd_history.specs.History.{is_intake_open, next_of_intake};
ghost use Rattle.gcd_front.specs.Fronts.{IsIntakeOf};
ghost use Rattle.gcd_front.specs.Limits.{max_senders};
ghost use Rattle.gcd_loop.specs.Recorded.{Admits};
ghost use Rattle.gcd_machine.specs.Stands.{StandsFor};
ghost use Rattle.gcd_outer.specs.Outside.{seen};
ghost use Rattle.gcd_plan.specs.PlanView.{PlanView};
ghost use Rattle.gcd_turn.specs.Asked.{KeepsListens};
ghost use Rattle.gcd_turn.specs.Outsides.{IsSame, faced};
ghost use Rattle.gcd_turn.specs.Turns.{HasRoom};
ghost use Rattle.gcd_workers.specs.JobsAlone.{HasGoneAlone};
ghost use Rattle.gcd_workers.specs.CallersRuns.{RunsFront};
ghost use Rattle.gcd_workers.specs.JobsKept.{IsAlone};
ghost use Rattle.gcd_workers.specs.JobStates.{said};
ghost use Rattle.gcd_workers.specs.declared.refused.RunRefused.{RunRefused};

use crate::job_state::values_of;
use crate::jobs_input::JobsInput;
use crate::jobs_kept::{JobsGiven, JobsKept};
use crate::ran::Ran;
use crate::refused::RunRefused;
use gcd_event::Event;
use gcd_front::{Front, Intake, Sent};
use gcd_jobs::{Admits, Job};
use gcd_loop::{Recorder, Step, Stop, run_turns};
use gcd_machine::{Machine, Put};
use gcd_outer::{Clock, Poller};
use gcd_plan::{Blk, Plan};
use gcd_pool::FrontIdle;
use gcd_turn::Outside;
use std::alloc::{AllocError, Global};
use std::snapshot::Snapshot;
use std::sync::Wait;

// Accepts the next job as block b. If there is no job, and all mouths were shut before the look, shuts the intake. Returns None if it put
// neither event.
#[inline(always)]
fn take_in<J: Job + Admits<X> + Drop, X: Sent + Drop, R: Wait>(
    rt: &R,
    given: &JobsGiven<J>,
    kept: &mut JobsKept<J>,
    front: &Front<X>,
    intake: &mut Intake<X>,
    b: Blk,
) -> Result<Option<Put>, AllocError>
    requires alone { IsAlone J.gives X.gives given.now kept.old front.now intake.old }
    requires room { HasRoom given.now.most given.now.plan.now kept.old.journal.items }
    requires open { is_intake_open given.now.plan.now kept.old.journal.items ≡ true }
    requires next { next_of_intake given.now.plan.now kept.old.journal.items ≡ Some b }
    ensures alone { OnOk result (IsAlone J.gives X.gives given.now kept.new front.now intake.new) }
    ensures said { IfOk result (Admits given.now.most given.now.plan.now kept.old.journal.items kept.new.journal.items) }
{
    let all_shut = intake.all_shut(front);
    match intake.take(rt, front) {
        Some((sender, _, job)) => {
            let put = kept.accept(given, b, sender, J::admit(job))?;
            Ok(Some(put))
        }
        None => {
            if all_shut {
                let put = kept.put_one(given, Event::Shut)?;
                return Ok(Some(put));
            }
            Ok(None)
        }
    }
}

// Worker 0 as the recorder of its loop. Its fields keep their references.
#[derive(Drop)]
struct Alone<'a, 'h, J, X: Drop> {
    given: &'h JobsGiven<'a, J>,
    kept: &'h mut JobsKept<J>,
    front: &'h Front<X>,
    intake: &'h mut Intake<X>,
    idle: &'h mut FrontIdle,
}

impl<'a, 'h, J: Job + Admits<X> + Drop, X: Sent + Drop> Recorder for Alone<'a, 'h, J, X> {
    type Fault = AllocError;

    ghost use Rattle.std.specs.Prelude.{◌≡◌};
    ghost use Rattle.gcd_workers.specs.JobsAlone.{KeepsAlone};
    ghost use Rattle.gcd_workers.specs.JobsKept.{IsAlone, alone_sight};

    ghost bounds = { λ r. record { plan = r.given.now.plan.now; most = r.given.now.most } };

    ghost seen = { λ r. r.kept.now.journal.items };

    ghost sight = { λ r. r.kept.now.machine };

    ghost ready = { λ r. IsAlone J.gives X.gives r.given.now r.kept.now r.front.now r.intake.now };

    ghost kept = { λ a r. KeepsAlone a r };

    ghost left = { λ r. IsAlone J.gives X.gives r.given.now r.kept.now r.front.now r.intake.now };

    ghost stopped = { λ r. ⊥ };

    ghost stands = { λ r is. alone_sight J.gives X.gives r.given.now r.kept.now r.front.now r.intake.now is };

    ghost leaves = { λ r is. is };

    #[inline(always)]
    fn plan(&self) -> &Plan
        ensures { result.now ≡ self.now.given.now.plan.now }
    {
        self.given.plan
    }

    #[inline(always)]
    fn most(&self) -> u32 {
        self.given.most
    }

    #[inline(always)]
    fn machine(&self) -> &Machine
        ensures { result.now ≡ self.now.kept.now.machine }
    {
        &self.kept.machine
    }

    #[inline(always)]
    fn look(&mut self) {}

    #[inline(always)]
    fn rush(&mut self) -> Result<(), AllocError> {
        self.kept.rush_on(self.given)?;
        Ok(())
    }

    #[inline(always)]
    fn put<R: Wait>(&mut self, _rt: &R, e: Event) -> Result<Put, AllocError> {
        let put = self.kept.put_one(self.given, e)?;
        Ok(put)
    }

    #[inline(always)]
    fn admit<R: Wait>(&mut self, rt: &R) -> Result<Option<Put>, AllocError> {
        match self.kept.machine.next_intake() {
            None => {
                let put = self.kept.put_one(self.given, Event::Shut)?;
                Ok(Some(put))
            }
            Some(b) => take_in(rt, self.given, self.kept, self.front, self.intake, b),
        }
    }

    #[inline(always)]
    fn work<R: Wait>(&mut self, _rt: &R, e: Event) -> Result<Step, AllocError> {
        self.kept.do_chosen(self.given, e)?;
        Ok(Step::Placed)
    }

    #[inline(always)]
    fn rest<R: Wait>(&mut self, _rt: &R) -> Result<Step, AllocError> {
        Ok(Step::Waited)
    }

    #[inline(always)]
    fn resume(&mut self) {
        self.idle.reset(self.front);
    }

    // Nobody else places anything, but outside callers may send jobs.
    #[inline(always)]
    fn pause<R: Wait>(&mut self, rt: &R) {
        if self.kept.machine.intake_open() {
            self.idle.pause(rt, self.front);
        }
    }
}

// Makes the result of a run that has ended.
fn ran_of<J: Job + Drop>(alloc: Global, kept: JobsKept<J>) -> Result<Ran, AllocError>
    ensures journal { IfOk result (λ ran. ran.journal ≡ kept.journal) }
    ensures values { IfOk result (λ ran. ran.values.items ≡ map said kept.states.items) }
    ensures machine { IfOk result (λ ran. ran.machine ≡ kept.machine) }
    ensures state { (plan : PlanView) (h : List Event) → StandsFor kept.machine plan h → IfOk result (λ ran. HasState plan h ran.state) }
{
    let state = kept.machine.state();
    Ok(Ran {
        journal: kept.journal,
        values: values_of(alloc, kept.states)?,
        state,
        machine: kept.machine,
    })
}

// Goes on to the end. Its fields keep their references.
#[inline(always)]
fn run_on<J: Job + Admits<X> + Drop, X: Sent + Drop, R: Wait, P: Poller, C: Clock>(
    rt: &R,
    alone: &mut Alone<J, X>,
    outside: &mut Outside<P, C>,
) -> Result<(), AllocError>
    requires ready { IsAlone J.gives X.gives alone.old.given.now alone.old.kept.now alone.old.front.now alone.old.intake.now }
    ensures same_kept { alone.new.kept.ghost_name ≡ alone.old.kept.ghost_name }
    ensures same_intake { alone.new.intake.ghost_name ≡ alone.old.intake.ghost_name }
    ensures went { OnOk result (HasGoneAlone J.gives X.gives alone.old.given.now alone.old.kept.now.journal.items alone.new.kept.now alone.old.front.now alone.new.intake.now
        (faced P.tells C.tells P.state C.state outside.old outside.new)) }
    ensures same { IsSame outside.old outside.new }
    ensures kept { KeepsListens P.tells (P.state outside.old.poller.now) (P.state outside.new.poller.now) }
{
    match run_turns(rt, alone, outside)? {
        Stop::Ended => Ok(()),
        Stop::Stopped => unreachable!(),
    }
}

// Goes on to the end from what was kept, with this front and its intake.
fn run_kept<J: Job + Admits<X> + Drop, X: Sent + Drop, R: Wait, P: Poller, C: Clock>(
    rt: &R,
    given: &JobsGiven<J>,
    kept: &mut JobsKept<J>,
    front: &Front<X>,
    intake: &mut Intake<X>,
    outside: &mut Outside<P, C>,
) -> Result<(), AllocError>
    requires ready { IsAlone J.gives X.gives given.now kept.old front.now intake.old }
    ensures went { OnOk result (HasGoneAlone J.gives X.gives given.now kept.old.journal.items kept.new front.now intake.new
        (faced P.tells C.tells P.state C.state outside.old outside.new)) }
    ensures same { IsSame outside.old outside.new }
    ensures kept { KeepsListens P.tells (P.state outside.old.poller.now) (P.state outside.new.poller.now) }
{
    let mut idle = FrontIdle::new();
    let mut alone = Alone {
        given,
        kept,
        front,
        intake,
        idle: &mut idle,
    };
    run_on(rt, &mut alone, outside)?;
    Ok(())
}

impl<J: Job + Drop> JobsInput<'_, J> {
    /// Runs what was given by worker 0 alone, in this thread, as [`JobsInput::run`] does.
    pub(crate) fn run_by_one<X, R: Wait, P: Poller, C: Clock>(
        self,
        rt: &R,
        alloc: Global,
        front: &Front<X>,
        intake: &mut Intake<X>,
        poller: &mut P,
        clock: &mut C,
    ) -> Result<Ran, RunRefused>
    where
        J: Admits<X>,
        X: Sent + Drop,
        requires jobs { length self.jobs.items ≡ length self.plan.now.blocks }
        requires workers { self.workers ≡ 1 }
        requires most { 0 < self.most }
        requires few { front.now.senders ≤ max_senders }
        requires intake { IsIntakeOf front.now intake.old }
        requires untaken { intake.old.taken ≡ [] }
        requires unwatched { (feed : ℕ) → (P.state poller.old).watched feed ≡ false }
        ensures ran { IfOk result (RunsFront J.gives X.gives self.entry front.now intake.new
            (seen P.tells P.state poller.old poller.new)
            (seen C.tells C.state clock.old clock.new)) }
        ensures stands { IfOk result (λ run. StandsFor run.machine self.entry.plan.now run.journal.items) }
        ensures intake { IfOk result (λ _. IsIntakeOf front.now intake.new) }
        ensures kept { KeepsListens P.tells (P.state poller.old) (P.state poller.new) }
        ensures before { IsErrOf result RunRefused.BeforeTheRun → (poller.new ≡ poller.old) × (clock.new ≡ clock.old) × (intake.new ≡ intake.old) }
    {
        let JobsInput {
            plan,
            workers: _,
            most,
            jobs,
        } = self;
        let given = JobsGiven {
            plan,
            most,
            jobs: Snapshot::of(&jobs),
        };
        let Ok(mut kept) = JobsKept::new(alloc, &given, jobs) else {
            return Err(RunRefused::BeforeTheRun);
        };
        let mut outside = Outside::new(poller, clock);
        match run_kept(rt, &given, &mut kept, front, intake, &mut outside) {
            Ok(()) => {
                let Ok(ran) = ran_of(alloc, kept) else {
                    return Err(RunRefused::InTheRun);
                };
                Ok(ran)
            }
            Err(AllocError) => Err(RunRefused::InTheRun),
        }
    }
}
