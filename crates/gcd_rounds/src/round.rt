// A run by rounds as what records the events of worker 0's turns.
ghost use Rattle.std.specs.Prelude.{◌≡◌, [], true, false, List, OnOk, IfOk, length};
ghost use Rattle.gcd_loop.specs.Recorded.{Grows};
ghost use Rattle.gcd_machine.specs.Stands.{StandsFor};
ghost use Rattle.gcd_event.specs.declared.event.Event.{Event};
ghost use Rattle.gcd_plan.specs.PlanView.{PlanView};
ghost use Rattle.gcd_rounds.specs.Kept.{HaveValues, dones_of, endings_of};
ghost use Rattle.gcd_rounds.specs.Running.{AreReady, AtTurn, InRound, IsRun};

use crate::kept::{Done, Kept, run_jobs};
use crate::running::Running;
use crate::turns::{follow, take_turns};
use gcd_event::Event;
use gcd_jobs::{Handler, Job};
use gcd_loop::{Recorder, Step};
use gcd_machine::{Machine, Put};
use gcd_plan::Plan;
use std::alloc::{AllocError, Global};
use std::mem;
use std::sync::Wait;
use std::thread::Threads;

// A run of a plan, and the Ends that are kept back in its round.
#[derive(Drop)]
pub(crate) struct Round<'a, J, H> {
    pub(crate) plan: &'a Plan,
    pub(crate) run: Running<J, H>,
    pub(crate) kept: Vec<Kept<J>>,
}

// A turn of worker 0 is stopped where an End is kept back, and where worker 0 has no choice: then the round ends.
impl<'a, J: Job + Drop, H: Handler + Drop> Recorder for Round<'a, J, H> {
    type Fault = AllocError;

    ghost use Rattle.std.specs.Prelude.{◌≡◌};
    ghost use Rattle.gcd_rounds.specs.Running.{AtTurn, InRound, bounds_of, turn_sight};

    ghost bounds = { λ o. bounds_of o };

    ghost seen = { λ o. o.run.journal.items };

    ghost sight = { λ o. o.run.machine };

    ghost ready = { λ o. AtTurn J.gives H.kind H.times H.total o };

    ghost kept = { λ a o. (o.run.terms ≡ a.run.terms) × (o.plan.now ≡ a.plan.now) };

    ghost left = { λ o. AtTurn J.gives H.kind H.times H.total o };

    ghost stopped = { λ o. InRound J.gives H.kind H.times H.total o };

    ghost leaves = { λ o at. at };

    ghost stands = { λ o at. turn_sight J.gives H.kind H.times H.total o at };

    fn plan(&self) -> &Plan
        ensures { result.now ≡ self.now.plan.now }
    {
        self.plan
    }

    fn most(&self) -> u32 {
        self.run.terms.most
    }

    fn machine(&self) -> &Machine
        ensures { result.now ≡ self.now.run.machine }
    {
        &self.run.machine
    }

    fn look(&mut self) {}

    // Whatever is recorded is of a round.
    fn rush(&mut self) -> Result<(), Self::Fault> {
        Ok(())
    }

    fn put<R: Wait>(&mut self, _rt: &R, e: Event) -> Result<Put, AllocError> {
        self.run.put(self.plan, e)
    }

    // There are no outside callers.
    fn admit<R: Wait>(&mut self, _rt: &R) -> Result<Option<Put>, AllocError> {
        let put = self.run.put(self.plan, Event::Shut)?;
        Ok(Some(put))
    }

    fn work<R: Wait>(&mut self, _rt: &R, e: Event) -> Result<Step, AllocError> {
        if follow(&mut self.run, self.plan, e, &mut self.kept)? {
            return Ok(Step::Placed);
        }
        Ok(Step::Stopped)
    }

    fn rest<R: Wait>(&mut self, _rt: &R) -> Result<Step, AllocError> {
        Ok(Step::Stopped)
    }

    // Turn follows on turn.
    fn resume(&mut self) {}

    fn pause<R: Wait>(&mut self, _rt: &R) {}
}

// The Ends that were kept back are recorded in the order of the workers, as long as the run goes on.
fn end_all<J: Job + Drop, H: Handler + Drop>(
    run: &mut Running<J, H>,
    plan: &Plan,
    dones: &[Done],
) -> Result<(), AllocError>
    requires run { IsRun H.kind H.times H.total plan.now run.old }
    requires ready { AreReady J.gives plan.now run.old (dones_of dones.now) }
    requires values { HaveValues J.gives run.old.terms.jobs.value.items dones.now }
    ensures terms { run.new.terms ≡ run.old.terms }
    ensures run { OnOk result (IsRun H.kind H.times H.total plan.now run.new) }
    ensures ready { OnOk result (AreReady J.gives plan.now run.new []) }
    ensures grows { OnOk result (Grows run.old.journal.items run.new.journal.items) }
{
    for done in dones {
        if run.is_over() {
            return Ok(());
        }
        run.end(plan, *done)?;
    }
    Ok(())
}

// Whether nothing is kept back, and there are so many events.
fn is_quiet<J, H>(run: &Running<J, H>, kept: &Vec<Kept<J>>, len: u32) -> bool
    ensures none { result ≡ true → kept.now.items ≡ [] }
    ensures same { (plan : PlanView) (h : List Event) → StandsFor run.now.machine plan h → result ≡ true → length h ≡ len }
{
    kept.is_empty() && run.machine.len() == len
}

// After the turn of worker 0: the other workers have theirs, the jobs run whose Ends were kept back, and these are recorded.
// Whether anybody recorded or kept back anything.
pub(crate) fn end_round<R: Threads + Wait + Sync, J: Job + Drop + Send, H: Handler + Drop>(
    rt: &R,
    alloc: Global,
    round: &mut Round<J, H>,
) -> Result<bool, AllocError>
    requires stopped { InRound J.gives H.kind H.times H.total round.old }
    ensures terms { round.new.run.terms ≡ round.old.run.terms }
    ensures plan { round.new.plan.now ≡ round.old.plan.now }
    ensures ready { OnOk result (AtTurn J.gives H.kind H.times H.total round.new) }
    ensures grows { OnOk result (Grows round.old.run.journal.items round.new.run.journal.items) }
    ensures none { IfOk result (λ some. some ≡ false → round.new.run.journal.items ≡ round.old.run.journal.items) }
{
    let plan = round.plan;
    let len = round.run.machine.len();
    take_turns(rt, &mut round.run, plan, &mut round.kept)?;
    if is_quiet(&round.run, &round.kept, len) {
        return Ok(false);
    }
    let kept = mem::replace(&mut round.kept, Vec::new(alloc));
    let dones = run_jobs(rt, kept)?;
    end_all(&mut round.run, plan, &dones)?;
    Ok(true)
}
