// The turns of the workers in a round.
ghost use Rattle.std.specs.Prelude.{◌≡◌, ◌<◌, ◌+◌, [], ℕ, List, Ok, Option, true, false, IfSome, IfNone, OnOk, IsTrue, length};
ghost use Rattle.gcd_plan.specs.PlanView.{PlanView};
ghost use Rattle.gcd_event.specs.declared.event.Event.{Event};
ghost use Rattle.gcd_event.specs.declared.event.Event.TheVariants.{End};
ghost use Rattle.gcd_history.specs.Choice.{is_work, worker_of};
ghost use Rattle.gcd_history.specs.History.{is_block_cancelled};
ghost use Rattle.gcd_history.specs.Runs.{ends};
ghost use Rattle.gcd_jobs.specs.Ends.{EndFits};
ghost use Rattle.gcd_machine.specs.Stands.{StandsFor};
ghost use Rattle.gcd_loop.specs.Recorded.{Grows};
ghost use Rattle.gcd_rounds.specs.Kept.{EndBefore, HaveJobs, endings_of};
ghost use Rattle.gcd_rounds.specs.Running.{AreReady, IsNext, IsRun};

use crate::kept::{Ending, Kept, keep};
use crate::running::Running;
use gcd_event::Event;
use gcd_jobs::{Handler, Job};
use gcd_machine::Machine;
use gcd_plan::Plan;
use std::alloc::AllocError;
use std::sync::Wait;

// The End of a block whose job has to run first: of any block but a cancelled one.
fn end_with_work(machine: &Machine, e: Event) -> Option<Ending>
    requires { EndFits machine.now.plan e }
    ensures end { IfSome result (λ x. e ≡ End x.worker x.blk) }
    ensures works { (plan : PlanView) (h : List Event) → StandsFor machine.now plan h
        → IfSome result (λ x. is_block_cancelled plan h x.blk.0 ≡ false) }
    ensures none { (plan : PlanView) (h : List Event) → StandsFor machine.now plan h
        → IfNone result ((b : ℕ) → ends b e ≡ true → is_block_cancelled plan h b ≡ true) }
{
    let Event::End { worker, blk } = e else {
        return None;
    };
    if machine.is_cancelled(blk) {
        return None;
    }
    Some(Ending { worker, blk })
}

// The worker records what it chose, or keeps it back where it is the End of a block that is not cancelled. Whether its turn goes on.
pub(crate) fn follow<J: Job + Drop, H: Handler + Drop>(
    run: &mut Running<J, H>,
    plan: &Plan,
    e: Event,
    kept: &mut Vec<Kept<J>>,
) -> Result<bool, AllocError>
    requires next { IsNext run.old.terms.most plan.now run.old.terms.workers run.old.journal.items e }
    requires work { IsTrue (is_work e) }
    requires run { IsRun H.kind H.times H.total plan.now run.old }
    requires ready { AreReady J.gives plan.now run.old (endings_of kept.old.items) }
    requires jobs { HaveJobs run.old.terms.jobs.value.items kept.old.items }
    requires before { EndBefore (worker_of e) (endings_of kept.old.items) }
    ensures terms { run.new.terms ≡ run.old.terms }
    ensures run { OnOk result (IsRun H.kind H.times H.total plan.now run.new) }
    ensures ready { OnOk result (AreReady J.gives plan.now run.new (endings_of kept.new.items)) }
    ensures jobs { OnOk result (HaveJobs run.new.terms.jobs.value.items kept.new.items) }
    ensures before { OnOk result (EndBefore (worker_of e + 1) (endings_of kept.new.items)) }
    ensures going { result ≡ Ok true → kept.new.items ≡ kept.old.items }
    ensures stopped { result ≡ Ok false → run.new.journal ≡ run.old.journal }
    ensures grows { OnOk result (Grows run.old.journal.items run.new.journal.items) }
{
    if let Some(ending) = end_with_work(&run.machine, e) {
        keep(&mut run.jobs, ending, kept)?;
        return Ok(false);
    }
    run.record(plan, e)?;
    Ok(true)
}

// The worker records what it chooses, or keeps it back where it is the End of a block that is not cancelled. Whether its turn goes on.
fn choose<J: Job + Drop, H: Handler + Drop>(
    run: &mut Running<J, H>,
    plan: &Plan,
    worker: u8,
    kept: &mut Vec<Kept<J>>,
) -> Result<bool, AllocError>
    requires worker { worker < run.old.terms.workers }
    requires room { length run.old.journal.items < run.old.terms.most }
    requires run { IsRun H.kind H.times H.total plan.now run.old }
    requires ready { AreReady J.gives plan.now run.old (endings_of kept.old.items) }
    requires jobs { HaveJobs run.old.terms.jobs.value.items kept.old.items }
    requires before { EndBefore worker (endings_of kept.old.items) }
    ensures terms { run.new.terms ≡ run.old.terms }
    ensures run { OnOk result (IsRun H.kind H.times H.total plan.now run.new) }
    ensures ready { OnOk result (AreReady J.gives plan.now run.new (endings_of kept.new.items)) }
    ensures jobs { OnOk result (HaveJobs run.new.terms.jobs.value.items kept.new.items) }
    ensures before { OnOk result (EndBefore (worker + 1) (endings_of kept.new.items)) }
    ensures going { result ≡ Ok true → kept.new.items ≡ kept.old.items }
    ensures stopped { result ≡ Ok false → run.new.journal ≡ run.old.journal }
    ensures grows { OnOk result (Grows run.old.journal.items run.new.journal.items) }
{
    match run.machine.choose(worker, 0) {
        None => Ok(false),
        Some(e) => follow(run, plan, e, kept),
    }
}

// The turn of a worker that has neither poller nor clock: what it chooses, until it has no choice or keeps an End back.
pub(crate) fn take_turn<R: Wait, J: Job + Drop, H: Handler + Drop>(
    rt: &R,
    run: &mut Running<J, H>,
    plan: &Plan,
    worker: u8,
    kept: &mut Vec<Kept<J>>,
) -> Result<(), AllocError>
    requires worker { worker < run.old.terms.workers }
    requires run { IsRun H.kind H.times H.total plan.now run.old }
    requires ready { AreReady J.gives plan.now run.old (endings_of kept.old.items) }
    requires jobs { HaveJobs run.old.terms.jobs.value.items kept.old.items }
    requires before { EndBefore worker (endings_of kept.old.items) }
    ensures terms { run.new.terms ≡ run.old.terms }
    ensures run { OnOk result (IsRun H.kind H.times H.total plan.now run.new) }
    ensures ready { OnOk result (AreReady J.gives plan.now run.new (endings_of kept.new.items)) }
    ensures jobs { OnOk result (HaveJobs run.new.terms.jobs.value.items kept.new.items) }
    ensures before { OnOk result (EndBefore (worker + 1) (endings_of kept.new.items)) }
    ensures grows { OnOk result (Grows run.old.journal.items run.new.journal.items) }
{
    for _ in rt.forever() {
        if run.is_over() {
            return Ok(());
        }
        if !choose(run, plan, worker, kept)? {
            return Ok(());
        }
    }
    unreachable!()
}

// The turns of the workers after worker 0, one after the other.
pub(crate) fn take_turns<R: Wait, J: Job + Drop, H: Handler + Drop>(
    rt: &R,
    run: &mut Running<J, H>,
    plan: &Plan,
    kept: &mut Vec<Kept<J>>,
) -> Result<(), AllocError>
    requires run { IsRun H.kind H.times H.total plan.now run.old }
    requires ready { AreReady J.gives plan.now run.old (endings_of kept.old.items) }
    requires jobs { HaveJobs run.old.terms.jobs.value.items kept.old.items }
    requires before { EndBefore 1 (endings_of kept.old.items) }
    ensures terms { run.new.terms ≡ run.old.terms }
    ensures run { OnOk result (IsRun H.kind H.times H.total plan.now run.new) }
    ensures ready { OnOk result (AreReady J.gives plan.now run.new (endings_of kept.new.items)) }
    ensures jobs { OnOk result (HaveJobs run.new.terms.jobs.value.items kept.new.items) }
    ensures grows { OnOk result (Grows run.old.journal.items run.new.journal.items) }
{
    for worker in 1..run.terms.workers {
        take_turn(rt, run, plan, worker, kept)?;
    }
    Ok(())
}
