// A run by worker 0 alone.
ghost use Rattle.std.specs.Prelude.{◌≡◌, ◌<◌, ℕ, List, false, length, IfOk, IsErrOf};
ghost use Rattle.gcd_plan.specs.PlanView.{PlanView};
ghost use Rattle.gcd_event.specs.declared.event.Event.{Event};
ghost use Rattle.gcd_history.specs.Ends.{HasState};
ghost use Rattle.gcd_machine.specs.Stands.{StandsFor};
ghost use Rattle.gcd_outer.specs.Outside.{seen};
ghost use Rattle.gcd_turn.specs.Asked.{KeepsListens};
ghost use Rattle.gcd_turn.specs.Outsides.{IsSame, faced};
ghost use Rattle.gcd_workers.specs.ListRuns.{IsKept};
ghost use Rattle.gcd_workers.specs.Ran.{GoesOnOverFiles, RunsOverFiles};
ghost use Rattle.gcd_workers.specs.declared.refused.RunRefused.{RunRefused};

use crate::list_run::{Kept, ListRun};
use crate::outcome::Outcome;
use crate::over::Over;
use crate::refused::RunRefused;
use gcd_loop::{Stop, run_turns};
use gcd_outer::{Clock, Poller};
use gcd_pool::PoolFault;
use gcd_turn::Outside;
use std::alloc::{AllocError, Global};
use std::sync::Wait;

// Turns a list into the result of its run.
pub(crate) fn outcome_of(kept: Kept) -> Outcome
    ensures journal { result.journal ≡ kept.journal }
    ensures values { result.values ≡ kept.values }
    ensures machine { result.machine ≡ kept.machine }
    ensures state { (plan : PlanView) (h : List Event) → StandsFor kept.machine plan h → HasState plan h result.state }
{
    let state = kept.machine.state();
    Outcome {
        journal: kept.journal,
        values: kept.values,
        state,
        machine: kept.machine,
    }
}

// Goes on to the end of a run that makes no team.
fn go_on_alone<R: Wait, P: Poller, C: Clock>(
    rt: &R,
    mut run: ListRun,
    outside: &mut Outside<P, C>,
) -> Result<Outcome, AllocError>
    requires run { IsKept run.over run.kept }
    requires alone { run.hire.most ≡ 1 }
    ensures went { IfOk result (GoesOnOverFiles run.entry.over 1 run.entry.kept.journal.items (faced P.tells C.tells P.state C.state outside.old outside.new)) }
    ensures same { IsSame outside.old outside.new }
    ensures kept { KeepsListens P.tells (P.state outside.old.poller.now) (P.state outside.new.poller.now) }
{
    match run_turns(rt, &mut run, outside)? {
        Stop::Ended => Ok(outcome_of(run.kept)),
        Stop::Stopped => unreachable!(),
    }
}

/// Goes on by worker 0 alone to the end of a run that could have this many workers, because memory for a team was refused.
pub(crate) fn without_team<R: Wait, P: Poller, C: Clock>(
    rt: &R,
    alloc: Global,
    over: Over,
    kept: Kept,
    workers: u8,
    outside: &mut Outside<P, C>,
) -> Result<Outcome, PoolFault>
    requires some { 0 < workers }
    requires run { IsKept over kept }
    ensures went { IfOk result (GoesOnOverFiles over.entry workers kept.journal.items (faced P.tells C.tells P.state C.state outside.old outside.new)) }
    ensures same { IsSame outside.old outside.new }
    ensures kept { KeepsListens P.tells (P.state outside.old.poller.now) (P.state outside.new.poller.now) }
{
    let run = ListRun::alone(alloc, over, kept);
    let outcome = go_on_alone(rt, run, outside)?;
    Ok(outcome)
}

/// Runs a plan over its files by worker 0 alone, until the run is quiescent or halted, or has as many events as it may have. One thread
/// keeps the events in a list, and there is no row. The poller watches no feed yet. A turn costs one choice of the machine, the block's
/// work, and a look at each live feed. The list begins with room for four events a block, and grows.
///
/// Returns `Err` only if memory runs out. Before the first turn that is [`RunRefused::BeforeTheRun`], and poller and clock are as they
/// were (`before`). Later it is [`RunRefused::InTheRun`], at an event for which there is no room, and news from the poller may be lost.
/// Nothing is left of the run, and the poller listens where it did (`kept`).
pub fn run_alone<R: Wait, P: Poller, C: Clock>(
    rt: &R,
    alloc: Global,
    over: Over,
    poller: &mut P,
    clock: &mut C,
) -> Result<Outcome, RunRefused>
    requires most { 0 < over.most }
    requires files { length over.files.now ≡ length over.plan.now.files }
    requires unwatched { (feed : ℕ) → (P.state poller.old).watched feed ≡ false }
    ensures ran { IfOk result (RunsOverFiles over.entry 1
        (seen P.tells P.state poller.old poller.new)
        (seen C.tells C.state clock.old clock.new)) }
    ensures stands { IfOk result (λ o. StandsFor o.machine over.entry.plan.now o.journal.items) }
    ensures kept { KeepsListens P.tells (P.state poller.old) (P.state poller.new) }
    ensures before { IsErrOf result RunRefused.BeforeTheRun → (poller.new ≡ poller.old) × (clock.new ≡ clock.old) }
{
    let Ok(run) = ListRun::new(alloc, over) else {
        return Err(RunRefused::BeforeTheRun);
    };
    let mut outside = Outside::new(poller, clock);
    match go_on_alone(rt, run, &mut outside) {
        Ok(outcome) => Ok(outcome),
        Err(AllocError) => Err(RunRefused::InTheRun),
    }
}
