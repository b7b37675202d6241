// A run of a plan over its files.
ghost use Rattle.std.specs.Prelude.{◌≡◌, ◌≤◌, ◌<◌, ℕ, [], false, length, IfOk, IsErrOf};
ghost use Rattle.gcd_plan.specs.Limits.{max_workers};
ghost use Rattle.gcd_machine.specs.Stands.{StandsFor};
ghost use Rattle.gcd_outer.specs.Outside.{seen};
ghost use Rattle.gcd_turn.specs.Asked.{KeepsListens};
ghost use Rattle.gcd_turn.specs.Outsides.{IsSame, faced};
ghost use Rattle.gcd_workers.specs.ListRuns.{IsKept};
ghost use Rattle.gcd_workers.specs.Ran.{GoesOnOverFiles, RunsOverFiles};
ghost use Rattle.gcd_workers.specs.declared.refused.RunRefused.{RunRefused};

use crate::alone::outcome_of;
use crate::go_on::go_on;
use crate::hire::Hire;
use crate::list_run::ListRun;
use crate::outcome::Outcome;
use crate::over::Over;
use crate::refused::{RunRefused, begun_refused};
use gcd_loop::{Stop, run_turns};
use gcd_outer::{Clock, Poller};
use gcd_pool::PoolFault;
use gcd_turn::Outside;
use std::alloc::Global;
use std::sync::Wait;
use std::thread::Threads;

// Goes from the first event to the end: by worker 0 in its list, and by a team from where that pays.
fn run_on<R: Threads + Wait + Sync, P: Poller, C: Clock>(
    rt: &R,
    alloc: Global,
    mut run: ListRun,
    workers: u8,
    outside: &mut Outside<P, C>,
) -> Result<Outcome, PoolFault>
    requires most { 0 < run.over.most }
    requires workers { (0 < workers) × (workers ≤ max_workers) }
    requires run { IsKept run.over run.kept }
    requires first { run.kept.journal.items ≡ [] }
    ensures went { IfOk result (GoesOnOverFiles run.entry.over workers [] (faced P.tells C.tells P.state C.state outside.old outside.new)) }
    ensures same { IsSame outside.old outside.new }
    ensures kept { KeepsListens P.tells (P.state outside.old.poller.now) (P.state outside.new.poller.now) }
{
    if run.hire.is_team() {
        let outcome = go_on(rt, alloc, run, workers, outside)?;
        return Ok(outcome);
    }
    match run_turns(rt, &mut run, outside)? {
        Stop::Ended => Ok(outcome_of(run.kept)),
        Stop::Stopped => {
            let outcome = go_on(rt, alloc, run, workers, outside)?;
            Ok(outcome)
        }
    }
}

/// Runs a plan over its files by at most this many workers, 1 to 64, until the run is quiescent or halted, or has as many events as it may
/// have. Worker 0 begins alone and keeps the events in a list. A team goes on from where it pays: before the Start of a long block, if an
/// estimate over works and queues finds that several hands need less time for what is left. Its helpers have their own threads, and it
/// shares row, rack and pool. If the plan has a read source, the team is there from the first event on, because the poller may hold
/// worker 0. There are no outside callers, so an intake of the plan is shut at once. The poller watches no feed yet.
///
/// If memory for a team is refused, worker 0 goes on alone. Otherwise the call returns `Err` if memory runs out: before the first turn
/// [`RunRefused::BeforeTheRun`], and poller and clock are as they were (`before`), and later [`RunRefused::InTheRun`]. It returns
/// [`RunRefused::NoThread`] if the system makes no thread for a worker on whom another waits (`gcd_pool`). After both blocks may have run,
/// and news from the poller may be lost. Nothing is left of the run: the threads have ended, and the poller listens where it did (`kept`).
pub fn run_workers<R: Threads + Wait + Sync, P: Poller, C: Clock>(
    rt: &R,
    alloc: Global,
    over: Over,
    workers: u8,
    poller: &mut P,
    clock: &mut C,
) -> Result<Outcome, RunRefused>
    requires files { length over.files.now ≡ length over.plan.now.files }
    requires workers { (0 < workers) × (workers ≤ max_workers) }
    requires most { 0 < over.most }
    requires unwatched { (feed : ℕ) → (P.state poller.old).watched feed ≡ false }
    ensures ran { IfOk result (RunsOverFiles over.entry workers
        (seen P.tells P.state poller.old poller.new)
        (seen C.tells C.state clock.old clock.new)) }
    ensures stands { IfOk result (λ o. StandsFor o.machine over.entry.plan.now o.journal.items) }
    ensures kept { KeepsListens P.tells (P.state poller.old) (P.state poller.new) }
    ensures before { IsErrOf result RunRefused.BeforeTheRun → (poller.new ≡ poller.old) × (clock.new ≡ clock.old) }
{
    let Ok(mut run) = ListRun::new(alloc, over) else {
        return Err(RunRefused::BeforeTheRun);
    };
    run.hire = Hire::new(rt, alloc, over, workers);
    let mut outside = Outside::new(poller, clock);
    match run_on(rt, alloc, run, workers, &mut outside) {
        Ok(outcome) => Ok(outcome),
        Err(fault) => Err(begun_refused(fault)),
    }
}
