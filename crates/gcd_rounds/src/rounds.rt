// Rounds of several workers.
ghost use Rattle.std.specs.Prelude.{◌≡◌, ◌<◌, ◌≤◌, ℕ, Ok, true, false, OnOk, IfOk, length};
ghost use Rattle.gcd_plan.specs.Limits.{max_workers};
ghost use Rattle.gcd_history.specs.Ends.{HasEnded};
ghost use Rattle.gcd_history.specs.History.{delivery_count_of, received_of};
ghost use Rattle.gcd_outer.specs.Outside.{seen};
ghost use Rattle.gcd_turn.specs.Asked.{KeepsListens};
ghost use Rattle.gcd_turn.specs.Outsides.{IsSame, faced};
ghost use Rattle.gcd_history.specs.Intake.{AcceptsNone};
ghost use Rattle.gcd_loop.specs.Going.{GoesOn, MayRest};
ghost use Rattle.gcd_loop.specs.Ran.{RunsPlan};
ghost use Rattle.gcd_rounds.specs.Ran.{AreGiven, AreHandlers};
ghost use Rattle.gcd_rounds.specs.Running.{AtTurn, InRound, bounds_of};

use crate::round::{Round, end_round};
use crate::running::Running;
use gcd_event::Entry;
use gcd_jobs::{Handler, Job};
use gcd_loop::{TurnEnd, idle, take_turn};
use gcd_outer::{Clock, Poller};
use gcd_plan::Plan;
use gcd_turn::Outside;
use std::alloc::{AllocError, Global};
use std::sync::Wait;
use std::thread::Threads;

/// What a run by rounds leaves.
#[derive(Drop)]
pub struct RoundsEnd<H> {
    /// All events, in order.
    pub journal: Vec<Entry>,
    /// For each block, main's first, the value that its job gave where it has ended and is not cancelled, and else 0.
    pub values: Vec<u64>,
    /// The handler of each source, by the number of the source.
    pub handlers: Vec<H>,
}

/// Why a run by rounds was given up.
#[derive(Clone, Copy, Debug)]
pub enum RoundsFault {
    /// Memory ran out. The jobs and handlers were dropped.
    Memory,
}

// The rest of a round. Where nobody recorded or kept back anything since worker 0 asked, it polls or waits.
fn close_round<
    R: Threads + Wait + Sync,
    J: Job + Drop + Send,
    H: Handler + Drop,
    P: Poller,
    C: Clock,
>(
    rt: &R,
    alloc: Global,
    round: &mut Round<J, H>,
    outside: &mut Outside<P, C>,
    left: Option<u32>,
) -> Result<(), AllocError>
    requires stopped { InRound J.gives H.kind H.times H.total round.old }
    requires rest { MayRest (bounds_of round.old) round.old.run.journal.items outside.old.outlook.news (P.state outside.old.poller.now) left }
    ensures terms { round.new.run.terms ≡ round.old.run.terms }
    ensures plan { round.new.plan.now ≡ round.old.plan.now }
    ensures ready { OnOk result (AtTurn J.gives H.kind H.times H.total round.new) }
    ensures same { IsSame outside.old outside.new }
    ensures listens { KeepsListens P.tells (P.state outside.old.poller.now) (P.state outside.new.poller.now) }
    ensures going { OnOk result (GoesOn (bounds_of round.old) round.old.run.journal.items round.new.run.journal.items
        (faced P.tells C.tells P.state C.state outside.old outside.new)) }
{
    if !end_round(rt, alloc, round)? {
        idle(rt, round, outside, left)?;
    }
    Ok(())
}

// A turn of worker 0, and the rest of the round where it is stopped. Whether the run goes on.
fn advance<R: Threads + Wait + Sync, J: Job + Drop + Send, H: Handler + Drop, P: Poller, C: Clock>(
    rt: &R,
    alloc: Global,
    round: &mut Round<J, H>,
    outside: &mut Outside<P, C>,
) -> Result<bool, AllocError>
    requires ready { AtTurn J.gives H.kind H.times H.total round.old }
    ensures terms { round.new.run.terms ≡ round.old.run.terms }
    ensures plan { round.new.plan.now ≡ round.old.plan.now }
    ensures ready { OnOk result (AtTurn J.gives H.kind H.times H.total round.new) }
    ensures over { result ≡ Ok false → HasEnded round.old.run.terms.most round.old.plan.now round.new.run.journal.items }
    ensures same { IsSame outside.old outside.new }
    ensures listens { KeepsListens P.tells (P.state outside.old.poller.now) (P.state outside.new.poller.now) }
    ensures going { OnOk result (GoesOn (bounds_of round.old) round.old.run.journal.items round.new.run.journal.items
        (faced P.tells C.tells P.state C.state outside.old outside.new)) }
{
    match take_turn(rt, round, outside)? {
        TurnEnd::Next { .. } => Ok(true),
        TurnEnd::Stopped { left } => {
            close_round(rt, alloc, round, outside, left)?;
            Ok(true)
        }
        TurnEnd::Over => Ok(false),
    }
}

// Round after round, until the run has ended.
fn go_round<R: Threads + Wait + Sync, J: Job + Drop + Send, H: Handler + Drop, P: Poller, C: Clock>(
    rt: &R,
    alloc: Global,
    round: &mut Round<J, H>,
    outside: &mut Outside<P, C>,
) -> Result<(), AllocError>
    requires ready { AtTurn J.gives H.kind H.times H.total round.old }
    ensures terms { round.new.run.terms ≡ round.old.run.terms }
    ensures plan { round.new.plan.now ≡ round.old.plan.now }
    ensures ready { OnOk result (AtTurn J.gives H.kind H.times H.total round.new) }
    ensures ended { OnOk result (HasEnded round.old.run.terms.most round.old.plan.now round.new.run.journal.items) }
    ensures same { IsSame outside.old outside.new }
    ensures listens { KeepsListens P.tells (P.state outside.old.poller.now) (P.state outside.new.poller.now) }
    ensures going { OnOk result (GoesOn (bounds_of round.old) round.old.run.journal.items round.new.run.journal.items
        (faced P.tells C.tells P.state C.state outside.old outside.new)) }
{
    for _ in rt.forever() {
        if !advance(rt, alloc, round, outside)? {
            return Ok(());
        }
    }
    unreachable!()
}

// What is left of a run, whether or not memory sufficed for it.
fn end_of<J: Drop, H: Drop>(round: Round<J, H>) -> RoundsEnd<H>
    ensures journal { result.journal ≡ round.entry.run.journal }
    ensures values { result.values ≡ round.entry.run.values }
    ensures handlers { result.handlers ≡ round.entry.run.handlers }
{
    RoundsEnd {
        journal: round.run.journal,
        values: round.run.values,
        handlers: round.run.handlers,
    }
}

// The run of the plan, where memory suffices.
fn ran<R: Threads + Wait + Sync, J: Job + Drop + Send, H: Handler + Drop, P: Poller, C: Clock>(
    rt: &R,
    alloc: Global,
    plan: &Plan,
    most: u32,
    jobs: Vec<J>,
    handlers: Vec<H>,
    workers: u8,
    poller: &mut P,
    clock: &mut C,
) -> Result<RoundsEnd<H>, AllocError>
    requires jobs { length jobs.items ≡ length plan.now.blocks }
    requires handlers { AreHandlers H.kind H.times H.total plan.now (λ s. 0) (λ s. 0) handlers.items }
    requires workers { 0 < workers }
    requires unwatched { (feed : ℕ) → (P.state poller.old).watched feed ≡ false }
    ensures ran { IfOk result (λ end. RunsPlan most plan.now workers AcceptsNone
        (seen P.tells P.state poller.old poller.new) (seen C.tells C.state clock.old clock.new) end.journal.items) }
    ensures values { IfOk result (λ end. AreGiven J.gives plan.now jobs.items end.journal.items end.values.items) }
    ensures handlers { IfOk result (λ end. AreHandlers H.kind H.times H.total plan.now
        (delivery_count_of end.journal.items) (received_of plan.now end.journal.items) end.handlers.items) }
    ensures listens { KeepsListens P.tells (P.state poller.old) (P.state poller.new) }
{
    let run = Running::new(alloc, plan, most, jobs, handlers, workers)?;
    let mut round = Round {
        plan,
        run,
        kept: Vec::new(alloc),
    };
    let mut outside = Outside::new(poller, clock);
    let gone = go_round(rt, alloc, &mut round, &mut outside);
    let end = end_of(round);
    gone?;
    Ok(end)
}

/// Runs the plan by so many workers, round after round, until the run is quiescent, halted or full, which is at `most` events. Conditions:
/// one job for each block, main's first; one handler for each source, by number, of the source's kind, which has taken nothing; 1 to
/// 64 workers; and the poller watches no feed yet. The `Err` comes only where memory runs out.
pub fn run_rounds<
    R: Threads + Wait + Sync,
    J: Job + Drop + Send,
    H: Handler + Drop,
    P: Poller,
    C: Clock,
>(
    rt: &R,
    alloc: Global,
    plan: &Plan,
    most: u32,
    jobs: Vec<J>,
    handlers: Vec<H>,
    workers: u8,
    poller: &mut P,
    clock: &mut C,
) -> Result<RoundsEnd<H>, RoundsFault>
    requires jobs { length jobs.items ≡ length plan.now.blocks }
    requires handlers { AreHandlers H.kind H.times H.total plan.now (λ s. 0) (λ s. 0) handlers.items }
    requires workers { 0 < workers × workers ≤ max_workers }
    requires unwatched { (feed : ℕ) → (P.state poller.old).watched feed ≡ false }
    ensures ran { IfOk result (λ end. RunsPlan most plan.now workers AcceptsNone
        (seen P.tells P.state poller.old poller.new) (seen C.tells C.state clock.old clock.new) end.journal.items) }
    ensures values { IfOk result (λ end. AreGiven J.gives plan.now jobs.items end.journal.items end.values.items) }
    ensures handlers { IfOk result (λ end. AreHandlers H.kind H.times H.total plan.now
        (delivery_count_of end.journal.items) (received_of plan.now end.journal.items) end.handlers.items) }
    ensures listens { P.tells ≡ true → (P.state poller.new).listens ≡ (P.state poller.old).listens }
    ensures addresses { P.tells ≡ true → (P.state poller.new).addresses ≡ (P.state poller.old).addresses }
    ensures poller_faults { (P.state poller.old).faults ≤ (P.state poller.new).faults }
{
    match ran(
        rt, alloc, plan, most, jobs, handlers, workers, poller, clock,
    ) {
        Ok(end) => Ok(end),
        Err(AllocError) => Err(RoundsFault::Memory),
    }
}
