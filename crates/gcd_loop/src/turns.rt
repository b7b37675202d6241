// The turns of worker 0, which alone has poller and clock.
ghost use Rattle.std.specs.Prelude.{◌≡◌, true, List, OnOk, IfOk, Some, None};
ghost use Rattle.gcd_event.specs.declared.event.Event.{Event};
ghost use Rattle.gcd_history.specs.Ends.{HasEnded};
ghost use Rattle.gcd_history.specs.History.{choice_of};
ghost use Rattle.gcd_turn.specs.Asked.{KeepsListens, MayIdle, MayTakeIn};
ghost use Rattle.gcd_turn.specs.Outsides.{IsSame, faced};
ghost use Rattle.gcd_turn.specs.Turns.{HasRoom};
ghost use Rattle.gcd_loop.specs.Going.{GoesOn, MayRest, WhereNext, WhereOver, WhereStopped};
ghost use Rattle.gcd_loop.specs.Recorded.{IsOutside, WasPut, WasTold};
ghost use Rattle.gcd_loop.specs.declared.turns.Stop.{Stop};

use crate::recorder::{Recorder, Step};
use gcd_event::Event;
use gcd_machine::Put;
use gcd_outer::{Clock, Poller};
use gcd_turn::{Ask, Outside};
use std::sync::Wait;

/// What a turn comes to.
#[derive(Clone, Copy, PartialEq, Eq)]
pub enum TurnEnd {
    /// The next turn may come.
    Next {
        /// Whether an event was placed, or other work done.
        placed: bool,
    },
    /// The recorder stopped the turn.
    Stopped {
        /// How many milliseconds the next due time is ahead, at least 1; None where there is none.
        left: Option<u32>,
    },
    /// The run has ended.
    Over,
}

// Returns whether the event was placed.
#[inline(always)]
fn is_placed(answer: Put) -> bool {
    match answer {
        Put::Placed(_) => true,
        Put::Barred { .. } => false,
        Put::Held { .. } => false,
        Put::Full => false,
    }
}

// Puts an event of the outside, and says whether it was placed.
#[inline(always)]
fn put<T: Recorder, R: Wait>(rt: &R, run: &mut T, e: Event) -> Result<bool, T::Fault>
    requires ready { T.ready run.old }
    requires room { HasRoom (T.bounds run.old).most (T.bounds run.old).plan (T.seen run.old) }
    requires outside { IsOutside e }
    ensures ready { OnOk result (T.ready run.new) }
    ensures bounds { OnOk result (T.bounds run.new ≡ T.bounds run.old) }
    ensures said { OnOk result (WasPut (T.bounds run.old) e (T.seen run.old) (T.seen run.new)) }
    ensures kept { (a : T) → T.kept a run.old → T.kept a run.new }
{
    let answer = run.put(rt, e)?;
    Ok(is_placed(answer))
}

// Puts the first of the news, and says whether it was placed. Unless it is to be put again, it is settled.
#[inline(always)]
fn tell<T: Recorder, P: Poller, C: Clock, R: Wait>(
    rt: &R,
    run: &mut T,
    outside: &mut Outside<P, C>,
    e: Event,
) -> Result<bool, T::Fault>
    requires ready { T.ready run.old }
    requires room { HasRoom (T.bounds run.old).most (T.bounds run.old).plan (T.seen run.old) }
    requires outside { IsOutside e }
    ensures ready { OnOk result (T.ready run.new) }
    ensures bounds { OnOk result (T.bounds run.new ≡ T.bounds run.old) }
    ensures said { OnOk result (WasTold (T.bounds run.old) e (T.seen run.old) (T.seen run.new) outside.old.outlook outside.new.outlook) }
    ensures same { IsSame outside.old outside.new }
    ensures poller { outside.new.poller.now ≡ outside.old.poller.now }
    ensures clock { outside.new.clock.now ≡ outside.old.clock.now }
    ensures kept { (a : T) → T.kept a run.old → T.kept a run.new }
{
    match run.put(rt, e)? {
        Put::Placed(_) => {
            outside.settle();
            Ok(true)
        }
        Put::Barred { .. } => {
            outside.settle();
            Ok(false)
        }
        Put::Held { .. } => Ok(false),
        Put::Full => Ok(false),
    }
}

/// Worker 0 listens or waits, at the end of a turn in which nothing was done. If the poller fails, it puts a Halt, and returns true if that
/// was placed.
#[inline(always)]
pub fn idle<T: Recorder, P: Poller, C: Clock, R: Wait>(
    rt: &R,
    run: &mut T,
    outside: &mut Outside<P, C>,
    left: Option<u32>,
) -> Result<bool, T::Fault>
    requires ready { T.ready run.old }
    requires room { HasRoom (T.bounds run.old).most (T.bounds run.old).plan (T.seen run.old) }
    requires idle { MayIdle (T.bounds run.old).plan (T.seen run.old) outside.old.outlook.news (P.state outside.old.poller.now) left }
    ensures ready { OnOk result (T.ready run.new) }
    ensures bounds { OnOk result (T.bounds run.new ≡ T.bounds run.old) }
    ensures same { IsSame outside.old outside.new }
    ensures kept { (a : T) → T.kept a run.old → T.kept a run.new }
    ensures listens { KeepsListens P.tells (P.state outside.old.poller.now) (P.state outside.new.poller.now) }
    ensures going { OnOk result (GoesOn (T.bounds run.old) (T.seen run.old) (T.seen run.new)
        (faced P.tells C.tells P.state C.state outside.old outside.new)) }
{
    match outside.idle(run.plan(), run.machine(), left) {
        None => Ok(false),
        Some(e) => put(rt, run, e),
    }
}

// Worker 0 has no choice. It lets the others work, or else listens or waits.
#[inline(always)]
fn rest<T: Recorder, P: Poller, C: Clock, R: Wait>(
    rt: &R,
    run: &mut T,
    outside: &mut Outside<P, C>,
    left: Option<u32>,
) -> Result<TurnEnd, T::Fault>
    requires ready { T.ready run.old }
    requires room { HasRoom (T.bounds run.old).most (T.bounds run.old).plan (T.seen run.old) }
    requires idle { MayIdle (T.bounds run.old).plan (T.seen run.old) outside.old.outlook.news (P.state outside.old.poller.now) left }
    requires none { choice_of (T.bounds run.old).plan (T.seen run.old) 0 0 ≡ None }
    ensures bounds { OnOk result (T.bounds run.new ≡ T.bounds run.old) }
    ensures ready { IfOk result (WhereNext (T.ready run.new)) }
    ensures stopped { IfOk result (WhereStopped (λ left. T.stopped run.new)) }
    ensures idle { IfOk result (WhereStopped (MayRest (T.bounds run.old) (T.seen run.new) outside.new.outlook.news (P.state outside.new.poller.now))) }
    ensures over { IfOk result (WhereOver (HasEnded (T.bounds run.old).most (T.bounds run.old).plan (T.seen run.new) × T.left run.new)) }
    ensures same { IsSame outside.old outside.new }
    ensures kept { (a : T) → T.kept a run.old → T.kept a run.new }
    ensures listens { KeepsListens P.tells (P.state outside.old.poller.now) (P.state outside.new.poller.now) }
    ensures going { OnOk result (GoesOn (T.bounds run.old) (T.seen run.old) (T.seen run.new)
        (faced P.tells C.tells P.state C.state outside.old outside.new)) }
{
    match run.rest(rt)? {
        Step::Placed => Ok(TurnEnd::Next { placed: true }),
        Step::Waited => {
            let placed = idle(rt, run, outside, left)?;
            Ok(TurnEnd::Next { placed })
        }
        Step::Stopped => Ok(TurnEnd::Stopped { left }),
        Step::Over => Ok(TurnEnd::Over),
    }
}

// Worker 0 does what it chooses, or rests if it has no choice.
#[inline(always)]
fn act<T: Recorder, P: Poller, C: Clock, R: Wait>(
    rt: &R,
    run: &mut T,
    outside: &mut Outside<P, C>,
    chosen: Option<Event>,
    left: Option<u32>,
) -> Result<TurnEnd, T::Fault>
    requires ready { T.ready run.old }
    requires room { HasRoom (T.bounds run.old).most (T.bounds run.old).plan (T.seen run.old) }
    requires idle { MayIdle (T.bounds run.old).plan (T.seen run.old) outside.old.outlook.news (P.state outside.old.poller.now) left }
    requires chosen { choice_of (T.bounds run.old).plan (T.seen run.old) 0 0 ≡ chosen }
    ensures bounds { OnOk result (T.bounds run.new ≡ T.bounds run.old) }
    ensures ready { IfOk result (WhereNext (T.ready run.new)) }
    ensures stopped { IfOk result (WhereStopped (λ left. T.stopped run.new)) }
    ensures idle { IfOk result (WhereStopped (MayRest (T.bounds run.old) (T.seen run.new) outside.new.outlook.news (P.state outside.new.poller.now))) }
    ensures over { IfOk result (WhereOver (HasEnded (T.bounds run.old).most (T.bounds run.old).plan (T.seen run.new) × T.left run.new)) }
    ensures same { IsSame outside.old outside.new }
    ensures kept { (a : T) → T.kept a run.old → T.kept a run.new }
    ensures listens { KeepsListens P.tells (P.state outside.old.poller.now) (P.state outside.new.poller.now) }
    ensures going { OnOk result (GoesOn (T.bounds run.old) (T.seen run.old) (T.seen run.new)
        (faced P.tells C.tells P.state C.state outside.old outside.new)) }
{
    let Some(e) = chosen else {
        return rest(rt, run, outside, left);
    };
    match run.work(rt, e)? {
        Step::Placed => Ok(TurnEnd::Next { placed: true }),
        Step::Waited => Ok(TurnEnd::Next { placed: false }),
        Step::Stopped => Ok(TurnEnd::Stopped { left }),
        Step::Over => Ok(TurnEnd::Over),
    }
}

// Takes the later steps of a turn, after nothing was put for the open intake.
#[inline(always)]
fn later<T: Recorder, P: Poller, C: Clock, R: Wait>(
    rt: &R,
    run: &mut T,
    outside: &mut Outside<P, C>,
    chosen: Option<Event>,
) -> Result<TurnEnd, T::Fault>
    requires ready { T.ready run.old }
    requires room { HasRoom (T.bounds run.old).most (T.bounds run.old).plan (T.seen run.old) }
    requires may { MayTakeIn (T.bounds run.old).plan (T.seen run.old) outside.old.outlook.news (P.state outside.old.poller.now) chosen }
    ensures bounds { OnOk result (T.bounds run.new ≡ T.bounds run.old) }
    ensures ready { IfOk result (WhereNext (T.ready run.new)) }
    ensures stopped { IfOk result (WhereStopped (λ left. T.stopped run.new)) }
    ensures idle { IfOk result (WhereStopped (MayRest (T.bounds run.old) (T.seen run.new) outside.new.outlook.news (P.state outside.new.poller.now))) }
    ensures over { IfOk result (WhereOver (HasEnded (T.bounds run.old).most (T.bounds run.old).plan (T.seen run.new) × T.left run.new)) }
    ensures same { IsSame outside.old outside.new }
    ensures kept { (a : T) → T.kept a run.old → T.kept a run.new }
    ensures listens { KeepsListens P.tells (P.state outside.old.poller.now) (P.state outside.new.poller.now) }
    ensures going { OnOk result (GoesOn (T.bounds run.old) (T.seen run.old) (T.seen run.new)
        (faced P.tells C.tells P.state C.state outside.old outside.new)) }
{
    match outside.ask_on(run.plan(), run.machine(), chosen) {
        Ask::Leave => unreachable!(),
        Ask::Told(_) => unreachable!(),
        Ask::Open { .. } => unreachable!(),
        Ask::Put(due) => {
            let placed = put(rt, run, due)?;
            Ok(TurnEnd::Next { placed })
        }
        Ask::Work { chosen, left } => act(rt, run, outside, chosen, left),
    }
}

// The intake is open. The recorder sees to it, and if it puts nothing, the turn goes on.
#[inline(always)]
fn admit<T: Recorder, P: Poller, C: Clock, R: Wait>(
    rt: &R,
    run: &mut T,
    outside: &mut Outside<P, C>,
    chosen: Option<Event>,
) -> Result<TurnEnd, T::Fault>
    requires ready { T.ready run.old }
    requires room { HasRoom (T.bounds run.old).most (T.bounds run.old).plan (T.seen run.old) }
    requires may { MayTakeIn (T.bounds run.old).plan (T.seen run.old) outside.old.outlook.news (P.state outside.old.poller.now) chosen }
    ensures bounds { OnOk result (T.bounds run.new ≡ T.bounds run.old) }
    ensures ready { IfOk result (WhereNext (T.ready run.new)) }
    ensures stopped { IfOk result (WhereStopped (λ left. T.stopped run.new)) }
    ensures idle { IfOk result (WhereStopped (MayRest (T.bounds run.old) (T.seen run.new) outside.new.outlook.news (P.state outside.new.poller.now))) }
    ensures over { IfOk result (WhereOver (HasEnded (T.bounds run.old).most (T.bounds run.old).plan (T.seen run.new) × T.left run.new)) }
    ensures same { IsSame outside.old outside.new }
    ensures kept { (a : T) → T.kept a run.old → T.kept a run.new }
    ensures listens { KeepsListens P.tells (P.state outside.old.poller.now) (P.state outside.new.poller.now) }
    ensures going { OnOk result (GoesOn (T.bounds run.old) (T.seen run.old) (T.seen run.new)
        (faced P.tells C.tells P.state C.state outside.old outside.new)) }
{
    match run.admit(rt)? {
        Some(answer) => {
            let placed = is_placed(answer);
            Ok(TurnEnd::Next { placed })
        }
        None => later(rt, run, outside, chosen),
    }
}

/// One turn. The recorder may first record what worker 0 chooses ([`Recorder::rush`]). Then the turn ends at the first event that is
/// placed, if nothing more is to be done, if the recorder stops it, or if the run has ended. If it is stopped nothing more is seen.
/// Once its engine has gone on by itself after that, and nothing came of it, worker 0 is to listen or wait ([`idle`]). An `Err` comes
/// only of the recorder.
#[inline(always)]
pub fn take_turn<T: Recorder, P: Poller, C: Clock, R: Wait>(
    rt: &R,
    run: &mut T,
    outside: &mut Outside<P, C>,
) -> Result<TurnEnd, T::Fault>
    requires ready { T.ready run.old }
    ensures bounds { OnOk result (T.bounds run.new ≡ T.bounds run.old) }
    ensures ready { IfOk result (WhereNext (T.ready run.new)) }
    ensures stopped { IfOk result (WhereStopped (λ left. T.stopped run.new)) }
    ensures idle { IfOk result (WhereStopped (MayRest (T.bounds run.old) (T.seen run.new) outside.new.outlook.news (P.state outside.new.poller.now))) }
    ensures over { IfOk result (WhereOver (HasEnded (T.bounds run.old).most (T.bounds run.old).plan (T.seen run.new) × T.left run.new)) }
    ensures same { IsSame outside.old outside.new }
    ensures kept { (a : T) → T.kept a run.old → T.kept a run.new }
    ensures listens { KeepsListens P.tells (P.state outside.old.poller.now) (P.state outside.new.poller.now) }
    ensures going { OnOk result (GoesOn (T.bounds run.old) (T.seen run.old) (T.seen run.new)
        (faced P.tells C.tells P.state C.state outside.old outside.new)) }
{
    run.look();
    run.rush()?;
    match outside.ask(run.plan(), run.most(), run.machine()) {
        Ask::Leave => Ok(TurnEnd::Over),
        Ask::Told(e) => {
            let placed = tell(rt, run, outside, e)?;
            Ok(TurnEnd::Next { placed })
        }
        Ask::Open { chosen } => admit(rt, run, outside, chosen),
        Ask::Put(e) => {
            let placed = put(rt, run, e)?;
            Ok(TurnEnd::Next { placed })
        }
        Ask::Work { chosen, left } => act(rt, run, outside, chosen, left),
    }
}

/// How a run of turns comes to its end.
#[derive(Clone, Copy, PartialEq, Eq)]
pub enum Stop {
    /// The run has ended.
    Ended,
    /// The recorder stopped a turn, and goes on no more.
    Stopped,
}

/// Goes turn by turn, from what has been seen of a run, until it has ended or the recorder stops a turn. An `Err` comes only of the
/// recorder.
#[inline(always)]
pub fn run_turns<T: Recorder, P: Poller, C: Clock, R: Wait>(
    rt: &R,
    run: &mut T,
    outside: &mut Outside<P, C>,
) -> Result<Stop, T::Fault>
    requires ready { T.ready run.old }
    ensures bounds { OnOk result (T.bounds run.new ≡ T.bounds run.old) }
    ensures ended { IfOk result (λ stop. stop ≡ Stop.Ended
        → HasEnded (T.bounds run.old).most (T.bounds run.old).plan (T.seen run.new)) }
    ensures left { IfOk result (λ stop. stop ≡ Stop.Ended → T.left run.new) }
    ensures stopped { IfOk result (λ stop. stop ≡ Stop.Stopped → T.stopped run.new) }
    ensures same { IsSame outside.old outside.new }
    ensures kept { (a : T) → T.kept a run.old → T.kept a run.new }
    ensures listens { KeepsListens P.tells (P.state outside.old.poller.now) (P.state outside.new.poller.now) }
    ensures going { OnOk result (GoesOn (T.bounds run.old) (T.seen run.old) (T.seen run.new)
        (faced P.tells C.tells P.state C.state outside.old outside.new)) }
{
    for _ in rt.forever() {
        match take_turn(rt, run, outside)? {
            TurnEnd::Next { placed: true } => run.resume(),
            TurnEnd::Next { placed: false } => run.pause(rt),
            TurnEnd::Stopped { .. } => return Ok(Stop::Stopped),
            TurnEnd::Over => return Ok(Stop::Ended),
        }
    }
    unreachable!()
}
