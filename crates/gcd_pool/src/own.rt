// Recording the events that begin no run on a node.
ghost use Rattle.std.specs.Prelude.{◌≡◌, true, None, Some};
ghost use Rattle.gcd_event.specs.declared.event.Event.{Event};
ghost use Rattle.gcd_event.specs.Owners.{ended};
ghost use Rattle.gcd_history.specs.Choice.{is_work, worker_of};
ghost use Rattle.gcd_history.specs.History.{why};
ghost use Rattle.gcd_row.specs.Passes.{IsPassOf, slots, view};
ghost use Rattle.gcd_row.specs.declared.board.RowBoard.{RowBoard};
ghost use Rattle.gcd_row.specs.declared.pass.RowPass.{RowPass};
ghost use Rattle.gcd_plan.specs.declared.numbers.Run.TheVariants.{Source};
ghost use Rattle.gcd_pool.specs.Hands.{IsFresh, IsHandOf, IsReady, IsSettled, Serving};
ghost use Rattle.gcd_pool.specs.Throughs.{SaysThrough};
ghost use Rattle.gcd_pool.specs.Placing.{SaysRecorded};
ghost use Rattle.gcd_pool.specs.Turns.{AfterTurn};
ghost use Rattle.gcd_pool.specs.Works.{AddsOnly, AddsWork, WasEndPut};

use crate::hand::{Hand, Pool};
use crate::putting::{put_chosen_through, put_through};
use crate::run_cells::RunCells;
use crate::turn::Turn;
use gcd_event::Event;
use gcd_plan::{Obj, Run};
use gcd_row::{Put, RowPass, Slot};
use std::sync::Wait;

// What has come of an end that was put. None where another event barred it and the run is not halted.
#[inline(always)]
fn end_said<S: Slot>(pass: &RowPass<S>, said: Put) -> Option<Turn>
    ensures { (board : RowBoard S) (before : RowPass S) (e : Event) → IsPassOf S.shape S.gives board pass.now
        → SaysThrough S.shape S.gives board e before pass.now said → worker_of e ≡ (view before).worker
        → IsSettled S.shape (view before) e (slots before) → WasEndPut S.shape e before pass.now result }
{
    match said {
        Put::Placed(_) => Some(Turn::Ended),
        Put::Full => Some(Turn::Left),
        Put::Held { .. } => Some(Turn::Stopped),
        Put::Barred { .. } => {
            if pass.machine().is_halted() {
                Some(Turn::Left)
            } else {
                None
            }
        }
    }
}

// Puts an end until it stands, or the run has ended, or the worker is stopped.
fn retry_end<S: Slot, R: Wait>(rt: &R, pool: &Pool<S>, hand: &mut Hand<S>, e: Event) -> Turn
    requires of { IsHandOf S.shape S.gives pool.now hand.old }
    requires worker { worker_of e ≡ (view hand.old.pass).worker }
    requires settled { IsSettled S.shape (view hand.old.pass) e (slots hand.old.pass) }
    ensures serving { Serving S.shape S.gives pool.now hand.old hand.new }
    ensures bench { hand.new.bench ≡ hand.old.bench }
    ensures work { AddsWork (view hand.old.pass) (view hand.new.pass) }
    ensures only { AddsOnly e (view hand.old.pass) (view hand.new.pass) }
    ensures recorded { SaysRecorded e result (view hand.old.pass) (view hand.new.pass) }
    ensures after { AfterTurn S.shape result (view hand.new.pass) (slots hand.new.pass) }
{
    for _ in rt.forever() {
        let said = put_through(rt, pool, hand, e);
        if let Some(turn) = end_said(&hand.pass, said) {
            return turn;
        }
    }
    unreachable!()
}

// Puts an end that the pass's machine permits until it stands, or the run has ended, or the worker is stopped.
#[inline(always)]
fn put_end<S: Slot, R: Wait>(rt: &R, pool: &Pool<S>, hand: &mut Hand<S>, e: Event) -> Turn
    requires of { IsHandOf S.shape S.gives pool.now hand.old }
    requires worker { worker_of e ≡ (view hand.old.pass).worker }
    requires may { why (view hand.old.pass).terms.plan (view hand.old.pass).seen e ≡ None }
    requires settled { IsSettled S.shape (view hand.old.pass) e (slots hand.old.pass) }
    ensures serving { Serving S.shape S.gives pool.now hand.old hand.new }
    ensures bench { hand.new.bench ≡ hand.old.bench }
    ensures work { AddsWork (view hand.old.pass) (view hand.new.pass) }
    ensures only { AddsOnly e (view hand.old.pass) (view hand.new.pass) }
    ensures recorded { SaysRecorded e result (view hand.old.pass) (view hand.new.pass) }
    ensures after { AfterTurn S.shape result (view hand.new.pass) (slots hand.new.pass) }
{
    let said = put_chosen_through(rt, pool, hand, e);
    match end_said(&hand.pass, said) {
        Some(turn) => turn,
        None => retry_end(rt, pool, hand, e),
    }
}

// Calls the handler of the source whose run the pass holds, and records its end.
fn end_source<S: RunCells, R: Wait>(
    rt: &R,
    pool: &Pool<S>,
    hand: &mut Hand<S>,
    s: Obj,
    e: Event,
) -> Turn
    requires of { IsHandOf S.shape S.gives pool.now hand.old }
    requires worker { worker_of e ≡ (view hand.old.pass).worker }
    requires may { why (view hand.old.pass).terms.plan (view hand.old.pass).seen e ≡ None }
    requires ends { ended e ≡ Some (Source s) }
    requires fresh { IsFresh S.shape (view hand.old.pass) (slots hand.old.pass) }
    ensures serving { Serving S.shape S.gives pool.now hand.old hand.new }
    ensures bench { hand.new.bench ≡ hand.old.bench }
    ensures work { AddsWork (view hand.old.pass) (view hand.new.pass) }
    ensures only { AddsOnly e (view hand.old.pass) (view hand.new.pass) }
    ensures recorded { SaysRecorded e result (view hand.old.pass) (view hand.new.pass) }
    ensures after { AfterTurn S.shape result (view hand.new.pass) (slots hand.new.pass) }
{
    S::call_handler(pool.board, &mut hand.pass, s);
    put_end(rt, pool, hand, e)
}

// Records an event that ends no run.
#[inline(always)]
fn go_on<S: Slot, R: Wait>(rt: &R, pool: &Pool<S>, hand: &mut Hand<S>, e: Event) -> Turn
    requires of { IsHandOf S.shape S.gives pool.now hand.old }
    requires worker { worker_of e ≡ (view hand.old.pass).worker }
    requires may { why (view hand.old.pass).terms.plan (view hand.old.pass).seen e ≡ None }
    requires ends_none { ended e ≡ None }
    requires work { is_work e ≡ true }
    requires fresh { IsFresh S.shape (view hand.old.pass) (slots hand.old.pass) }
    ensures serving { Serving S.shape S.gives pool.now hand.old hand.new }
    ensures bench { hand.new.bench ≡ hand.old.bench }
    ensures work { AddsWork (view hand.old.pass) (view hand.new.pass) }
    ensures only { AddsOnly e (view hand.old.pass) (view hand.new.pass) }
    ensures recorded { SaysRecorded e result (view hand.old.pass) (view hand.new.pass) }
    ensures after { AfterTurn S.shape result (view hand.new.pass) (slots hand.new.pass) }
{
    match put_chosen_through(rt, pool, hand, e) {
        Put::Placed(_) => Turn::Placed,
        Put::Full => Turn::Left,
        Put::Barred { .. } => Turn::Waited,
        Put::Held { .. } => Turn::Stopped,
    }
}

/// Records what the worker's machine chose, an event that begins no run on a node. Before the end of a run the worker runs its body, unless
/// the block is cancelled, or calls its handler; it puts the end until that stands ([`Turn::Ended`]), or until the row is full or the run
/// halted ([`Turn::Left`]). It puts another event once: [`Turn::Placed`], [`Turn::Waited`] where one that came first bars it, or
/// [`Turn::Left`] where the row is full. Where a passed word holds the event it waits, and [`Turn::Stopped`] is answered where the run
/// can't go on. Conditions: the event is one of the hand's worker, none of the outside, and the worker's machine permits it; and the run
/// that the hand holds, if any, is as it was taken.
#[inline(always)]
pub fn record_own<S: RunCells, R: Wait>(
    rt: &R,
    pool: &Pool<S>,
    hand: &mut Hand<S>,
    e: Event,
) -> Turn
    requires ready { IsReady S.shape S.gives pool.now hand.old }
    requires worker { worker_of e ≡ (view hand.old.pass).worker }
    requires may { why (view hand.old.pass).terms.plan (view hand.old.pass).seen e ≡ None }
    requires work { is_work e ≡ true }
    ensures serving { Serving S.shape S.gives pool.now hand.old hand.new }
    ensures work { AddsWork (view hand.old.pass) (view hand.new.pass) }
    ensures only { AddsOnly e (view hand.old.pass) (view hand.new.pass) }
    ensures bench { hand.new.bench ≡ hand.old.bench }
    ensures recorded { SaysRecorded e result (view hand.old.pass) (view hand.new.pass) }
    ensures after { AfterTurn S.shape result (view hand.new.pass) (slots hand.new.pass) }
{
    match e.ended() {
        Some(Run::Block(b)) => {
            S::run_body(pool.board, &mut hand.pass, b);
            put_end(rt, pool, hand, e)
        }
        Some(Run::Source(s)) => end_source(rt, pool, hand, s, e),
        None => go_on(rt, pool, hand, e),
    }
}
