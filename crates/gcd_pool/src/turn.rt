// A turn of a worker.
ghost use Rattle.std.specs.Prelude.{◌≡◌};
ghost use Rattle.gcd_row.specs.Passes.{slots, view};
ghost use Rattle.gcd_pool.specs.Due.{ChoosesOn, IsDue, SaysDue};
ghost use Rattle.gcd_pool.specs.Hands.{IsReady, Serving};
ghost use Rattle.gcd_pool.specs.Placing.{SaysPlaced, SaysRested};
ghost use Rattle.gcd_pool.specs.Turns.{AfterTurn, LaysDown, SaysOut};
ghost use Rattle.gcd_pool.specs.Works.{AddsWork};

use crate::drains::begin_chosen;
use crate::duty::{Duty, duty_of};
use crate::hand::{Hand, Pool};
use crate::own::record_own;
use crate::run_cells::RunCells;
use gcd_plan::Obj;
use std::sync::Wait;

/// What a turn of a worker comes to.
#[derive(Clone, Copy, PartialEq, Eq)]
pub enum Turn {
    /// The run has ended, and the worker has left.
    Left,
    /// One event of the worker was placed, which ends no run.
    Placed,
    /// One event of the worker was placed, with which its run has ended.
    Ended,
    /// None was placed, and the Drain of this node is out: it did not sleep at a moment of the call.
    Out(Obj),
    /// None was placed: another event came first, the row is full, the worker may begin nothing on the node of the Drain that it found, or
    /// it left the row to others ([`free_turn`](crate::free_turn)).
    Waited,
    /// None was placed: no event of the worker is permitted, though the run goes on.
    Rested,
    /// None was placed, and the worker leaves, because the run cannot go on: memory was refused to the journal of worker 0, or no thread was
    /// made for a worker. Nothing is said of the run that the worker holds.
    Stopped,
}

/// Does what the worker has to do by what it has seen, its nodes from number `from` on: what [`duty_of`] says.
/// It answers [`Turn::Left`] where the worker has seen that the run has ended, and [`Turn::Rested`] where there is nothing to do. An
/// event that begins no run on a node is put by [`record_own`]. One that begins a run is put once where the Drain of its node sleeps:
/// [`Turn::Placed`], or [`Turn::Waited`] where another event came first or the row is full. Where that Drain does not sleep this is
/// [`begin_near`](crate::begin_near). Where a passed word holds the event each of them waits, and answers [`Turn::Stopped`] where the run
/// can't go on. `due` says which event it had to put (`SaysDue` of `specs/Due`). Condition: the run that the hand holds, if any, is as it
/// was taken.
pub fn take_turn<S: RunCells, R: Wait>(
    rt: &R,
    pool: &Pool<S>,
    hand: &mut Hand<S>,
    from: u32,
) -> Turn
    requires { IsReady S.shape S.gives pool.now hand.old }
    ensures serving { Serving S.shape S.gives pool.now hand.old hand.new }
    ensures work { AddsWork (view hand.old.pass) (view hand.new.pass) }
    ensures placed { SaysPlaced result (view hand.old.pass) (view hand.new.pass) }
    ensures rested { SaysRested result (view hand.new.pass) }
    ensures after { AfterTurn S.shape result (view hand.new.pass) (slots hand.new.pass) }
    ensures out { SaysOut result hand.old.bench hand.new.bench }
    ensures laid { LaysDown hand.old.bench hand.new.bench result }
    ensures due { SaysDue (IsDue from) (ChoosesOn from) result (view hand.old.pass) (view hand.new.pass) hand.old.bench hand.new.bench }
{
    let most = pool.board.most();
    match duty_of(most, hand.pass.machine(), hand.pass.worker(), from) {
        Duty::Leave(_) => Turn::Left,
        Duty::Record(e) => record_own(rt, pool, hand, e),
        Duty::Begin(node, e) => begin_chosen(rt, pool, hand, node, e),
        Duty::Rest => Turn::Rested,
    }
}
