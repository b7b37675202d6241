// What a worker does with a Drain.
ghost use Rattle.std.specs.Prelude.{◌≡◌, ◌<◌, true, length, None, Some, IsTrue};
ghost use Rattle.gcd_history.specs.Choice.{is_work, worker_of};
ghost use Rattle.gcd_history.specs.History.{why};
ghost use Rattle.gcd_plan.specs.Kinds.{is_node};
ghost use Rattle.gcd_plan.specs.declared.numbers.Obj.{Obj};
ghost use Rattle.gcd_row.specs.Passes.{IsPassOf, Says, SaysSlots, slots, view};
ghost use Rattle.gcd_steal.specs.Drains.{node_of};
ghost use Rattle.gcd_steal.specs.Racks.{IsBenchOf, IsRackDrain, number_of};
ghost use Rattle.gcd_pool.specs.Due.{BeginsThere, IsAt, IsThisOr, SaysDue, SaysPut};
ghost use Rattle.gcd_pool.specs.Duties.{begun_on};
ghost use Rattle.gcd_pool.specs.Found.{IsLaidDown};
ghost use Rattle.gcd_pool.specs.Hands.{IsHandOf, IsReady, Serving};
ghost use Rattle.gcd_pool.specs.Placing.{SaysBegun};
ghost use Rattle.gcd_pool.specs.Turns.{AfterTurn, LaysFoundDown, SaysOut};
ghost use Rattle.gcd_pool.specs.Works.{AddsWork};

use crate::finding::find_drain;
use crate::hand::{Hand, Pool};
use crate::putting::put_chosen_through;
use crate::run_cells::RunCells;
use crate::turn::Turn;
use gcd_event::Event;
use gcd_machine::Machine;
use gcd_plan::{Obj, Plan};
use gcd_row::{Put, RowBoard, RowPass, Slot};
use gcd_steal::{Bench, Drain, Rack};
use std::sync::Wait;

/// Puts an event that begins a run on a node once, by who holds the node's Drain, and answers as [`RowBoard::put`]: it may answer
/// [`Put::Held`]. Conditions: the event is a Start or a Deliver of the pass's worker, and it begins its run on the Drain's node.
/// Workers of a pool do not call it, because they put only events that their machine chose, and wait while such an event is held.
pub fn begin<S: Slot>(board: &RowBoard<S>, pass: &mut RowPass<S>, _drain: &Drain, e: Event) -> Put
    requires pass { IsPassOf S.shape S.gives board.now pass.old }
    requires worker { worker_of e ≡ (view pass.old).worker }
    requires begins { begun_on (view pass.old).terms.plan (view pass.old).seen e ≡ Some (node_of _drain.now) }
    ensures pass { IsPassOf S.shape S.gives board.now pass.new }
    ensures view { Says e (view pass.old) (view pass.new) result }
    ensures slots { SaysSlots S.shape S.gives e (slots pass.old) (slots pass.new) (view pass.new) result }
{
    board.put(pass, e)
}

// Puts the Drain at the back of the bench's own deque, or else into its sleeping place.
#[inline(always)]
fn push_or_sleep(rack: &Rack, bench: &mut Bench, drain: Drain)
    requires bench { IsBenchOf rack.now bench.old }
    requires drain { IsRackDrain rack.now drain }
    ensures bench { IsBenchOf rack.now bench.new }
    ensures number { number_of bench.new ≡ number_of bench.old }
    ensures laid { IsLaidDown bench.old drain bench.new }
{
    match rack.push(bench, drain) {
        Ok(()) => {}
        Err(drain) => rack.sleep(bench, drain),
    }
}

// Lays the Drain down: where more can begin on its node, for others to steal.
#[inline(always)]
fn lay_down(rack: &Rack, bench: &mut Bench, drain: Drain, more: bool)
    requires bench { IsBenchOf rack.now bench.old }
    requires drain { IsRackDrain rack.now drain }
    ensures bench { IsBenchOf rack.now bench.new }
    ensures number { number_of bench.new ≡ number_of bench.old }
    ensures laid { IsLaidDown bench.old drain bench.new }
{
    if more {
        push_or_sleep(rack, bench, drain);
    } else {
        rack.sleep(bench, drain);
    }
}

// Whether others may begin a run on the node: the team has another hand, and it is a concurrent queue on which a block waits.
#[inline(always)]
fn others_may_begin(plan: &Plan, alone: bool, machine: &Machine, node: Obj) -> bool
    requires node { node.0 < length plan.now.objects }
    requires plan { machine.now.plan ≡ plan.now }
{
    if alone {
        return false;
    }
    if !plan.kind(node).is_concurrent() {
        return false;
    }
    machine.first_waiting(node).is_some()
}

// Begins the run of this event on the Drain's node, and lays the Drain down.
#[inline(always)]
fn begin_with<S: Slot, R: Wait>(
    rt: &R,
    pool: &Pool<S>,
    hand: &mut Hand<S>,
    drain: Drain,
    e: Event,
) -> Turn
    requires ready { IsReady S.shape S.gives pool.now hand.old }
    requires drain { IsRackDrain pool.now.rack.now drain }
    requires worker { worker_of e ≡ (view hand.old.pass).worker }
    requires begins { begun_on (view hand.old.pass).terms.plan (view hand.old.pass).seen e ≡ Some (node_of drain) }
    requires may { why (view hand.old.pass).terms.plan (view hand.old.pass).seen e ≡ None }
    requires work { is_work e ≡ true }
    ensures serving { Serving S.shape S.gives pool.now hand.old hand.new }
    ensures work { AddsWork (view hand.old.pass) (view hand.new.pass) }
    ensures begun { (node : Obj) → SaysBegun node result (view hand.old.pass) (view hand.new.pass) }
    ensures put { SaysPut e result (view hand.old.pass) (view hand.new.pass) }
    ensures after { AfterTurn S.shape result (view hand.new.pass) (slots hand.new.pass) }
    ensures laid { IsLaidDown hand.old.bench drain hand.new.bench }
{
    let node = drain.node();
    match put_chosen_through(rt, pool, hand, e) {
        Put::Placed(_) => {
            let more = others_may_begin(pool.plan, pool.alone, hand.pass.machine(), node);
            lay_down(pool.rack, &mut hand.bench, drain, more);
            Turn::Placed
        }
        Put::Barred { .. } => {
            lay_down(pool.rack, &mut hand.bench, drain, false);
            Turn::Waited
        }
        Put::Held { .. } => {
            lay_down(pool.rack, &mut hand.bench, drain, false);
            Turn::Stopped
        }
        Put::Full => {
            lay_down(pool.rack, &mut hand.bench, drain, false);
            Turn::Waited
        }
    }
}

/// Begins what may begin by a Drain that it finds: the front of the bench's deque, or else of another's, or else
/// the node's own from its sleeping place. It answers [`Turn::Placed`] where a run began on that Drain's node; the Drain is then at the
/// back of the bench's deque, where another block waits on a concurrent queue, the team has another hand and the deque has room, and
/// sleeps else. [`Turn::Waited`] where nothing may begin there, another event came first, or the row is full; the Drain sleeps then.
/// [`Turn::Out`] where it finds none: the node's Drain is with another worker, which begins what may begin there. [`Turn::Stopped`] where
/// the run can't go on; the Drain sleeps then. Conditions: the node is a queue or source of the plan, and the run that the
/// hand holds, if any, is as it was taken.
pub fn begin_near<S: RunCells, R: Wait>(
    rt: &R,
    pool: &Pool<S>,
    hand: &mut Hand<S>,
    node: Obj,
) -> Turn
    requires ready { IsReady S.shape S.gives pool.now hand.old }
    requires node { IsTrue (is_node (view hand.old.pass).terms.plan node.0) }
    ensures serving { Serving S.shape S.gives pool.now hand.old hand.new }
    ensures work { AddsWork (view hand.old.pass) (view hand.new.pass) }
    ensures begun { SaysBegun node result (view hand.old.pass) (view hand.new.pass) }
    ensures after { AfterTurn S.shape result (view hand.new.pass) (slots hand.new.pass) }
    ensures out { SaysOut result hand.old.bench hand.new.bench }
    ensures laid { LaysFoundDown hand.old.bench hand.new.bench result }
    ensures due { SaysDue BeginsThere (IsAt node) result (view hand.old.pass) (view hand.new.pass) hand.old.bench hand.new.bench }
{
    let Some(drain) = find_drain(rt, pool.rack, &mut hand.bench, node) else {
        return Turn::Out(node);
    };
    let worker = hand.pass.worker();
    match hand.pass.machine().begin_on(worker, drain.node()) {
        Some(e) => begin_with(rt, pool, hand, drain, e),
        None => {
            pool.rack.sleep(&mut hand.bench, drain);
            Turn::Waited
        }
    }
}

// Begins the run of this event on its node, where the node's Drain sleeps; or else what may begin on a Drain that is found.
#[inline(always)]
pub fn begin_chosen<S: RunCells, R: Wait>(
    rt: &R,
    pool: &Pool<S>,
    hand: &mut Hand<S>,
    node: Obj,
    e: Event,
) -> Turn
    requires ready { IsReady S.shape S.gives pool.now hand.old }
    requires node { IsTrue (is_node (view hand.old.pass).terms.plan node.0) }
    requires worker { worker_of e ≡ (view hand.old.pass).worker }
    requires begins { begun_on (view hand.old.pass).terms.plan (view hand.old.pass).seen e ≡ Some node }
    requires may { why (view hand.old.pass).terms.plan (view hand.old.pass).seen e ≡ None }
    requires work { is_work e ≡ true }
    ensures serving { Serving S.shape S.gives pool.now hand.old hand.new }
    ensures work { AddsWork (view hand.old.pass) (view hand.new.pass) }
    ensures begun { SaysBegun node result (view hand.old.pass) (view hand.new.pass) }
    ensures after { AfterTurn S.shape result (view hand.new.pass) (slots hand.new.pass) }
    ensures out { SaysOut result hand.old.bench hand.new.bench }
    ensures laid { LaysFoundDown hand.old.bench hand.new.bench result }
    ensures due { SaysDue (IsThisOr e) (IsAt node) result (view hand.old.pass) (view hand.new.pass) hand.old.bench hand.new.bench }
{
    match pool.rack.wake(&mut hand.bench, node) {
        Some(drain) => begin_with(rt, pool, hand, drain, e),
        None => begin_near(rt, pool, hand, node),
    }
}
