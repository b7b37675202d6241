// What worker 0 of a pool does with its hand.
ghost use Rattle.std.specs.Prelude.{◌≡◌, true, false, ℕ, List, None, IfOk, OnOk};
ghost use Rattle.gcd_event.specs.declared.event.Event.{Event};
ghost use Rattle.gcd_history.specs.Choice.{is_work, worker_of};
ghost use Rattle.gcd_history.specs.Ends.{HasEnded};
ghost use Rattle.gcd_history.specs.History.{why};
ghost use Rattle.gcd_loop.specs.Recorded.{After, Says};
ghost use Rattle.gcd_row.specs.Passes.{slots, view};
ghost use Rattle.gcd_row.specs.Views.{knowing};
ghost use Rattle.gcd_row.specs.declared.view.View.{View};
ghost use Rattle.gcd_pool.specs.Hands.{IsFresh, IsHandOf, IsReady, Serving};
ghost use Rattle.gcd_pool.specs.Admitted.{HandedOn};
ghost use Rattle.gcd_pool.specs.Leads.{IsHead, Leads, bounds_of};
ghost use Rattle.gcd_pool.specs.Turns.{AfterTurn};
ghost use Rattle.gcd_pool.specs.Works.{AddsOnly, AddsWork};

use crate::drains::begin_chosen;
use crate::duty::node_of_begin;
use crate::hand::{Hand, Pool};
use crate::own::record_own;
use crate::putting::{pass_many, pass_seen, put_through};
use crate::run_cells::RunCells;
use crate::turn::Turn;
use gcd_event::Event;
use gcd_loop::Step;
use gcd_row::{Put, Slot};
use std::alloc::AllocError;
use std::sync::Wait;

// What a worker's turn is to the loop. An `Err` if the team was stopped.
#[inline(always)]
pub(crate) fn step_of<S: Slot>(turn: Turn) -> Result<Step, AllocError>
    ensures { (v : View S) (cells : List (ℕ × S)) → AfterTurn S.shape turn v cells
        → IfOk result (After (IsFresh S.shape v cells) ⊥ (HasEnded v.terms.limits.most v.terms.plan v.seen)) }
{
    match turn {
        Turn::Left => Ok(Step::Over),
        Turn::Placed => Ok(Step::Placed),
        Turn::Ended => Ok(Step::Placed),
        Turn::Out(_) => Ok(Step::Waited),
        Turn::Waited => Ok(Step::Waited),
        Turn::Rested => Ok(Step::Waited),
        Turn::Stopped => Err(AllocError),
    }
}

// Worker 0 records what its machine chose, or begins that run. If no other hand serves it needs no Drain, and records at once.
#[inline(always)]
pub(crate) fn lead_any<S: RunCells, R: Wait>(
    rt: &R,
    pool: &Pool<S>,
    hand: &mut Hand<S>,
    e: Event,
) -> Turn
    requires ready { IsReady S.shape S.gives pool.now hand.old }
    requires worker { worker_of e ≡ (view hand.old.pass).worker }
    requires may { why (view hand.old.pass).terms.plan (view hand.old.pass).seen e ≡ None }
    requires work { is_work e ≡ true }
    ensures serving { Serving S.shape S.gives pool.now hand.old hand.new }
    ensures work { AddsWork (view hand.old.pass) (view hand.new.pass) }
    ensures only { pool.now.alone ≡ true → AddsOnly e (view hand.old.pass) (view hand.new.pass) }
    ensures after { AfterTurn S.shape result (view hand.new.pass) (slots hand.new.pass) }
{
    if pool.alone {
        return record_own(rt, pool, hand, e);
    }
    match node_of_begin(hand.pass.machine(), e) {
        Some(node) => begin_chosen(rt, pool, hand, node, e),
        None => record_own(rt, pool, hand, e),
    }
}

// Puts an event that is no worker's, as often as it takes while a passed word holds it. An `Err` if memory was refused to the journal, or the
// team was stopped.
#[inline(always)]
pub(crate) fn put_on<S: Slot, R: Wait>(
    rt: &R,
    pool: &Pool<S>,
    hand: &mut Hand<S>,
    e: Event,
) -> Result<Put, AllocError>
    requires head { IsHead S.shape S.gives pool.now hand.old }
    requires by { worker_of e ≡ 0 }
    requires no_work { is_work e ≡ false }
    ensures head { OnOk result (IsHead S.shape S.gives pool.now hand.new) }
    ensures said { IfOk result (Says (bounds_of pool.now).most pool.now.plan.now e (view hand.old.pass).seen (view hand.new.pass).seen) }
    ensures handed { IfOk result (HandedOn e (view hand.old.pass) (view hand.new.pass)) }
    ensures kept { (a : Hand S) → Leads S.shape S.gives pool.now a hand.old → Leads S.shape S.gives pool.now a hand.new }
{
    if !pass_many(pool, hand) {
        return Err(AllocError);
    }
    let answer = put_through(rt, pool, hand, e);
    if let Put::Held { .. } = answer {
        return Err(AllocError);
    }
    Ok(answer)
}

// Worker 0 gathers all that it has seen. False if memory was refused to its journal: nobody waits for it any more then.
pub(crate) fn gather_all<S: Slot>(pool: &Pool<S>, hand: &mut Hand<S>) -> bool
    requires of { IsHandOf S.shape S.gives pool.now hand.old }
    requires head { (view hand.old.pass).worker ≡ 0 }
    ensures serving { Serving S.shape S.gives pool.now hand.old hand.new }
    ensures view { view hand.new.pass ≡ knowing (view hand.old.pass) (view hand.old.pass).seen (view hand.new.pass).marks }
    ensures whole { result ≡ true → hand.new.journal.items ≡ (view hand.new.pass).seen }
{
    if pass_seen(pool, hand) {
        return true;
    }
    pool.stop();
    false
}
