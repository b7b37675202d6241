// The turns of a helper.
ghost use Rattle.std.specs.Prelude.{◌≡◌, ◌+◌, ◌≤◌, ℕ, true, List, length, MatchOption};
ghost use Rattle.gcd_history.specs.Ends.{HasEnded};
ghost use Rattle.gcd_row.specs.Passes.{IsPassOf, slots, view};
ghost use Rattle.gcd_row.specs.declared.view.View.{View};
ghost use Rattle.gcd_row.specs.declared.board.RowBoard.{RowBoard};
ghost use Rattle.gcd_pool.specs.Due.{SaysFree};
ghost use Rattle.gcd_pool.specs.Hands.{IsFresh, IsReady, Serving};
ghost use Rattle.gcd_pool.specs.Placing.{HasPlacedNone, SaysPlaced, SaysRested};
ghost use Rattle.gcd_pool.specs.Turns.{AfterTurn, LaysDown, SaysOut};
ghost use Rattle.gcd_pool.specs.Works.{AddsWork};

use crate::hand::{Hand, Pool};
use crate::idle::Idle;
use crate::putting::pass_seen;
use crate::run_cells::RunCells;
use crate::team::Crew;
use crate::turn::{Turn, take_turn};
use gcd_plan::Plan;
use gcd_row::{RowPass, Slot};
use std::hint;
use std::sync::Wait;

// How often a free helper has its processor pause between two looks: about a microsecond where a pause takes five nanoseconds, ten
// where it takes fifty.
const PAUSES: u32 = 200;

// How much the row grows where a whole run with no acts began and ended: of three events of such runs two are the begin and the end
// of one.
const WHOLE_RUN: u32 = 3;

// How a helper goes from turn to turn.
#[derive(Drop)]
struct Watch {
    idle: Idle,
    // The number of the node at which it looks first.
    from: u32,
    // How long the row was at its last look.
    seen: u32,
    // It had nothing to do at that look.
    resting: bool,
    // It has no run.
    free: bool,
}

impl Watch {
    // A watch that looks at this node first.
    fn new(from: u32) -> Watch {
        Watch {
            idle: Idle::new(),
            from,
            seen: 0,
            resting: false,
            free: true,
        }
    }

    // The row is so long: where it grew, there may be something to do.
    fn look(&mut self, seen: u32) {
        if seen > self.seen {
            self.seen = seen;
            self.resting = false;
        }
    }

    // What comes after a turn.
    fn after<R: Wait>(&mut self, rt: &R, turn: Turn) {
        match turn {
            Turn::Left => {}
            Turn::Stopped => {}
            Turn::Placed => {
                self.free = false;
                self.idle.reset();
            }
            Turn::Ended => {
                self.free = true;
                self.idle.reset();
            }
            Turn::Out(node) => {
                self.from = node.0.wrapping_add(1);
                self.idle.pause(rt);
            }
            Turn::Waited => self.idle.pause(rt),
            Turn::Rested => {
                self.resting = true;
                self.idle.pause(rt);
            }
        }
    }
}

// Where a worker looks first.
fn first_node(plan: &Plan, worker: u8) -> u32 {
    u32::from(worker) % plan.objects()
}

// Lets about a microsecond pass, and touches no memory that others use.
fn linger() {
    for _ in 0..PAUSES {
        hint::spin_loop();
    }
}

// How many events the pass has seen.
#[inline(always)]
fn seen_by<S: Slot>(pass: &RowPass<S>) -> u32
    ensures { (board : RowBoard S) → IsPassOf S.shape S.gives board pass.now → result ≡ length (view pass.now).seen }
{
    pass.machine().len()
}

// Whether a whole run began and ended while the helper lingered. It has seen the row as it was after that.
fn are_quick<S: RunCells>(pool: &Pool<S>, hand: &mut Hand<S>) -> bool
    requires { IsReady S.shape S.gives pool.now hand.old }
    ensures serving { Serving S.shape S.gives pool.now hand.old hand.new }
    ensures none { HasPlacedNone (view hand.old.pass) (view hand.new.pass) }
    ensures bench { hand.new.bench ≡ hand.old.bench }
    ensures quick { result ≡ true → length (view hand.old.pass).seen + 3 ≤ length (view hand.new.pass).seen }
    ensures work { AddsWork (view hand.old.pass) (view hand.new.pass) }
    ensures fresh { IsFresh S.shape (view hand.new.pass) (slots hand.new.pass) }
{
    let seen = seen_by(&hand.pass);
    linger();
    let now = pool.board.look(&mut hand.pass);
    now.saturating_sub(seen) >= WHOLE_RUN
}

/// A turn of a helper that has no run. It looks after about a microsecond, and lets others write over what it has seen. If three events or
/// more have come by then, the others' runs are so short that it leaves the row to them, and returns [`Turn::Waited`]: each event goes through
/// the one row, so another worker that begins there only slows the others. Otherwise it is [`take_turn`]. It returns [`Turn::Stopped`] if it
/// has worker 0's pass and memory is refused to its journal, and as `take_turn` does. Condition: the run that the hand holds, if any, is as it
/// was taken.
pub fn free_turn<S: RunCells, R: Wait>(
    rt: &R,
    pool: &Pool<S>,
    hand: &mut Hand<S>,
    from: u32,
) -> Turn
    requires { IsReady S.shape S.gives pool.now hand.old }
    ensures serving { Serving S.shape S.gives pool.now hand.old hand.new }
    ensures work { AddsWork (view hand.old.pass) (view hand.new.pass) }
    ensures placed { SaysPlaced result (view hand.old.pass) (view hand.new.pass) }
    ensures rested { SaysRested result (view hand.new.pass) }
    ensures out { SaysOut result hand.old.bench hand.new.bench }
    ensures laid { LaysDown hand.old.bench hand.new.bench result }
    ensures due { SaysFree from result (view hand.old.pass) (view hand.new.pass) hand.old.bench hand.new.bench }
    ensures after { AfterTurn S.shape result (view hand.new.pass) (slots hand.new.pass) }
{
    let quick = are_quick(pool, hand);
    if !pass_seen(pool, hand) {
        return Turn::Stopped;
    }
    if quick {
        Turn::Waited
    } else {
        take_turn(rt, pool, hand, from)
    }
}

// One turn: it looks, lets others write over what it has seen, and does what there is to do. A turn that finds nothing new after one with
// nothing to do only waits.
fn step<S: RunCells, R: Wait>(rt: &R, pool: &Pool<S>, hand: &mut Hand<S>, watch: &mut Watch) -> Turn
    requires { IsReady S.shape S.gives pool.now hand.old }
    ensures serving { Serving S.shape S.gives pool.now hand.old hand.new }
    ensures after { AfterTurn S.shape result (view hand.new.pass) (slots hand.new.pass) }
{
    let seen = pool.board.look(&mut hand.pass);
    if !pass_seen(pool, hand) {
        return Turn::Stopped;
    }
    watch.look(seen);
    if watch.resting {
        return Turn::Rested;
    }
    if watch.free {
        return free_turn(rt, pool, hand, watch.from);
    }
    take_turn(rt, pool, hand, watch.from)
}

// Nothing was placed, though the worker may come again.
fn is_idle(turn: Turn) -> bool {
    match turn {
        Turn::Left => false,
        Turn::Placed => false,
        Turn::Ended => false,
        Turn::Out(_) => true,
        Turn::Waited => true,
        Turn::Rested => true,
        Turn::Stopped => false,
    }
}

// How serving ends after a turn: true where the worker has seen that the run has ended, and false where the team was stopped. None where
// the next turn comes: who places events goes on till there is none, or a passed word holds it.
fn left_by<S: Slot>(pool: &Pool<S>, turn: Turn) -> Option<bool>
    ensures { (v : View S) (cells : List (ℕ × S)) → AfterTurn S.shape turn v cells
        → MatchOption result (IsFresh S.shape v cells) (λ ended. ended ≡ true → HasEnded v.terms.limits.most v.terms.plan v.seen) }
{
    if is_idle(turn) {
        if pool.is_stopped() {
            return Some(false);
        }
    }
    match turn {
        Turn::Left => Some(true),
        Turn::Placed => None,
        Turn::Ended => None,
        Turn::Out(_) => None,
        Turn::Waited => None,
        Turn::Rested => None,
        Turn::Stopped => {
            pool.stop();
            Some(false)
        }
    }
}

// Turn by turn, until the run has ended, which it answers, or the team was stopped.
pub fn serve_to_the_end<S: RunCells, R: Wait>(rt: &R, pool: &Pool<S>, hand: &mut Hand<S>) -> bool
    requires { IsReady S.shape S.gives pool.now hand.old }
    ensures serving { Serving S.shape S.gives pool.now hand.old hand.new }
    ensures ended { result ≡ true → HasEnded (view hand.new.pass).terms.limits.most (view hand.new.pass).terms.plan (view hand.new.pass).seen }
{
    pool.begin_serving(hand.pass.worker());
    let mut watch = Watch::new(first_node(pool.plan, hand.pass.worker()));
    for _ in rt.forever() {
        let turn = step(rt, pool, hand, &mut watch);
        if let Some(ended) = left_by(pool, turn) {
            return ended;
        }
        watch.after(rt, turn);
    }
    unreachable!()
}

impl<S: RunCells> Crew<Hand<S>> for Pool<'_, S> {
    ghost use Rattle.gcd_pool.specs.Hands.{IsReady, Serving};

    ghost ready = { IsReady S.shape S.gives };

    ghost served = { Serving S.shape S.gives };

    fn serve<R: Wait>(&self, rt: &R, hand: &mut Hand<S>) {
        serve_to_the_end(rt, self, hand);
    }
}
