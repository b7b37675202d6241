// The run of a pool: helpers in threads, and worker 0.
ghost use Rattle.std.specs.Prelude.{◌≡◌, ◌<◌, ◌≤◌, ℕ, All, Ok, IfOk, OnOk, length, slice_index_or, vec_len};
ghost use Rattle.gcd_row.specs.Passes.{terms_of, view};
ghost use Rattle.gcd_row.specs.Shapes.{shape_of, gives_of};
ghost use Rattle.gcd_row.specs.declared.cell.Cell.{Cell};
ghost use Rattle.gcd_pool.specs.declared.duty.Exit.{Exit};
ghost use Rattle.gcd_pool.specs.declared.hand.Hand.{Hand};
ghost use Rattle.gcd_pool.specs.Duties.{HasExit};
ghost use Rattle.gcd_pool.specs.Each.{Each};
ghost use Rattle.gcd_pool.specs.Hands.{IsHandOf, IsReady, Served, Serving};
ghost use Rattle.gcd_pool.specs.Admitted.{AreLed, AsksOfFront};
ghost use Rattle.gcd_turn.specs.Outsides.{IsSame};

use crate::duty::{Exit, exit_of, has_ended};
use crate::fault::PoolFault;
use crate::hand::{Hand, Pool};
use crate::team::run_hands;
use gcd_front::{Front, Intake, Sent};
use gcd_jobs::{Admits, Handler, Job};
use gcd_outer::{Clock, Poller};
use gcd_row::{Cell, Slot};
use gcd_turn::Outside;
use std::sync::Wait;
use std::thread::Threads;

// Looks until it has seen that the run has ended.
fn see_the_end<S: Slot, R: Wait>(rt: &R, pool: &Pool<S>, hand: &mut Hand<S>)
    requires { IsHandOf S.shape S.gives pool.now hand.old }
    ensures { Served S.shape S.gives pool.now hand.old hand.new }
{
    let most = pool.board.most();
    for _ in rt.forever() {
        if has_ended(most, hand.pass.machine()) {
            return;
        }
        pool.board.look(&mut hand.pass);
    }
    unreachable!()
}

// Lets the hands from the second on do so.
fn see_the_rest<S: Slot, R: Wait>(rt: &R, pool: &Pool<S>, hands: &mut [Hand<S>])
    requires { All (IsHandOf S.shape S.gives pool.now) hands.old }
    ensures first { (d : Hand S) → slice_index_or hands.new 0 d ≡ slice_index_or hands.old 0 d }
    ensures rest { (k : ℕ) (d : Hand S) → 1 ≤ k → k < length hands.old → Served S.shape S.gives pool.now (slice_index_or hands.old k d) (slice_index_or hands.new k d) }
{
    for k in 1..hands.len() {
        see_the_end(rt, pool, &mut hands[k]);
    }
}

// Lets each hand but the first look until it has seen that the run has ended. One look is enough, because all events that worker 0 has seen
// were placed before.
fn see_the_ends<S: Slot, R: Wait>(rt: &R, pool: &Pool<S>, hands: &mut Vec<Hand<S>>)
    requires { All (IsHandOf S.shape S.gives pool.now) hands.old.items }
    ensures count { length hands.new.items ≡ length hands.old.items }
    ensures first { (d : Hand S) → slice_index_or hands.new.items 0 d ≡ slice_index_or hands.old.items 0 d }
    ensures rest { (k : ℕ) (d : Hand S) → 1 ≤ k → k < length hands.old.items → Served S.shape S.gives pool.now (slice_index_or hands.old.items k d) (slice_index_or hands.new.items k d) }
{
    see_the_rest(rt, pool, hands.as_mut_slice());
}

/// Runs a pool until each hand has seen that the run has ended. Worker 0, the first hand, leads with the outside, and accepts the jobs of
/// outside callers, which it takes by the intake of their front. The other hands serve in their own threads. A team of one needs no thread
/// and pushes no Drain. If each event that its row has more than before the call is worker 0's, it follows the choice of its machine there.
///
/// The result tells how the run has ended. Worker 0 has seen the whole row then, and has it in its journal: only a Halt could follow, and
/// only worker 0 puts a Halt. Returns `Err` if the journal was refused memory, or no thread was made for a worker. The [`PoolFault`] tells
/// which, and no clause says so. Then worker 0 leaves, the others leave when they have nothing to do or are held, and each hand is still
/// one of the pool.
///
/// Worker 0's front has at most 64 senders, and the intake is of this front. The jobs that it has taken of a sender are those of the blocks
/// that were accepted of it (`Admitted` of `specs/Admitted`). Before the first event, an intake that has taken nothing is enough. A job that
/// was taken and not accepted is dropped, because the run was halted or full.
pub fn pool_run<
    J: Job + Admits<X> + Drop + Send,
    H: Handler + Drop + Send,
    X: Sent + Drop + Send,
    P: Poller,
    C: Clock,
    R: Threads + Wait + Sync,
>(
    rt: &R,
    pool: &Pool<Cell<J, H>>,
    hands: &mut Vec<Hand<Cell<J, H>>>,
    front: &Front<X>,
    intake: &mut Intake<X>,
    outside: &mut Outside<P, C>,
) -> Result<Exit, PoolFault>
    requires some { 0 < vec_len hands.old }
    requires hands { All (IsReady (shape_of H.kind H.times H.total) (gives_of J.gives) pool.now) hands.old.items }
    requires asks { (d : Hand (Cell J H)) → AsksOfFront (gives_of J.gives) X.gives front.now (slice_index_or hands.old.items 0 d) intake.old }
    ensures count { length hands.new.items ≡ length hands.old.items }
    ensures hands { Each (Serving (shape_of H.kind H.times H.total) (gives_of J.gives) pool.now) hands.old.items hands.new.items }
    ensures served { OnOk result (Each (Served (shape_of H.kind H.times H.total) (gives_of J.gives) pool.now) hands.old.items hands.new.items) }
    ensures led { AreLed P.Poller C.Clock (gives_of J.gives) X.gives front.now result
        (hands.old.items, intake.old, outside.old) (hands.new.items, intake.new, outside.new) }
    ensures same { IsSame outside.old outside.new }
    ensures exit { (d : Hand (Cell J H)) → IfOk result (HasExit (terms_of pool.now.board.now).limits.most pool.now.plan.now (view (slice_index_or hands.new.items 0 d).pass).seen) }
{
    let team = pool.for_hands(hands.len());
    let done = run_hands::<
        Hand<Cell<J, H>>,
        Pool<Cell<J, H>>,
        Front<X>,
        Intake<X>,
        Outside<P, C>,
        R,
    >(rt, &team, hands.as_mut_slice(), front, intake, outside);
    if !done {
        return Err(team.fault());
    }
    see_the_ends(rt, &team, hands);
    Ok(exit_of(hands[0].pass.machine()))
}
