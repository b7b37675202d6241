// The parts that workers share, and the hand of each worker.
ghost use Rattle.std.specs.Prelude.{◌≡◌, true, None};
ghost use Rattle.gcd_row.specs.Passes.{IsPassOf, view};
ghost use Rattle.gcd_steal.specs.Racks.{IsBenchOf};
ghost use Rattle.gcd_row.specs.Views.{held_run};
ghost use Rattle.gcd_pool.specs.Hands.{IsGatheredBy, IsPool, IsReady, IsSamePool};

use crate::fault::PoolFault;
use gcd_event::Entry;
use gcd_plan::Plan;
use gcd_row::{RowBoard, RowPass, Slot};
use gcd_steal::{Bench, Rack};
use std::sync::atomic::{AtomicBool, AtomicU64, Ordering};

// Returns the bit of a worker, 0 to 63.
fn bit_of(worker: u8) -> u64 {
    1 << (worker % 64)
}

/// The workers of a run share this: the board, the rack and the plan of both. Threads share it by `&`.
#[derive(Drop)]
pub struct Pool<'a, S: Slot> {
    /// The row of events, and the slots.
    pub board: &'a RowBoard<S>,
    /// The Drains that sleep, and the deques.
    pub rack: &'a Rack,
    /// The plan of the board and of the rack.
    pub plan: &'a Plan,
    // The team has only one hand. Then nobody else begins anything, and no Drain is pushed.
    pub(crate) alone: bool,
    // Worker 0's journal was refused memory, or a worker's thread was never made. From then on nobody waits.
    stopped: AtomicBool,
    // A worker's thread was never made.
    unserved: AtomicBool,
    // One bit for each worker that has begun to serve or to lead.
    begun: AtomicU64,
}

impl<'a, S: Slot> Pool<'a, S> {
    /// Makes a pool. Calls that ask for a hand of it need a board and a rack of this plan, with a cell for each block.
    pub fn new(board: &'a RowBoard<S>, rack: &'a Rack, plan: &'a Plan) -> Pool<'a, S>
        ensures board { result.board.now ≡ board.now }
        ensures rack { result.rack.now ≡ rack.now }
        ensures plan { result.plan.now ≡ plan.now }
    {
        Pool {
            board,
            rack,
            plan,
            alone: false,
            stopped: AtomicBool::new(false),
            unserved: AtomicBool::new(false),
            begun: AtomicU64::new(0),
        }
    }

    // Returns this pool for so many hands.
    pub(crate) fn for_hands(&self, hands: usize) -> Pool<'a, S>
        ensures same { IsSamePool self.now result }
        ensures alone { hands ≡ 1 → result.alone ≡ true }
    {
        Pool {
            board: self.board,
            rack: self.rack,
            plan: self.plan,
            alone: hands == 1,
            stopped: AtomicBool::new(false),
            unserved: AtomicBool::new(false),
            begun: AtomicU64::new(0),
        }
    }

    /// Makes the hand of a worker that holds no run. The pass is of the pool's board and the bench of its rack, and both are of its plan.
    /// Worker 0's journal has what its pass has seen up to its passed word. A helper's journal is not read.
    pub fn hand(&self, pass: RowPass<S>, bench: Bench, journal: Vec<Entry>) -> Hand<S>
        requires pool { IsPool self.now }
        requires pass { IsPassOf S.shape S.gives self.now.board.now pass }
        requires bench { IsBenchOf self.now.rack.now bench }
        requires none { held_run (view pass) ≡ None }
        requires gathered { IsGatheredBy (view pass) journal.items }
        ensures ready { IsReady S.shape S.gives self.now result }
        ensures parts { (result.pass ≡ pass) × (result.bench ≡ bench) × (result.journal ≡ journal) }
    {
        Hand {
            pass,
            bench,
            journal,
        }
    }

    // Stops the team: worker 0's journal was refused memory, or a worker's thread was never made.
    pub(crate) fn stop(&self) {
        self.stopped.store(true, Ordering::SeqCst);
    }

    // Stops the team because a worker's thread was never made.
    pub(crate) fn stop_unserved(&self) {
        self.unserved.store(true, Ordering::SeqCst);
        self.stop();
    }

    // Returns why the team was stopped.
    pub(crate) fn fault(&self) -> PoolFault {
        if self.unserved.load(Ordering::SeqCst) {
            PoolFault::NoThread
        } else {
            PoolFault::Memory
        }
    }

    // Returns whether the team was stopped.
    pub(crate) fn is_stopped(&self) -> bool {
        self.stopped.load(Ordering::SeqCst)
    }

    // Notes that the worker has begun to serve or to lead.
    pub(crate) fn begin_serving(&self, worker: u8) {
        self.begun.fetch_or(bit_of(worker), Ordering::SeqCst);
    }

    // Returns whether the worker has begun.
    pub(crate) fn has_begun(&self, worker: u8) -> bool {
        self.begun.load(Ordering::SeqCst) & bit_of(worker) != 0
    }
}

/// One worker's pass of the board and its bench of the rack. It may go to another thread.
#[derive(Drop)]
pub struct Hand<S> {
    /// Its pass.
    pub pass: RowPass<S>,
    /// Its bench.
    pub bench: Bench,
    /// The events that worker 0 has gathered, the oldest first: those that its pass has seen up to its passed word. A helper's is empty.
    pub journal: Vec<Entry>,
}
