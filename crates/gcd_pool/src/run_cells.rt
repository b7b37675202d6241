// What a worker does with the cell of its run before the run's end.
ghost use Rattle.std.specs.Prelude.{◌≡◌, ℕ, Some, ◌∷◌, []};
ghost use Rattle.gcd_history.specs.History.{delivery_count_of, received_of};
ghost use Rattle.gcd_plan.specs.declared.kind.Kind.{Kind};
ghost use Rattle.gcd_plan.specs.declared.numbers.Run.TheVariants.{Block, Source};
ghost use Rattle.gcd_row.specs.Lying.{slot_of};
ghost use Rattle.gcd_row.specs.Passes.{IsPassOf, slots, view};
ghost use Rattle.gcd_row.specs.Shapes.{done, handler};
ghost use Rattle.gcd_row.specs.Views.{held_run};
ghost use Rattle.gcd_pool.specs.Hands.{IsFresh};

use gcd_jobs::{Handler, Job};
use gcd_plan::{Blk, Obj};
use gcd_row::{Cell, RowBoard, RowPass, Slot};

/// What a worker does with the cell of a run before the run's end.
pub trait RunCells: Slot {
    /// Runs the body of the block whose run the pass holds, and lays its value into the slot (dispatch_async(3)). Of a cancelled block
    /// the body is dropped, and 0 is laid there: it does not run (dispatch_block_cancel(3)).
    fn run_body(board: &RowBoard<Self>, pass: &mut RowPass<Self>, b: Blk)
        requires pass { IsPassOf Self.shape Self.gives board.now pass.old }
        requires run { held_run (view pass.old) ≡ Some (Block b) }
        requires fresh { IsFresh Self.shape (view pass.old) (slots pass.old) }
        ensures pass { IsPassOf Self.shape Self.gives board.now pass.new }
        ensures view { view pass.new ≡ view pass.old }
        ensures done { (c : Self) × (v : ℕ) × (slots pass.new ≡ (b.0, c) ∷ []) × (Self.shape c ≡ done v) };

    /// Calls the handler of the source whose run the pass holds with what its delivery hands over
    /// (dispatch_source_set_event_handler(3)).
    fn call_handler(board: &RowBoard<Self>, pass: &mut RowPass<Self>, s: Obj)
        requires pass { IsPassOf Self.shape Self.gives board.now pass.old }
        requires run { held_run (view pass.old) ≡ Some (Source s) }
        requires fresh { IsFresh Self.shape (view pass.old) (slots pass.old) }
        ensures pass { IsPassOf Self.shape Self.gives board.now pass.new }
        ensures view { view pass.new ≡ view pass.old }
        ensures served { (c : Self) × (kind : Kind) × (slots pass.new ≡ (slot_of (view pass.old).terms.plan (Source s), c) ∷ [])
            × (Self.shape c ≡ handler kind (delivery_count_of (view pass.old).seen s.0) (received_of (view pass.old).terms.plan (view pass.old).seen s.0)) };
}

impl<J: Job + Drop, H: Handler + Drop> RunCells for Cell<J, H> {
    #[inline(always)]
    fn run_body(board: &RowBoard<Cell<J, H>>, pass: &mut RowPass<Cell<J, H>>, b: Blk) {
        if pass.machine().is_cancelled(b) {
            board.give_done(pass, b, 0);
            return;
        }
        let job = board.take_body(pass, b);
        board.give_done(pass, b, job.run(0));
    }

    fn call_handler(board: &RowBoard<Cell<J, H>>, pass: &mut RowPass<Cell<J, H>>, s: Obj) {
        let value = pass.machine().data_of(s);
        // The row takes fewer than 2^32 events, so what the handler counts fits.
        let _most = board.most();
        let mut handler = board.take_handler(pass, s);
        handler.take(value);
        board.give_handler(pass, s, handler);
    }
}
