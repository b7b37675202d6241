// Laying a job of an outside caller into the slot of the intake's next block.
ghost use Rattle.std.specs.Prelude.{◌≡◌, ℕ, Some};
ghost use Rattle.gcd_history.specs.History.{next_of_intake};
ghost use Rattle.gcd_row.specs.Passes.{IsPassOf, slots, view};
ghost use Rattle.gcd_row.specs.Views.{turning};
ghost use Rattle.gcd_row.specs.declared.view.Next.TheVariants.{Laid};

use crate::run_cells::RunCells;
use gcd_front::Sent;
use gcd_jobs::{Admits, Handler, Job};
use gcd_plan::Blk;
use gcd_row::{Cell, RowBoard, RowPass};

/// Cells into which a job goes that an outside caller sent.
pub trait AdmitCells<X: Sent>: RunCells {
    /// Lays the job into the slot of the intake's next block, and drops what lay there.
    fn lay(board: &RowBoard<Self>, pass: &mut RowPass<Self>, b: Blk, sent: X)
        requires pass { IsPassOf Self.shape Self.gives board.now pass.old }
        requires head { (view pass.old).worker ≡ 0 }
        requires next { next_of_intake (view pass.old).terms.plan (view pass.old).seen ≡ Some b }
        ensures pass { IsPassOf Self.shape Self.gives board.now pass.new }
        ensures slots { slots pass.new ≡ slots pass.old }
        ensures machine { pass.new.machine ≡ pass.old.machine }
        ensures laid { (c : Self) × (view pass.new ≡ turning (view pass.old) (Laid c)) × ((n : ℕ) → Self.gives c n → X.gives sent n) };
}

impl<J: Job + Admits<X> + Drop, H: Handler + Drop, X: Sent> AdmitCells<X> for Cell<J, H> {
    fn lay(board: &RowBoard<Cell<J, H>>, pass: &mut RowPass<Cell<J, H>>, b: Blk, sent: X) {
        let _before = board.place_body(pass, b, J::admit(sent));
    }
}
