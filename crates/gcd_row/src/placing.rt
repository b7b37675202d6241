// Laying a body into the slot of the intake's next block.
ghost use Rattle.std.specs.Prelude.{◌≡◌, Some, ◌∷◌};
ghost use Rattle.gcd_history.specs.History.{next_of_intake};
ghost use Rattle.gcd_row.specs.Passes.{IsPassOf, slots, view};
ghost use Rattle.gcd_row.specs.Plays.{IsLaid};
ghost use Rattle.gcd_row.specs.Shapes.{body, shape_of, gives_of};
ghost use Rattle.gcd_row.specs.Views.{turning};
ghost use Rattle.gcd_row.specs.declared.cell.Cell.TheVariants.{Body};
ghost use Rattle.gcd_row.specs.declared.view.Next.TheVariants.{Laid};

use crate::board::RowBoard;
use crate::cell::{Cell, Slot};
use crate::pass::{Pass, RowPass};
use crate::plays::{Lay, Reach};
use gcd_jobs::{Handler, Job};
use gcd_plan::Blk;

impl<S: Slot> RowBoard<S> {
    // Lays a body into the slot of the next block, and gives what lay there. Nobody but worker 0 takes that slot before the block's
    // Accept: so worker 0 takes it by one load and lays it down by another, and has one slot at most between two calls.
    fn lay(&self, pass: &mut RowPass<S>, b: Blk, cell: S) -> S
        requires pass { IsPassOf S.shape S.gives self.now pass.old }
        requires head { (view pass.old).worker ≡ 0 }
        requires next { next_of_intake (view pass.old).terms.plan (view pass.old).seen ≡ Some b }
        requires body { S.shape cell ≡ body }
        ensures pass { IsPassOf S.shape S.gives self.now pass.new }
        ensures slots { slots pass.new ≡ slots pass.old }
        ensures view { view pass.new ≡ turning (view pass.old) (Laid cell) }
        ensures machine { pass.new.machine ≡ pass.old.machine }
        ensures body { S.shape result ≡ body }
        ensures before { IsLaid (view pass.old).handed.next result }
    {
        let shared = &self.table.shared;
        shared.load::<Reach>(&mut pass.seat, 0);
        let before = shared.exchange(&mut pass.seat, b.0 as usize, cell);
        shared.load::<Lay>(&mut pass.seat, 0);
        before
    }
}

impl<J: Job + Drop, H: Handler + Drop> RowBoard<Cell<J, H>> {
    /// Lays a job into the slot of the block of the intake that is accepted next, as its body, and gives back the body that lay
    /// there: where one was laid there before, the last of these. Conditions: worker 0's pass is given, and the block is the next of
    /// the intake by what that pass has seen.
    ///
    /// With the block's Accept the body that was laid there last becomes the block's job; before it nobody runs one. Nothing else
    /// changes: the pass may go on in any way before the Accept, and lay another job there, also where the Accept was barred or held.
    /// It costs two loads.
    pub fn place_body(&self, pass: &mut Pass<J, H>, b: Blk, job: J) -> J
        requires pass { IsPassOf (shape_of H.kind H.times H.total) (gives_of J.gives) self.now pass.old }
        requires head { (view pass.old).worker ≡ 0 }
        requires next { next_of_intake (view pass.old).terms.plan (view pass.old).seen ≡ Some b }
        ensures pass { IsPassOf (shape_of H.kind H.times H.total) (gives_of J.gives) self.now pass.new }
        ensures slots { slots pass.new ≡ slots pass.old }
        ensures laid { view pass.new ≡ turning (view pass.old) (Laid (Body job)) }
        ensures machine { pass.new.machine ≡ pass.old.machine }
        ensures before { IsLaid (view pass.old).handed.next (Body result) }
    {
        match self.lay(pass, b, Cell::Body(job)) {
            Cell::Body(before) => before,
            _ => unreachable!(),
        }
    }
}
