// Taking and giving what lies in the slot of the run that a pass holds.
ghost use Rattle.std.specs.Prelude.{◌≡◌, ◌≢◌, ℕ, true, false, ◌∷◌, [], Some};
ghost use Rattle.gcd_history.specs.History.{delivery_count_of};
ghost use Rattle.gcd_plan.specs.PlanView.{kind_of};
ghost use Rattle.gcd_plan.specs.declared.numbers.Run.{Run};
ghost use Rattle.gcd_plan.specs.declared.numbers.Run.TheVariants.{Block, Source};
ghost use Rattle.gcd_row.specs.Jobs.{held_jobs};
ghost use Rattle.gcd_row.specs.Lying.{MayHold, IsUntaken, IsServed, slot_of};
ghost use Rattle.gcd_row.specs.Passes.{IsPassOf, slots, view};
ghost use Rattle.gcd_row.specs.Shapes.{shape_of, gives_of, MayGive};
ghost use Rattle.gcd_row.specs.Views.{held_run, knows_cancelled};
ghost use Rattle.gcd_row.specs.declared.cell.Cell.TheVariants.{Body, Done, Handler, Away};

use crate::board::RowBoard;
use crate::cell::{Cell, Slot};
use crate::pass::{Pass, RowPass};
use gcd_jobs::{Handler, Job};
use gcd_plan::{Blk, Obj};

impl<S: Slot> RowBoard<S> {
    // Changes the cell of the run that the pass holds.
    #[inline(always)]
    fn change(&self, pass: &mut RowPass<S>, slot: usize, cell: S) -> S
        requires pass { IsPassOf S.shape S.gives self.now pass.old }
        requires here { (c : S) × (slots pass.old ≡ (slot, c) ∷ []) }
        requires may { (r : Run) → held_run (view pass.old) ≡ Some r → MayHold S.shape S.gives (held_jobs (view pass.old)) (view pass.old).seen r cell }
        ensures pass { IsPassOf S.shape S.gives self.now pass.new }
        ensures view { view pass.new ≡ view pass.old }
        ensures machine { pass.new.machine ≡ pass.old.machine }
        ensures before { slots pass.old ≡ (slot, result) ∷ [] }
        ensures after { slots pass.new ≡ (slot, cell) ∷ [] }
    {
        self.table.shared.exchange(&mut pass.seat, slot, cell)
    }
}

impl<J: Job + Drop, H: Handler + Drop> RowBoard<Cell<J, H>> {
    /// Takes the body of the block whose run the pass holds, to run it; the slot is then `Away`. Conditions: the block is open
    /// and not parked, its last Start or Wake is the pass's own, it is not cancelled (dispatch_block_cancel(3)), and its body is in
    /// the slot. The body may give only what the block's job may: the one that was handed in for it, and of a block of the intake what
    /// lay in its slot at its Start.
    #[inline(always)]
    pub fn take_body(&self, pass: &mut Pass<J, H>, b: Blk) -> J
        requires pass { IsPassOf (shape_of H.kind H.times H.total) (gives_of J.gives) self.now pass.old }
        requires run { held_run (view pass.old) ≡ Some (Block b) }
        requires uncancelled { knows_cancelled (view pass.old) b.0 ≡ false }
        requires body { (job : J) × (slots pass.old ≡ (b.0, Body job) ∷ []) }
        ensures pass { IsPassOf (shape_of H.kind H.times H.total) (gives_of J.gives) self.now pass.new }
        ensures view { view pass.new ≡ view pass.old }
        ensures body { slots pass.old ≡ (b.0, Body result) ∷ [] }
        ensures away { slots pass.new ≡ (b.0, Away) ∷ [] }
        ensures gives { (v : ℕ) → J.gives result 0 v → MayGive J.gives (held_jobs (view pass.old)) b.0 v }
    {
        match self.change(pass, b.0 as usize, Cell::Away) {
            Cell::Body(job) => job,
            _ => unreachable!(),
        }
    }

    /// Gives the body of a block back into its slot, before an act that parks it. Conditions: the pass holds the block's run, its
    /// slot is `Away`, and the body may give only what the block's job may.
    #[inline(always)]
    pub fn give_body(&self, pass: &mut Pass<J, H>, b: Blk, job: J)
        requires pass { IsPassOf (shape_of H.kind H.times H.total) (gives_of J.gives) self.now pass.old }
        requires run { held_run (view pass.old) ≡ Some (Block b) }
        requires away { slots pass.old ≡ (b.0, Away) ∷ [] }
        requires gives { (v : ℕ) → J.gives job 0 v → MayGive J.gives (held_jobs (view pass.old)) b.0 v }
        ensures pass { IsPassOf (shape_of H.kind H.times H.total) (gives_of J.gives) self.now pass.new }
        ensures view { view pass.new ≡ view pass.old }
        ensures body { slots pass.new ≡ (b.0, Body job) ∷ [] }
    {
        let _away = self.change(pass, b.0 as usize, Cell::Body(job));
    }

    /// Gives the value that a block's body gave into its slot, before the block's End. Conditions: the pass holds the block's run;
    /// of a block that is not cancelled the slot is `Away`, and the block's job may give the value at 0; of a cancelled block
    /// (dispatch_block_cancel(3)) its body is in the slot, and the value is 0. The body of a cancelled block is dropped: it has not
    /// run, and never will.
    #[inline(always)]
    pub fn give_done(&self, pass: &mut Pass<J, H>, b: Blk, value: u64)
        requires pass { IsPassOf (shape_of H.kind H.times H.total) (gives_of J.gives) self.now pass.old }
        requires run { held_run (view pass.old) ≡ Some (Block b) }
        requires away { knows_cancelled (view pass.old) b.0 ≡ false → slots pass.old ≡ (b.0, Away) ∷ [] }
        requires gives { knows_cancelled (view pass.old) b.0 ≡ false → MayGive J.gives (held_jobs (view pass.old)) b.0 value }
        requires body { knows_cancelled (view pass.old) b.0 ≡ true → (job : J) × (slots pass.old ≡ (b.0, Body job) ∷ []) }
        requires zero { knows_cancelled (view pass.old) b.0 ≡ true → value ≡ 0 }
        ensures pass { IsPassOf (shape_of H.kind H.times H.total) (gives_of J.gives) self.now pass.new }
        ensures view { view pass.new ≡ view pass.old }
        ensures done { slots pass.new ≡ (b.0, Done value) ∷ [] }
    {
        let _before = self.change(pass, b.0 as usize, Cell::Done(value));
    }

    /// Takes the handler of the source whose run the pass holds, to call it; the slot is then `Away`. Conditions: the pass's own
    /// Deliver is the source's last, its run is open, and the handler is in the slot and was not called in this run yet. The
    /// handler has taken each Deliver of the source before this run's and no other: its total is what these handed over, in one,
    /// by the source's kind: joined bit by bit, the newest, or added.
    pub fn take_handler(&self, pass: &mut Pass<J, H>, s: Obj) -> H
        requires pass { IsPassOf (shape_of H.kind H.times H.total) (gives_of J.gives) self.now pass.old }
        requires run { held_run (view pass.old) ≡ Some (Source s) }
        requires handler { (h : H) × (slots pass.old ≡ (slot_of (view pass.old).terms.plan (Source s), Handler h) ∷ []) × (H.times h ≢ delivery_count_of (view pass.old).seen s.0) }
        ensures pass { IsPassOf (shape_of H.kind H.times H.total) (gives_of J.gives) self.now pass.new }
        ensures view { view pass.new ≡ view pass.old }
        ensures handler { slots pass.old ≡ (slot_of (view pass.old).terms.plan (Source s), Handler result) ∷ [] }
        ensures away { slots pass.new ≡ (slot_of (view pass.old).terms.plan (Source s), Away) ∷ [] }
        ensures kind { kind_of (view pass.old).terms.plan s.0 ≡ Some (H.kind result) }
        ensures untaken { IsUntaken (view pass.old).terms.plan (view pass.old).seen s.0 (H.times result) (H.total result) }
    {
        let slot = source_slot(pass, s);
        match self.change(pass, slot, Cell::Away) {
            Cell::Handler(handler) => handler,
            _ => unreachable!(),
        }
    }

    /// Gives the handler of a source back into its slot, before the DeliverEnd. Conditions: the pass holds the source's run, the
    /// slot is `Away`, and the handler is of the source's kind, with the times and the total of all Delivers of the source, this
    /// run's among them.
    pub fn give_handler(&self, pass: &mut Pass<J, H>, s: Obj, handler: H)
        requires pass { IsPassOf (shape_of H.kind H.times H.total) (gives_of J.gives) self.now pass.old }
        requires run { held_run (view pass.old) ≡ Some (Source s) }
        requires away { slots pass.old ≡ (slot_of (view pass.old).terms.plan (Source s), Away) ∷ [] }
        requires kind { kind_of (view pass.old).terms.plan s.0 ≡ Some (H.kind handler) }
        requires served { IsServed (view pass.old).terms.plan (view pass.old).seen s.0 (H.times handler) (H.total handler) }
        ensures pass { IsPassOf (shape_of H.kind H.times H.total) (gives_of J.gives) self.now pass.new }
        ensures view { view pass.new ≡ view pass.old }
        ensures handler { slots pass.new ≡ (slot_of (view pass.old).terms.plan (Source s), Handler handler) ∷ [] }
    {
        let slot = source_slot(pass, s);
        let _away = self.change(pass, slot, Cell::Handler(handler));
    }
}

// The slot of a source's run.
fn source_slot<S>(pass: &RowPass<S>, s: Obj) -> usize
    ensures { result ≡ slot_of pass.now.machine.plan (Source s) }
{
    pass.machine.blocks() as usize + s.0 as usize
}
