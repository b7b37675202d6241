// Closing a board.
ghost use Rattle.std.specs.Prelude.{◌≡◌, ◌≢◌, ℕ, ◌≤◌, [], length, vec_capacity, IfOk, IfErr, Some};
ghost use Rattle.std.specs.Mem.Slots.{slots_items, slots_len, IsFull};
ghost use Rattle.gcd_machine.specs.Stands.{StandsFor};
ghost use Rattle.gcd_row.specs.Closing.{IsWholeRow};
ghost use Rattle.gcd_row.specs.Jobs.{placed_jobs};
ghost use Rattle.gcd_row.specs.Passes.{IsPassOf, IsGathered, AtRest, view};
ghost use Rattle.gcd_row.specs.Views.{standing_of};
ghost use Rattle.gcd_row.specs.declared.view.Standing.TheVariants.{Out};

use crate::board::RowBoard;
use crate::cell::Slot;
use crate::pass::RowPass;
use atomic_table::Closed;
use gcd_event::Entry;
use gcd_machine::Machine;
use std::alloc::Global;

// The values of the slots, in their order.
pub(crate) fn take_all<S>(mut closed: Closed<S, Global>, mut cells: Vec<S>) -> Vec<S>
    requires full { IsFull closed.slots }
    requires room { (cells.items ≡ []) × (slots_len closed.slots ≤ vec_capacity cells) }
    ensures { result.items ≡ slots_items closed.slots }
{
    for k in 0..closed.slot_count() {
        cells.push_reserved(closed.take(k));
    }
    closed.free();
    cells
}

impl<S: Slot + Drop> RowBoard<S> {
    /// The whole history, and the cells: those of the blocks, by number, and behind them one for each object, which is `Away`
    /// where the object is no source. Worker 0's pass has to be given, with all others joined into it, and so it has seen the
    /// whole row; and the journal of what it has gathered, to which the rest is added. A cell is the body of a block that has not
    /// started or is parked, the value of one that has ended, the handler of a source without an open run; that of a run which is
    /// open and not parked may be anything. An `Err` comes only where memory runs out, and then board and pass come back as they
    /// were, and the journal with its events.
    pub fn close(
        self,
        alloc: Global,
        pass: RowPass<S>,
        journal: Vec<Entry>,
    ) -> Result<(Vec<Entry>, Vec<S>), (RowBoard<S>, RowPass<S>, Vec<Entry>)>
        requires pass { IsPassOf S.shape S.gives self pass }
        requires head { (view pass).worker ≡ 0 }
        requires all_in { (w : ℕ) → standing_of (view pass).hands w ≢ Some Out }
        requires journal { IsGathered (view pass) journal.items }
        ensures events { IfOk result (λ r. r.0.items ≡ (view pass).seen) }
        ensures whole { IfOk result (λ r. IsWholeRow S.shape S.gives self pass r.0.items) }
        ensures cells { IfOk result (λ r. AtRest S.shape S.gives (placed_jobs (view pass)) (view pass).seen r.1.items) }
        ensures err { IfErr result (λ r. (r.0 ≡ self) × (r.1 ≡ pass) × (r.2.items ≡ journal.items)) }
    {
        match self.close_whole(alloc, pass, journal) {
            Ok((events, cells, _)) => Ok((events, cells)),
            Err(back) => Err(back),
        }
    }

    /// The same, and the pass's machine, which stands for the whole history.
    pub fn close_whole(
        self,
        alloc: Global,
        pass: RowPass<S>,
        journal: Vec<Entry>,
    ) -> Result<(Vec<Entry>, Vec<S>, Machine), (RowBoard<S>, RowPass<S>, Vec<Entry>)>
        requires pass { IsPassOf S.shape S.gives self pass }
        requires head { (view pass).worker ≡ 0 }
        requires all_in { (w : ℕ) → standing_of (view pass).hands w ≢ Some Out }
        requires journal { IsGathered (view pass) journal.items }
        ensures events { IfOk result (λ r. r.0.items ≡ (view pass).seen) }
        ensures whole { IfOk result (λ r. IsWholeRow S.shape S.gives self pass r.0.items) }
        ensures cells { IfOk result (λ r. AtRest S.shape S.gives (placed_jobs (view pass)) (view pass).seen r.1.items) }
        ensures machine { IfOk result (λ r. StandsFor r.2 (view pass).terms.plan (view pass).seen) }
        ensures err { IfErr result (λ r. (r.0 ≡ self) × (r.1 ≡ pass) × (r.2.items ≡ journal.items)) }
    {
        pass.close_board(alloc, self, journal)
    }
}
