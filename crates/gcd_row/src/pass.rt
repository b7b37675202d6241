// What one worker has of a board.
ghost use Rattle.std.specs.Prelude.{◌≡◌, ◌≢◌, ℕ, ◌<◌, ◌≤◌, ◌+◌, ◌-◌, take, length, vec_capacity, IfOk, IfErr, Some};
ghost use Rattle.gcd_machine.specs.Stands.{StandsFor};

use crate::board::RowBoard;
use crate::cell::{Cell, Slot};
use crate::closing::take_all;
use crate::plays::{Down, Glue};
use crate::shares::take_farther;
use crate::steps::{cell_of, entry_of};
use crate::view::View;
use atomic_table::Seat;
use gcd_event::Entry;
use gcd_machine::Machine;
use std::alloc::Global;

/// What one worker has of a board: what it has seen of the row, with a machine that stands for that, and the slot of the run
/// that the worker holds. It may go to a thread of its own.
pub struct RowPass<S> {
    pub(crate) seat: Seat<S, View<S>>,
    pub(crate) machine: Machine,
    pub(crate) number: u8,
    // Its passed word.
    pub(crate) passed: u64,
    // The passed words of workers below `upto` are at least this.
    pub(crate) floor: u64,
    pub(crate) upto: u8,
    // What the last look found in the cell of the next event, while no more was seen.
    pub(crate) beneath: Option<u64>,
}

// One call drops all that a pass has: so a crate that drops passes proves nothing of their parts.
impl<S> Drop for RowPass<S> {
    fn drop(self) {
        let RowPass {
            seat: _,
            machine: _,
            number: _,
            passed: _,
            floor: _,
            upto: _,
            beneath: _,
        } = self;
    }
}

/// A pass of a board of jobs and handlers.
pub type Pass<J, H> = RowPass<Cell<J, H>>;

impl<S> RowPass<S> {
    ghost use Rattle.gcd_row.specs.Passes.{machine_of, worker_number};

    /// The machine, which stands for what the pass has seen.
    pub fn machine(&self) -> &Machine
        ensures { result.now ≡ machine_of self.now }
    {
        &self.machine
    }

    /// The number of its worker, 0 to 63.
    pub fn worker(&self) -> u8
        ensures { result ≡ worker_number self.now }
    {
        self.number
    }
}

impl<S: Slot> RowPass<S> {
    ghost use Rattle.gcd_row.specs.Passes.{IsPassOf, Ahead, slots, view};
    ghost use Rattle.gcd_row.specs.Views.{longer, merging};

    // Goes into another pass, which takes the longer of the two histories, with its machine.
    pub(crate) fn glue(self, board: &RowBoard<S>, pass: &mut RowPass<S>)
        requires pass { IsPassOf S.shape S.gives board.now pass.old }
        requires other { IsPassOf S.shape S.gives board.now self }
        requires head { (view pass.old).worker ≡ 0 }
        requires ahead { Ahead (view pass.old) (longer (view pass.old).seen (view self).seen) }
        ensures pass { IsPassOf S.shape S.gives board.now pass.new }
        ensures slots { slots pass.new ≡ slots pass.old }
        ensures view { view pass.new ≡ merging (view pass.old) (view self) }
    {
        let RowPass {
            mut seat,
            machine,
            number,
            passed: _,
            floor: _,
            upto: _,
            beneath: _,
        } = self;
        board.table.shared.load::<Down>(&mut seat, 0);
        board.leave(&mut seat, number);
        board.table.shared.join_seat::<Glue>(&mut pass.seat, seat);
        pass.beneath = None;
        take_farther(&mut pass.machine, machine);
    }
}

impl<S: Slot + Drop> RowPass<S> {
    ghost use Rattle.gcd_row.specs.Closing.{IsWholeRow};
    ghost use Rattle.gcd_row.specs.Jobs.{placed_jobs};
    ghost use Rattle.gcd_row.specs.Passes.{IsPassOf, IsGathered, AtRest, view};
    ghost use Rattle.gcd_row.specs.Views.{standing_of};
    ghost use Rattle.gcd_row.specs.declared.view.Standing.TheVariants.{Out};

    // Closes its board, as the last of the board's passes, and adds to the journal what was not gathered.
    pub(crate) fn close_board(
        self,
        alloc: Global,
        board: RowBoard<S>,
        mut journal: Vec<Entry>,
    ) -> Result<(Vec<Entry>, Vec<S>, Machine), (RowBoard<S>, RowPass<S>, Vec<Entry>)>
        requires pass { IsPassOf S.shape S.gives board self }
        requires head { (view self).worker ≡ 0 }
        requires all_in { (w : ℕ) → standing_of (view self).hands w ≢ Some Out }
        requires journal { IsGathered (view self) journal.items }
        ensures events { IfOk result (λ r. r.0.items ≡ (view self).seen) }
        ensures whole { IfOk result (λ r. IsWholeRow S.shape S.gives board self r.0.items) }
        ensures cells { IfOk result (λ r. AtRest S.shape S.gives (placed_jobs (view self)) (view self).seen r.1.items) }
        ensures machine { IfOk result (λ r. StandsFor r.2 (view self).terms.plan (view self).seen) }
        ensures err { IfErr result (λ r. (r.0 ≡ board) × (r.1 ≡ self) × (r.2.items ≡ journal.items)) }
    {
        let n = self.machine.len();
        let first = self.passed as u32;
        if journal.reserve((n - first) as usize).is_err() {
            return Err((board, self, journal));
        }
        let Ok(cells) = Vec::with_capacity(alloc, board.table.slot_count()) else {
            return Err((board, self, journal));
        };
        let RowBoard {
            table,
            limits: _,
            opened: _,
        } = board;
        let RowPass {
            seat,
            machine,
            number: _,
            passed: _,
            floor: _,
            upto: _,
            beneath: _,
        } = self;
        let closed = table.close_with(seat);
        let mut i = first;
        while i < n {
            journal.push_reserved(entry_of(i, closed.word(cell_of(i))));
            i += 1;
        }
        Ok((journal, take_all(closed, cells), machine))
    }
}
