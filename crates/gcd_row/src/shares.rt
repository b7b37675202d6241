// Splitting and joining passes.
ghost use Rattle.std.specs.Prelude.{◌≡◌, ◌≢◌, ◌<◌, false, List, [], None};
ghost use Rattle.gcd_event.specs.declared.event.Event.{Event};
ghost use Rattle.gcd_machine.specs.Stands.{StandsFor};
ghost use Rattle.gcd_plan.specs.PlanView.{PlanView};
ghost use Rattle.gcd_history.specs.Team.{of_worker};
ghost use Rattle.gcd_row.specs.Passes.{IsPassOf, Merges, slots, terms_of, view};
ghost use Rattle.gcd_row.specs.Plays.{Compares};
ghost use Rattle.gcd_row.specs.Views.{standing_of, lending, newcomer, longer, hearing};

use crate::board::RowBoard;
use crate::cell::Slot;
use crate::pass::RowPass;
use crate::plays::{Compare, Cut, Fresh, Numbered, Tell};
use crate::view::View;
use atomic_table::Seat;
use gcd_machine::Machine;
use std::marker::Brand;
use std::mem;

// Becomes the machine of the longer of the two histories.
fn swap_farther(machine: &mut Machine, other: &mut Machine)
    ensures { (plan : PlanView) (g h : List Event) → StandsFor machine.old plan g → StandsFor other.old plan h → StandsFor machine.new plan (longer g h) }
{
    if machine.len() < other.len() {
        mem::swap(machine, other);
    }
}

// The same, with a machine that goes.
pub(crate) fn take_farther(machine: &mut Machine, mut other: Machine)
    ensures { (plan : PlanView) (g h : List Event) → StandsFor machine.old plan g → StandsFor other plan h → StandsFor machine.new plan (longer g h) }
{
    swap_farther(machine, &mut other);
}

impl<S: Slot> RowBoard<S> {
    // Splits off a seat for this worker.
    fn cut<N: Numbered>(&self, seat: &mut Seat<S, View<S>>, _worker: u8) -> Seat<S, View<S>>
        requires board { seat.old.table_id ≡ self.now.table.shared.table_id }
        requires head { (seat.old.me.0.spent ≡ false) × (seat.old.me.0.worker ≡ 0) }
        requires number { (_worker ≢ 0) × (_worker < self.now.table.shared.key.limits.workers) × (standing_of seat.old.me.0.hands _worker ≡ None) }
        requires picked { N.number ≡ _worker }
        ensures seat { (seat.new.table_id ≡ seat.old.table_id) × (seat.new.me ≡ (lending seat.old.me.0 _worker, seat.old.me.1)) }
        ensures new { (result.table_id ≡ seat.old.table_id) × (result.me ≡ (newcomer seat.old.me.0 _worker, [])) }
    {
        self.table.shared.split_seat::<Cut<N>>(seat)
    }

    /// Makes the pass of a worker. It has seen what worker 0's pass has seen, and has passed what the row began with. `pass` is worker 0's. The
    /// number is above 0 and below the board's number of workers, and was never given out on this board. `machine` stands for what worker 0's
    /// pass has seen.
    pub fn split(&self, pass: &mut RowPass<S>, worker: u8, machine: Machine) -> RowPass<S>
        requires pass { IsPassOf S.shape S.gives self.now pass.old }
        requires head { (view pass.old).worker ≡ 0 }
        requires number { (0 < worker) × (worker < (terms_of self.now).limits.workers) × (standing_of (view pass.old).hands worker ≡ None) }
        requires stands { StandsFor machine (view pass.old).terms.plan (view pass.old).seen }
        ensures pass { IsPassOf S.shape S.gives self.now pass.new }
        ensures slots { slots pass.new ≡ slots pass.old }
        ensures lent { view pass.new ≡ lending (view pass.old) worker }
        ensures new { IsPassOf S.shape S.gives self.now result × (view result ≡ newcomer (view pass.old) worker) }
        ensures none { of_worker worker (view result).seen ≡ [] }
    {
        self.table.shared.load::<Fresh>(&mut pass.seat, 0);
        let seat = self.cut::<Brand>(&mut pass.seat, worker);
        RowPass {
            seat,
            machine,
            number: worker,
            passed: u64::from(self.opened),
            floor: pass.floor,
            upto: pass.upto,
            beneath: pass.beneath,
        }
    }

    // Tells a pass what another has seen.
    fn tell(&self, pass: &mut RowPass<S>, other: &mut RowPass<S>)
        requires pass { IsPassOf S.shape S.gives self.now pass.old }
        requires other { IsPassOf S.shape S.gives self.now other.old }
        ensures pass { IsPassOf S.shape S.gives self.now pass.new × (slots pass.new ≡ slots pass.old) }
        ensures other { IsPassOf S.shape S.gives self.now other.new × (slots other.new ≡ slots other.old) }
        ensures relayed { view pass.new ≡ hearing (view pass.old) (view other.old) }
        ensures same { view other.new ≡ view other.old }
    {
        let note = self.table.shared.split_seat::<Tell>(&mut other.seat);
        self.table.shared.join_seat::<Tell>(&mut pass.seat, note);
    }

    // Compares what a pass has seen with what was relayed to it.
    fn compare(&self, pass: &mut RowPass<S>)
        requires { IsPassOf S.shape S.gives self.now pass.old }
        ensures pass { IsPassOf S.shape S.gives self.now pass.new × (slots pass.new ≡ slots pass.old) }
        ensures same { view pass.new ≡ view pass.old }
        ensures compared { Compares (view pass.old) }
    {
        self.table.shared.load::<Compare>(&mut pass.seat, 0);
    }

    /// Takes another pass into worker 0's, which has then seen the longer of the two histories; the shorter is its beginning. The
    /// other's passed word is gone before that, so it holds no event any more; its number is not given out again on this board, and
    /// what it had of a run goes to that run's slot. Conditions: worker 0's pass comes first, and both are of this board.
    pub fn join(&self, pass: &mut RowPass<S>, mut other: RowPass<S>)
        requires pass { IsPassOf S.shape S.gives self.now pass.old }
        requires other { IsPassOf S.shape S.gives self.now other }
        requires head { (view pass.old).worker ≡ 0 }
        ensures pass { IsPassOf S.shape S.gives self.now pass.new }
        ensures slots { slots pass.new ≡ slots pass.old }
        ensures view { Merges (view pass.old) (view other) (view pass.new) }
    {
        self.tell(pass, &mut other);
        self.tell(&mut other, pass);
        self.compare(pass);
        self.compare(&mut other);
        other.glue(self, pass);
    }
}
