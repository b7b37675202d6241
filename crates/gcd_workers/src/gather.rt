// The run of a team, and what its passes have seen at the end.
ghost use Rattle.std.specs.Prelude.{◌≡◌, ◌<◌, ◌≤◌, ◌∷◌, [], ℕ, List, false, IfOk, length, slice_index_or};
ghost use Rattle.gcd_event.specs.declared.event.Event.{Event};
ghost use Rattle.gcd_plan.specs.Limits.{max_workers};
ghost use Rattle.gcd_history.specs.Ends.{HasEnded};
ghost use Rattle.gcd_row.specs.Passes.{IsGathered, IsPassOf, terms_of, view};
ghost use Rattle.gcd_row.specs.Shapes.{gives_of, shape_of};
ghost use Rattle.gcd_row.specs.declared.cell.Cell.{Cell};
ghost use Rattle.gcd_row.specs.declared.view.Standing.TheVariants.{Back};
ghost use Rattle.gcd_front.specs.Fronts.{IsIntakeOf};
ghost use Rattle.gcd_front.specs.Limits.{max_senders};
ghost use Rattle.gcd_pool.specs.Admitted.{Admitted};
ghost use Rattle.gcd_outer.specs.Outside.{seen};
ghost use Rattle.gcd_turn.specs.Asked.{KeepsListens};
ghost use Rattle.gcd_turn.specs.Outsides.{IsSame, faced};
ghost use Rattle.gcd_pool.specs.declared.hand.Hand.{Hand};
ghost use Rattle.gcd_workers.specs.Teams.{EachFrom, FollowsOn, Grew, HasLed, IsHead, IsPassAt, IsTeam, RunsTeam, WentOn};

use crate::team::Team;
use gcd_event::Entry;
use gcd_front::{Front, Intake, Sent};
use gcd_jobs::{Admits, Handler, Job};
use gcd_outer::{Clock, Poller};
use gcd_pool::{Hand, PoolFault, pool_run};
use gcd_row::{Cell, Pass, RowBoard, RowPass, Slot};
use gcd_turn::Outside;
use std::sync::Wait;
use std::thread::Threads;

// Joins a hand's pass into worker 0's, which has seen everything already and stays gathered as it was.
fn take_in<S: Slot>(board: &RowBoard<S>, pass: &mut RowPass<S>, hand: Hand<S>)
    requires pass { IsPassOf S.shape S.gives board.now pass.old }
    requires hand { IsPassOf S.shape S.gives board.now hand.pass }
    requires worker { (view pass.old).worker ≡ 0 }
    requires ended { HasEnded (terms_of board.now).limits.most (terms_of board.now).plan (view pass.old).seen }
    ensures pass { IsPassOf S.shape S.gives board.now pass.new }
    ensures worker { (view pass.new).worker ≡ 0 }
    ensures seen { (view pass.new).seen ≡ (view pass.old).seen }
    ensures handed { (view pass.new).handed ≡ (view pass.old).handed }
    ensures hands { (view pass.new).hands ≡ ((view hand.pass).worker, Back) ∷ (view pass.old).hands }
    ensures gathered { (journal : List Event) → IsGathered (view pass.old) journal → IsGathered (view pass.new) journal }
{
    let Hand {
        pass: other,
        bench: _,
        journal: _,
    } = hand;
    board.join(pass, other);
}

// Joins the passes of all hands into worker 0's, the first. Returns that pass and the events that were gathered of it.
fn take_all<S: Slot>(board: &RowBoard<S>, mut hands: Vec<Hand<S>>) -> (RowPass<S>, Vec<Entry>)
    requires some { 0 < length hands.items }
    requires hands { EachFrom (IsPassAt S.shape S.gives board.now) 0 hands.items }
    requires head { (d : Hand S) → IsHead 1 (length hands.items) (view (slice_index_or hands.items 0 d).pass) }
    requires ended { (d : Hand S) → HasEnded (terms_of board.now).limits.most (terms_of board.now).plan (view (slice_index_or hands.items 0 d).pass).seen }
    requires gathered { (d : Hand S) → IsGathered (view (slice_index_or hands.items 0 d).pass) (slice_index_or hands.items 0 d).journal.items }
    ensures pass { IsPassOf S.shape S.gives board.now result.0 }
    ensures head { IsHead (length hands.items) (length hands.items) (view result.0) }
    ensures seen { (d : Hand S) → (view result.0).seen ≡ (view (slice_index_or hands.items 0 d).pass).seen }
    ensures handed { (d : Hand S) → (view result.0).handed ≡ (view (slice_index_or hands.items 0 d).pass).handed }
    ensures gathered { IsGathered (view result.0) result.1.items }
{
    let Hand {
        mut pass,
        bench: _,
        journal,
    } = hands.remove(0);
    for hand in hands {
        take_in(board, &mut pass, hand);
    }
    (pass, journal)
}

// Looks at the row once more. This shows that it has no event of a number that was never given out.
fn look_round<S: Slot>(board: &RowBoard<S>, pass: &mut RowPass<S>)
    requires pass { IsPassOf S.shape S.gives board.now pass.old }
    requires worker { (view pass.old).worker ≡ 0 }
    requires ended { HasEnded (terms_of board.now).limits.most (terms_of board.now).plan (view pass.old).seen }
    ensures pass { IsPassOf S.shape S.gives board.now pass.new }
    ensures seen { (view pass.new).seen ≡ (view pass.old).seen }
    ensures handed { (view pass.new).handed ≡ (view pass.old).handed }
    ensures led { (workers : ℕ) → 0 < workers → IsHead workers workers (view pass.old) → HasLed workers (view pass.new) }
    ensures gathered { (journal : List Event) → IsGathered (view pass.old) journal → IsGathered (view pass.new) journal }
{
    board.look(pass);
}

impl<J: Job + Drop + Send, H: Handler + Drop + Send> Team<'_, '_, Cell<J, H>> {
    /// Runs a team whose row has no event yet until the run is quiescent, halted or full. Nothing was taken from `intake`, which belongs to
    /// `front`. The blocks of the plan's intake run what the senders of the front send meanwhile. A front without senders has no callers.
    ///
    /// The pass that it leaves has seen the whole row. That history promises what a run of any engine does (`RunsPlan`), up to the board's
    /// limit of events, and which jobs the blocks of each sender ran (`Admitted`). No other pass is out, and the journal beside the pass is
    /// what was gathered of it, so the board may be closed with both. The poller watches no feed yet. Returns `Err` if worker 0, which
    /// gathers what it has seen, is refused memory, or if the system makes no thread for a worker on whom another waits. Blocks may have
    /// run then. All threads have ended, nothing is left of the run, and the poller listens where it did (`kept`).
    pub fn run<X: Sent + Drop + Send, R: Threads + Wait + Sync, P: Poller, C: Clock>(
        self,
        rt: &R,
        front: &Front<X>,
        intake: &mut Intake<X>,
        poller: &mut P,
        clock: &mut C,
    ) -> Result<(Pass<J, H>, Vec<Entry>), PoolFault>
    where
        J: Admits<X>,
        requires some { (0 < length self.hands.items) × (length self.hands.items ≤ max_workers) }
        requires team { IsTeam (shape_of H.kind H.times H.total) (gives_of J.gives) self }
        requires first { (d : Hand (Cell J H)) → (view (slice_index_or self.hands.items 0 d).pass).seen ≡ [] }
        requires few { front.now.senders ≤ max_senders }
        requires intake { IsIntakeOf front.now intake.old }
        requires untaken { intake.old.taken ≡ [] }
        requires unwatched { (feed : ℕ) → (P.state poller.old).watched feed ≡ false }
        ensures pass { IfOk result (λ r. IsPassOf (shape_of H.kind H.times H.total) (gives_of J.gives) self.entry.pool.now.board.now r.0) }
        ensures led { IfOk result (λ r. HasLed (length self.entry.hands.items) (view r.0)) }
        ensures gathered { IfOk result (λ r. IsGathered (view r.0) r.1.items) }
        ensures ran { IfOk result (λ r. RunsTeam self.entry front.now.senders (seen P.tells P.state poller.old poller.new)
            (seen C.tells C.state clock.old clock.new) (view r.0).seen) }
        ensures admitted { IfOk result (λ r. Admitted (gives_of J.gives) X.gives front.now (view r.0) intake.new) }
        ensures intake { IfOk result (λ _. IsIntakeOf front.now intake.new) }
        ensures kept { KeepsListens P.tells (P.state poller.old) (P.state poller.new) }
    {
        let mut outside = Outside::new(poller, clock);
        match self.go_on(rt, front, intake, &mut outside) {
            Ok(left) => Ok(left),
            Err(fault) => Err(fault),
        }
    }

    /// Runs a team whose row begins with a history, as [`Team::run`] does. `outside` is that of this history: it keeps what was told and
    /// not recorded, and the moment at which the run began. What poller and clock said since the row began stands in what came since
    /// (`going`), so the run that left the history and this one are one ([`gcd_loop::laws::two_runs_are_one`]). A team of one goes on by
    /// the choice of worker 0 (`follows`). What was taken of outside callers before, the history has accepted (`admitted`).
    pub fn go_on<X: Sent + Drop + Send, R: Threads + Wait + Sync, P: Poller, C: Clock>(
        mut self,
        rt: &R,
        front: &Front<X>,
        intake: &mut Intake<X>,
        outside: &mut Outside<P, C>,
    ) -> Result<(Pass<J, H>, Vec<Entry>), PoolFault>
    where
        J: Admits<X>,
        requires some { (0 < length self.hands.items) × (length self.hands.items ≤ max_workers) }
        requires team { IsTeam (shape_of H.kind H.times H.total) (gives_of J.gives) self }
        requires few { front.now.senders ≤ max_senders }
        requires intake { IsIntakeOf front.now intake.old }
        requires admitted { (d : Hand (Cell J H)) → Admitted (gives_of J.gives) X.gives front.now (view (slice_index_or self.hands.items 0 d).pass) intake.old }
        ensures pass { IfOk result (λ r. IsPassOf (shape_of H.kind H.times H.total) (gives_of J.gives) self.entry.pool.now.board.now r.0) }
        ensures led { IfOk result (λ r. HasLed (length self.entry.hands.items) (view r.0)) }
        ensures gathered { IfOk result (λ r. IsGathered (view r.0) r.1.items) }
        ensures grows { IfOk result (λ r. Grew self.entry (view r.0).seen) }
        ensures going { IfOk result (λ r. WentOn self.entry (view r.0).seen (faced P.tells C.tells P.state C.state outside.old outside.new)) }
        ensures follows { IfOk result (λ r. FollowsOn self.entry (view r.0).seen) }
        ensures admitted { IfOk result (λ r. Admitted (gives_of J.gives) X.gives front.now (view r.0) intake.new) }
        ensures intake { IfOk result (λ _. IsIntakeOf front.now intake.new) }
        ensures same { IsSame outside.old outside.new }
        ensures kept { KeepsListens P.tells (P.state outside.old.poller.now) (P.state outside.new.poller.now) }
    {
        let pool = self.pool;
        match pool_run(rt, pool, &mut self.hands, front, intake, outside) {
            Ok(_) => {
                let (mut pass, journal) = take_all(pool.board, self.hands);
                look_round(pool.board, &mut pass);
                Ok((pass, journal))
            }
            Err(fault) => Err(fault),
        }
    }
}
