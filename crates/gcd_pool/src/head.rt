// Worker 0 of a pool, which alone has poller and clock, and the intake of the jobs of outside callers.
ghost use Rattle.std.specs.Prelude.{◌≡◌, ◌≤◌, true, false, ℕ, Some, None, IfOk, OnOk};
ghost use Rattle.gcd_history.specs.History.{is_intake_open, next_of_intake};
ghost use Rattle.gcd_loop.specs.Recorded.{Admits};
ghost use Rattle.gcd_front.specs.Fronts.{IsIntakeOf};
ghost use Rattle.gcd_front.specs.Limits.{max_senders};
ghost use Rattle.gcd_plan.specs.PlanView.{PlanView};
ghost use Rattle.gcd_row.specs.Passes.{view};
ghost use Rattle.gcd_turn.specs.Turns.{HasRoom};
ghost use Rattle.gcd_pool.specs.Admitted.{Admitted, IsAccepted, IsLeading};
ghost use Rattle.gcd_pool.specs.Hands.{IsReady, Serving};
ghost use Rattle.gcd_pool.specs.Leads.{IsHead, Leads, Led, bounds_of};
ghost use Rattle.gcd_pool.specs.declared.hand.Hand.{Hand};

use crate::admit_cells::AdmitCells;
use crate::hand::{Hand, Pool};
use crate::head_idle::HeadIdle;
use crate::lead::{gather_all, lead_any, put_on, step_of};
use crate::putting::pass_many;
use crate::serve::serve_to_the_end;
use crate::team::Leader;
use gcd_event::Event;
use gcd_front::{Front, Intake, Sent};
use gcd_loop::{Recorder, Step, Stop, run_turns};
use gcd_machine::Machine;
use gcd_outer::{Clock, Poller};
use gcd_plan::{Blk, Plan};
use gcd_row::{Put, Slot};
use gcd_turn::Outside;
use std::alloc::AllocError;
use std::sync::Wait;

// Lays the job that was taken last, of this sender, into the slot of the intake's next block, and puts its Accept. If that is barred the run
// is halted, and if there is no room the run is full. The job is dropped with the row then.
fn accept<S: AdmitCells<X>, X: Sent + Drop, R: Wait>(
    rt: &R,
    pool: &Pool<S>,
    hand: &mut Hand<S>,
    b: Blk,
    sender: u8,
    job: X,
) -> Result<Option<Put>, AllocError>
    requires head { IsHead S.shape S.gives pool.now hand.old }
    requires next { next_of_intake pool.now.plan.now (view hand.old.pass).seen ≡ Some b }
    ensures head { OnOk result (IsHead S.shape S.gives pool.now hand.new) }
    ensures accepted { IfOk result (IsAccepted S.gives X.gives (bounds_of pool.now).most pool.now.plan.now b sender job
        (view hand.old.pass) (view hand.new.pass)) }
    ensures said { IfOk result (Admits (bounds_of pool.now).most pool.now.plan.now (view hand.old.pass).seen (view hand.new.pass).seen) }
    ensures kept { (a : Hand S) → Leads S.shape S.gives pool.now a hand.old → Leads S.shape S.gives pool.now a hand.new }
{
    S::lay(pool.board, &mut hand.pass, b, job);
    let put = put_on(rt, pool, hand, Event::Accept { blk: b, sender })?;
    Ok(Some(put))
}

// Accepts the next job as block b. If there is no job, and all mouths were shut before the look, shuts the intake. Returns None if it put
// neither event.
fn take_in<S: AdmitCells<X>, X: Sent + Drop, R: Wait>(
    rt: &R,
    pool: &Pool<S>,
    hand: &mut Hand<S>,
    front: &Front<X>,
    intake: &mut Intake<X>,
    b: Blk,
) -> Result<Option<Put>, AllocError>
    requires leading { IsLeading S.shape S.gives X.gives pool.now front.now hand.old intake.old }
    requires room { HasRoom (bounds_of pool.now).most pool.now.plan.now (view hand.old.pass).seen }
    requires open { is_intake_open pool.now.plan.now (view hand.old.pass).seen ≡ true }
    requires next { next_of_intake pool.now.plan.now (view hand.old.pass).seen ≡ Some b }
    ensures leading { OnOk result (IsLeading S.shape S.gives X.gives pool.now front.now hand.new intake.new) }
    ensures said { IfOk result (Admits (bounds_of pool.now).most pool.now.plan.now (view hand.old.pass).seen (view hand.new.pass).seen) }
    ensures kept { (a : Hand S) → Leads S.shape S.gives pool.now a hand.old → Leads S.shape S.gives pool.now a hand.new }
{
    let all_shut = intake.all_shut(front);
    match intake.take(rt, front) {
        Some((sender, _, job)) => accept(rt, pool, hand, b, sender, job),
        None => {
            if all_shut {
                let put = put_on(rt, pool, hand, Event::Shut)?;
                return Ok(Some(put));
            }
            Ok(None)
        }
    }
}

// Worker 0 as the recorder of its loop. Its fields keep their references.
#[derive(Drop)]
pub(crate) struct Head<'a, 'h, S: Slot, X: Drop> {
    pool: &'h Pool<'a, S>,
    hand: &'h mut Hand<S>,
    front: &'h Front<X>,
    intake: &'h mut Intake<X>,
    idle: &'h mut HeadIdle,
}

impl<'a, 'h, S: AdmitCells<X>, X: Sent + Drop> Recorder for Head<'a, 'h, S, X> {
    type Fault = AllocError;

    ghost use Rattle.gcd_row.specs.Passes.{machine_of, view};
    ghost use Rattle.gcd_pool.specs.Admitted.{HasLed, IsLeading, KeepsHead, leading_left, leading_sight};
    ghost use Rattle.gcd_pool.specs.Leads.{bounds_of};

    ghost bounds = { λ head. bounds_of head.pool.now };

    ghost seen = { λ head. (view head.hand.now.pass).seen };

    ghost sight = { λ head. machine_of head.hand.now.pass };

    ghost ready = { λ head. IsLeading S.shape S.gives X.gives head.pool.now head.front.now head.hand.now head.intake.now };

    ghost kept = { λ a b. KeepsHead S.shape S.gives a b };

    ghost left = { λ head. HasLed S.shape S.gives X.gives head.pool.now head.front.now head.hand.now head.intake.now };

    ghost stopped = { λ head. ⊥ };

    ghost stands = { λ head is. leading_sight S.shape S.gives X.gives head.pool.now head.front.now head.hand.now head.intake.now is };

    ghost leaves = { λ head is. leading_left S.shape S.gives X.gives head.pool.now head.front.now head.hand.now head.intake.now is };

    #[inline(always)]
    fn plan(&self) -> &Plan
        ensures { result.now ≡ self.now.pool.now.plan.now }
    {
        self.pool.plan
    }

    #[inline(always)]
    fn most(&self) -> u32 {
        self.pool.board.most()
    }

    #[inline(always)]
    fn machine(&self) -> &Machine
        ensures { result.now ≡ machine_of self.now.hand.now.pass }
    {
        self.hand.pass.machine()
    }

    #[inline(always)]
    fn look(&mut self) {
        self.pool.board.look(&mut self.hand.pass);
    }

    // A team puts each event into the row, so it has nothing to rush.
    #[inline(always)]
    fn rush(&mut self) -> Result<(), AllocError> {
        Ok(())
    }

    #[inline(always)]
    fn put<R: Wait>(&mut self, rt: &R, e: Event) -> Result<Put, AllocError> {
        put_on(rt, self.pool, self.hand, e)
    }

    #[inline(always)]
    fn admit<R: Wait>(&mut self, rt: &R) -> Result<Option<Put>, AllocError> {
        if !pass_many(self.pool, self.hand) {
            return Err(AllocError);
        }
        match self.hand.pass.machine().next_intake() {
            None => {
                let put = put_on(rt, self.pool, self.hand, Event::Shut)?;
                Ok(Some(put))
            }
            Some(b) => take_in(rt, self.pool, self.hand, self.front, self.intake, b),
        }
    }

    #[inline(always)]
    fn work<R: Wait>(&mut self, rt: &R, e: Event) -> Result<Step, AllocError> {
        if !pass_many(self.pool, self.hand) {
            return Err(AllocError);
        }
        step_of::<S>(lead_any(rt, self.pool, self.hand, e))
    }

    #[inline(always)]
    fn rest<R: Wait>(&mut self, _rt: &R) -> Result<Step, AllocError> {
        if self.pool.is_stopped() {
            return Err(AllocError);
        }
        if !pass_many(self.pool, self.hand) {
            return Err(AllocError);
        }
        Ok(Step::Waited)
    }

    #[inline(always)]
    fn resume(&mut self) {
        self.idle.reset(self.front);
    }

    #[inline(always)]
    fn pause<R: Wait>(&mut self, rt: &R) {
        self.idle.pause(rt, self.front);
    }
}

// Takes turns to the end, and gathers all that was seen. Returns false if the journal was refused memory, or the team was stopped.
#[inline(always)]
fn run_head<S: AdmitCells<X>, X: Sent + Drop, P: Poller, C: Clock, R: Wait>(
    rt: &R,
    head: &mut Head<S, X>,
    outside: &mut Outside<P, C>,
) -> bool
    requires ready { IsReady S.shape S.gives head.old.pool.now head.old.hand.now }
    requires head { (view head.old.hand.now.pass).worker ≡ 0 }
    requires few { head.old.front.now.senders ≤ max_senders }
    requires intake { IsIntakeOf head.old.front.now head.old.intake.now }
    requires admitted { Admitted S.gives X.gives head.old.front.now (view head.old.hand.now.pass) head.old.intake.now }
    ensures same_hand { head.new.hand.ghost_name ≡ head.old.hand.ghost_name }
    ensures same_intake { head.new.intake.ghost_name ≡ head.old.intake.ghost_name }
    ensures served { Serving S.shape S.gives head.old.pool.now head.old.hand.now head.new.hand.now }
    ensures led { Led P.tells C.tells P.state C.state (head.old.pool.now.alone ≡ true) (result ≡ true)
        (head.old.hand.now, outside.old) (head.new.hand.now, outside.new) }
    ensures intake { result ≡ true → IsIntakeOf head.old.front.now head.new.intake.now }
    ensures admitted { result ≡ true → Admitted S.gives X.gives head.old.front.now (view head.new.hand.now.pass) head.new.intake.now }
{
    match run_turns(rt, head, outside) {
        Ok(Stop::Ended) => gather_all(head.pool, head.hand),
        Ok(Stop::Stopped) => unreachable!(),
        Err(AllocError) => {
            head.pool.stop();
            false
        }
    }
}

// Does worker 0's work with this front. With the hand of another worker it serves as that helper.
impl<'a, 'o, S: AdmitCells<X>, X: Sent + Drop, P: Poller, C: Clock> Leader<
    Hand<S>,
    Pool<'a, S>,
    Intake<X>,
    Outside<'o, P, C>,
> for Front<X> {
    ghost use Rattle.gcd_pool.specs.Admitted.{AsksOfFront, LedWithFront};

    ghost asks = { λ front hand intake. AsksOfFront S.gives X.gives front hand intake };

    ghost led = { λ front pool old new done. LedWithFront P.tells C.tells P.state C.state S.gives X.gives front (pool.alone ≡ true) (done ≡ true) old new };

    fn lead<R: Wait>(
        &self,
        rt: &R,
        crew: &Pool<'a, S>,
        hand: &mut Hand<S>,
        intake: &mut Intake<X>,
        outside: &mut Outside<'o, P, C>,
    ) -> bool {
        if hand.pass.worker() != 0 {
            return serve_to_the_end(rt, crew, hand);
        }
        crew.begin_serving(0);
        let mut idle = HeadIdle::new();
        let mut head = Head {
            pool: crew,
            hand,
            front: self,
            intake,
            idle: &mut idle,
        };
        run_head(rt, &mut head, outside)
    }
}
