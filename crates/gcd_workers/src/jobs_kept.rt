// A run of jobs that worker 0 alone keeps in a list, as far as it has come.
ghost use Rattle.std.specs.Prelude.{◌≡◌, ◌<◌, ◌+◌, ◌++◌, ◌∷◌, [], true, false, ℕ, List, Some, None, length, IfOk, OnOk};
ghost use Rattle.gcd_event.specs.declared.event.Event.{Event};
ghost use Rattle.gcd_history.specs.Choice.{is_work, worker_of};
ghost use Rattle.gcd_history.specs.Ends.{is_halted};
ghost use Rattle.gcd_history.specs.History.{choice_of, next_of_intake};
ghost use Rattle.gcd_front.specs.Limits.{max_senders};
ghost use Rattle.gcd_loop.specs.Recorded.{Grows, Says};
ghost use Rattle.gcd_loop.specs.Rushed.{IsRushed};
ghost use Rattle.gcd_machine.specs.Calm.{IsCalm};
ghost use Rattle.gcd_machine.specs.Stands.{StandsFor};
ghost use Rattle.gcd_plan.specs.PlanView.{PlanView};
ghost use Rattle.gcd_workers.specs.AloneCalls.{Stays};
ghost use Rattle.gcd_workers.specs.JobsKept.{HasRunAtOnce, IsAcceptedAlone, IsBetween, IsJobsKept, IsNextOfJobs, IsToEnd, WasPutAlone};
ghost use Rattle.gcd_workers.specs.JobStates.{AreStates, ComesToNoMore};
ghost use Rattle.gcd_workers.specs.ListRuns.{HasChosen, HasStepped, HasSteppedTwice};

use crate::job_state::{JobState, run_job, waiting};
use gcd_event::{Entry, Event};
use gcd_jobs::Job;
use gcd_machine::{Machine, Put};
use gcd_plan::{Blk, Plan, Run};
use std::alloc::{AllocError, Global};
use std::snapshot::Snapshot;

// What such a run is given: the plan, how many events it may have, and the jobs, which clauses alone see.
#[derive(Drop)]
pub(crate) struct JobsGiven<'a, J> {
    pub(crate) plan: &'a Plan,
    pub(crate) most: u32,
    pub(crate) jobs: Snapshot<Vec<J>>,
}

// The journal, what each block has, and the machine that stands for the journal.
#[derive(Drop)]
pub(crate) struct JobsKept<J> {
    pub(crate) journal: Vec<Entry>,
    pub(crate) states: Vec<JobState<J>>,
    pub(crate) machine: Machine,
}

// A list has room at first for so many events, or for four events a block where that is more, and for no more than may come. What comes
// beyond that grows it.
const FIRST_EVENTS: usize = 1_024;

// Runs the job of the block that the event ends, unless that block is cancelled (dispatch_block_cancel(3)). The machine has taken the event.
#[inline(always)]
fn run_ended<J: Job + Drop>(machine: &Machine, e: Event, states: &mut Vec<JobState<J>>)
    requires { IsToEnd machine.now states.old.items e }
    ensures states { (plan : PlanView) (h : List Event) → StandsFor machine.now plan (h ++ e ∷ []) → AreStates plan h states.old.items
        → AreStates plan (h ++ e ∷ []) states.new.items }
    ensures no_more { ComesToNoMore J.gives states.old.items states.new.items }
{
    match e.ended() {
        Some(Run::Block(blk)) => {
            if !machine.is_cancelled(blk) {
                run_job(states, blk);
            }
        }
        Some(Run::Source(_)) => {}
        None => {}
    }
}

impl<J: Job + Drop> JobsKept<J> {
    // What is kept before the first event.
    pub(crate) fn new(
        alloc: Global,
        given: &JobsGiven<J>,
        jobs: Vec<J>,
    ) -> Result<JobsKept<J>, AllocError>
        requires jobs { given.now.jobs.value ≡ jobs }
        requires count { length jobs.items ≡ length given.now.plan.now.blocks }
        ensures journal { IfOk result (λ r. r.journal.items ≡ []) }
        ensures run { IfOk result (IsJobsKept J.gives given.now) }
    {
        let count = given.plan.blocks() as usize;
        let room = (4 * count).max(FIRST_EVENTS).min(given.most as usize);
        let journal = Vec::with_capacity(alloc, room)?;
        let machine = Machine::new(alloc, given.plan)?;
        let states = waiting(alloc, jobs)?;
        Ok(JobsKept {
            journal,
            states,
            machine,
        })
    }

    // Records an event that may come next. An `Err` leaves the run as it was.
    #[inline(always)]
    fn record(&mut self, given: &JobsGiven<J>, e: Event) -> Result<(), AllocError>
        requires next { IsNextOfJobs given.now.most given.now.plan.now self.old.journal.items e }
        requires run { IsJobsKept J.gives given.now self.old }
        ensures journal { OnOk result (self.new.journal.items ≡ self.old.journal.items ++ e ∷ []) }
        ensures run { IsJobsKept J.gives given.now self.new }
        ensures no_more { ComesToNoMore J.gives self.old.states.items self.new.states.items }
    {
        self.journal.push(Entry::of(e))?;
        self.machine.apply(e);
        run_ended(&self.machine, e, &mut self.states);
        Ok(())
    }

    // Takes the start of the block that worker 0 starts next and then its end, if that is quick ([`Machine::quick_run`]), and says whether
    // it is. An `Err` leaves the run as it was.
    #[inline(always)]
    fn record_run(&mut self, given: &JobsGiven<J>) -> Result<bool, AllocError>
        requires room { length self.old.journal.items + 1 < given.now.most }
        requires run { IsJobsKept J.gives given.now self.old }
        ensures run { IsJobsKept J.gives given.now self.new }
        ensures stepped { IfOk result (HasSteppedTwice given.now.plan.now self.old.journal.items self.new.journal.items) }
        ensures stays { OnOk result (Stays J.gives self.old.journal.items self.new.journal.items self.old.states.items self.new.states.items) }
        ensures ran { IfOk result (λ done. done ≡ true → HasRunAtOnce self.old.journal.items self.new.journal.items) }
    {
        self.journal.reserve(2)?;
        match self.machine.quick_run(0) {
            Some(blk) => {
                let start = Event::Start { worker: 0, blk };
                let end = Event::End { worker: 0, blk };
                self.journal.push_reserved(Entry::of(start));
                self.journal.push_reserved(Entry::of(end));
                run_ended(&self.machine, end, &mut self.states);
                Ok(true)
            }
            None => Ok(false),
        }
    }

    // Records worker 0's choice, and says whether there was one. An `Err` leaves the run as it was.
    fn record_choice(&mut self, given: &JobsGiven<J>) -> Result<bool, AllocError>
        requires room { length self.old.journal.items < given.now.most }
        requires run { IsJobsKept J.gives given.now self.old }
        ensures run { IsJobsKept J.gives given.now self.new }
        ensures chosen { IfOk result (HasChosen given.now.plan.now self.old.journal.items self.new.journal.items) }
        ensures stays { OnOk result (Stays J.gives self.old.journal.items self.new.journal.items self.old.states.items self.new.states.items) }
    {
        match self.machine.choose(0, 0) {
            Some(e) => {
                self.record(given, e)?;
                Ok(true)
            }
            None => Ok(false),
        }
    }

    // Takes what worker 0 records next, if that is quick ([`Machine::quick`]). An `Err` leaves the run as it was.
    #[inline(always)]
    fn record_quick(&mut self, given: &JobsGiven<J>) -> Result<Option<Event>, AllocError>
        requires room { length self.old.journal.items < given.now.most }
        requires run { IsJobsKept J.gives given.now self.old }
        ensures run { IsJobsKept J.gives given.now self.new }
        ensures stepped { IfOk result (HasStepped given.now.plan.now self.old.journal.items self.new.journal.items) }
        ensures stays { OnOk result (Stays J.gives self.old.journal.items self.new.journal.items self.old.states.items self.new.states.items) }
    {
        self.journal.reserve(1)?;
        match self.machine.quick(0) {
            Some(e) => {
                self.journal.push_reserved(Entry::of(e));
                run_ended(&self.machine, e, &mut self.states);
                Ok(Some(e))
            }
            None => Ok(None),
        }
    }

    // Records starts and ends of blocks, as long as they are quick and nothing can come of the outside, and says whether nothing can. An
    // `Err` leaves a run.
    #[inline(always)]
    fn rush_through(&mut self, given: &JobsGiven<J>) -> Result<bool, AllocError>
        requires run { IsJobsKept J.gives given.now self.old }
        ensures run { IsJobsKept J.gives given.now self.new }
        ensures rushed { OnOk result (IsRushed given.now.plan.now self.old.journal.items self.new.journal.items) }
        ensures calm { IfOk result (λ calm. calm ≡ true → IsCalm given.now.plan.now self.new.journal.items) }
        ensures stays { OnOk result (Stays J.gives self.old.journal.items self.new.journal.items self.old.states.items self.new.states.items) }
    {
        let mut calm = self.machine.is_calm();
        while calm && given.most - self.machine.len() > 1 {
            if !self.record_run(given)? {
                return Ok(true);
            }
            calm = self.machine.is_calm();
        }
        Ok(calm)
    }

    // Records what worker 0 chooses, one event after another, while nothing can come of the outside. An `Err` leaves a run.
    pub(crate) fn rush_on(&mut self, given: &JobsGiven<J>) -> Result<(), AllocError>
        requires run { IsJobsKept J.gives given.now self.old }
        ensures run { IsJobsKept J.gives given.now self.new }
        ensures rushed { OnOk result (IsRushed given.now.plan.now self.old.journal.items self.new.journal.items) }
        ensures stays { OnOk result (Stays J.gives self.old.journal.items self.new.journal.items self.old.states.items self.new.states.items) }
    {
        let mut calm = self.machine.is_calm();
        while calm && self.machine.len() < given.most {
            match self.record_quick(given)? {
                Some(e) => {
                    if e.ended().is_some() {
                        calm = self.rush_through(given)?;
                    }
                }
                None => {
                    if !self.record_choice(given)? {
                        return Ok(());
                    }
                    calm = self.machine.is_calm();
                }
            }
        }
        Ok(())
    }

    // Records an event that is no worker's and of no outside caller, if it may come next. An `Err` leaves the run as it was.
    #[inline(always)]
    pub(crate) fn put_one(&mut self, given: &JobsGiven<J>, e: Event) -> Result<Put, AllocError>
        requires run { IsJobsKept J.gives given.now self.old }
        requires room { length self.old.journal.items < given.now.most }
        requires by { worker_of e ≡ 0 }
        requires no_work { is_work e ≡ false }
        ensures run { IsJobsKept J.gives given.now self.new }
        ensures said { IfOk result (Says given.now.most given.now.plan.now e self.old.journal.items self.new.journal.items) }
        ensures put { IfOk result (WasPutAlone e self.old.journal.items self.new.journal.items) }
        ensures no_more { ComesToNoMore J.gives self.old.states.items self.new.states.items }
    {
        let at = self.machine.len();
        if let Some(why) = self.machine.permits(e) {
            return Ok(Put::Barred { at, why });
        }
        self.record(given, e)?;
        Ok(Put::Placed(at))
    }

    // Records the start and the end of the block that worker 0 starts next, if that is quick, and else what it chooses. An `Err` leaves the
    // run as it was.
    #[inline(always)]
    fn do_at_once(&mut self, given: &JobsGiven<J>, e: Event) -> Result<(), AllocError>
        requires run { IsJobsKept J.gives given.now self.old }
        requires room { length self.old.journal.items + 1 < given.now.most }
        requires chosen { choice_of given.now.plan.now self.old.journal.items 0 0 ≡ Some e }
        ensures run { OnOk result (IsJobsKept J.gives given.now self.new) }
        ensures grows { OnOk result (Grows self.old.journal.items self.new.journal.items) }
        ensures stays { OnOk result (Stays J.gives self.old.journal.items self.new.journal.items self.old.states.items self.new.states.items) }
    {
        match self.record_run(given)? {
            true => Ok(()),
            false => self.record(given, e),
        }
    }

    // Does what worker 0 chooses: where that is the start of a block that ends at once, its end too. An `Err` leaves the run as it was.
    #[inline(always)]
    pub(crate) fn do_chosen(&mut self, given: &JobsGiven<J>, e: Event) -> Result<(), AllocError>
        requires run { IsJobsKept J.gives given.now self.old }
        requires room { length self.old.journal.items < given.now.most }
        requires chosen { choice_of given.now.plan.now self.old.journal.items 0 0 ≡ Some e }
        ensures run { OnOk result (IsJobsKept J.gives given.now self.new) }
        ensures grows { OnOk result (Grows self.old.journal.items self.new.journal.items) }
        ensures stays { OnOk result (Stays J.gives self.old.journal.items self.new.journal.items self.old.states.items self.new.states.items) }
    {
        if given.most - self.machine.len() > 1 {
            return self.do_at_once(given, e);
        }
        self.record(given, e)
    }

    // Records the start and the end of the block that worker 0 starts next, if that is quick and leaves room for another event. An `Err`
    // leaves the run as it was.
    #[inline(always)]
    fn end_first(&mut self, given: &JobsGiven<J>) -> Result<(), AllocError>
        requires run { IsJobsKept J.gives given.now self.old }
        requires room { length self.old.journal.items < given.now.most }
        requires on { is_halted self.old.journal.items ≡ false }
        ensures run { OnOk result (IsJobsKept J.gives given.now self.new) }
        ensures between { OnOk result (IsBetween given.now.most given.now.plan.now self.old.journal.items self.new.journal.items) }
        ensures stays { OnOk result (Stays J.gives self.old.journal.items self.new.journal.items self.old.states.items self.new.states.items) }
    {
        if given.most - self.machine.len() <= 2 {
            return Ok(());
        }
        match self.record_run(given)? {
            true => Ok(()),
            false => Ok(()),
        }
    }

    // Lays down the job that was taken last, of this sender, for the next block of the intake, and records its Accept. A block that ends at
    // once ends before it. An `Err` leaves a run, and the job is dropped.
    #[inline(always)]
    pub(crate) fn accept(
        &mut self,
        given: &JobsGiven<J>,
        b: Blk,
        sender: u8,
        job: J,
    ) -> Result<Put, AllocError>
        requires run { IsJobsKept J.gives given.now self.old }
        requires room { length self.old.journal.items < given.now.most }
        requires on { is_halted self.old.journal.items ≡ false }
        requires next { next_of_intake given.now.plan.now self.old.journal.items ≡ Some b }
        requires sender { sender < max_senders }
        ensures run { OnOk result (IsJobsKept J.gives given.now self.new) }
        ensures accepted { IfOk result (IsAcceptedAlone J.gives given.now.plan.now b sender job self.old self.new) }
    {
        self.end_first(given)?;
        self.journal.reserve(1)?;
        let at = self.machine.len();
        let e = Event::Accept { blk: b, sender };
        self.states[b.0 as usize] = JobState::Waits(job);
        self.journal.push_reserved(Entry::of(e));
        self.machine.apply(e);
        Ok(Put::Placed(at))
    }
}
