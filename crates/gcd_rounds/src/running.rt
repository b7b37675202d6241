// A run by rounds, as far as it has come.
ghost use Rattle.std.specs.Prelude.{◌≡◌, ◌<◌, ◌++◌, ◌∷◌, [], ℕ, List, Some, None, true, false, OnOk, IfOk, length, map};
ghost use Rattle.gcd_plan.specs.PlanView.{PlanView};
ghost use Rattle.gcd_event.specs.declared.event.Event.{Event};
ghost use Rattle.gcd_event.specs.declared.event.Event.TheVariants.{End};
ghost use Rattle.gcd_history.specs.Choice.{is_work, worker_of};
ghost use Rattle.gcd_history.specs.History.{is_block_cancelled};
ghost use Rattle.gcd_history.specs.Intake.{accepted};
ghost use Rattle.gcd_history.specs.Runs.{ends};
ghost use Rattle.gcd_machine.specs.Stands.{StandsFor};
ghost use Rattle.gcd_loop.specs.Recorded.{Says};
ghost use Rattle.gcd_rounds.specs.declared.kept.Ending.{Ending};
ghost use Rattle.gcd_rounds.specs.Handing.{WasRecorded};
ghost use Rattle.gcd_rounds.specs.Kept.{EndOthers, HasValue};
ghost use Rattle.gcd_rounds.specs.Ran.{AreHandlers};
ghost use Rattle.gcd_rounds.specs.Running.{AreReady, GoesOn, HaveTaken, IsNext, IsRun, places_of};

use crate::kept::Done;
use crate::places::{place_of, places_of};
use gcd_event::{Entry, Event};
use gcd_jobs::{Handler, Job};
use gcd_machine::{Machine, Put};
use gcd_plan::Plan;
use std::alloc::{AllocError, Global};
use std::snapshot::Snapshot;

// What was handed in: the jobs, which clauses alone see, the number of workers, and how many events there may be.
#[derive(Drop)]
pub(crate) struct Terms<J> {
    pub(crate) jobs: Snapshot<Vec<J>>,
    pub(crate) workers: u8,
    pub(crate) most: u32,
}

// The journal and the machine that stands for it; the values of the blocks, and the jobs whose End neither stands nor is kept
// back; and the handlers, with the place of each source's.
#[derive(Drop)]
pub(crate) struct Running<J, H> {
    pub(crate) terms: Terms<J>,
    pub(crate) journal: Vec<Entry>,
    pub(crate) machine: Machine,
    pub(crate) values: Vec<u64>,
    pub(crate) jobs: Vec<Option<J>>,
    pub(crate) handlers: Vec<H>,
    pub(crate) places: Vec<u32>,
}

// The jobs, each where it waits.
fn waiting<J: Drop>(alloc: Global, jobs: Vec<J>) -> Result<Vec<Option<J>>, AllocError>
    ensures { IfOk result (λ v. v.items ≡ map Some jobs.items) }
{
    jobs.into_iter().map(Some).collect(alloc)
}

// Where the event that was recorded last is a Deliver, the handler of its source takes what it hands over.
fn hand_over<H: Handler>(
    plan: &Plan,
    machine: &Machine,
    places: &[u32],
    handlers: &mut Vec<H>,
    e: Event,
)
    requires places { places.now ≡ places_of plan.now }
    requires recorded { WasRecorded H.kind H.times H.total plan.now machine.now handlers.old.items e }
    ensures { (h : List Event) → StandsFor machine.now plan.now (h ++ e ∷ [])
        → HaveTaken H.kind H.times H.total plan.now h handlers.old.items
        → HaveTaken H.kind H.times H.total plan.now (h ++ e ∷ []) handlers.new.items }
{
    if let Event::Deliver { src, .. } = e {
        handlers[place_of(places, src)].take(machine.data_of(src));
    }
}

impl<J: Job + Drop, H: Handler + Drop> Running<J, H> {
    // A run before its first event.
    pub(crate) fn new(
        alloc: Global,
        plan: &Plan,
        most: u32,
        jobs: Vec<J>,
        handlers: Vec<H>,
        workers: u8,
    ) -> Result<Running<J, H>, AllocError>
        requires jobs { length jobs.items ≡ length plan.now.blocks }
        requires handlers { AreHandlers H.kind H.times H.total plan.now (λ s. 0) (λ s. 0) handlers.items }
        requires workers { 0 < workers }
        ensures workers { IfOk result (λ r. r.terms.workers ≡ workers) }
        ensures most { IfOk result (λ r. r.terms.most ≡ most) }
        ensures jobs { IfOk result (λ r. r.terms.jobs.value ≡ jobs) }
        ensures journal { IfOk result (λ r. r.journal.items ≡ []) }
        ensures run { IfOk result (λ r. IsRun H.kind H.times H.total plan.now r) }
        ensures ready { IfOk result (λ r. AreReady J.gives plan.now r []) }
    {
        let terms = Terms {
            jobs: Snapshot::of(&jobs),
            workers,
            most,
        };
        let journal = Vec::new(alloc);
        let values = Vec::from_elem(alloc, 0, plan.blocks() as usize)?;
        let jobs = waiting(alloc, jobs)?;
        let places = places_of(alloc, plan)?;
        let machine = Machine::new(alloc, plan)?;
        Ok(Running {
            terms,
            journal,
            machine,
            values,
            jobs,
            handlers,
            places,
        })
    }

    // Whether no worker records anything more: the run is halted or full.
    pub(crate) fn is_over(&self) -> bool
        ensures goes_on { (plan : PlanView) (h : List Event) → StandsFor self.now.machine plan h → result ≡ false → GoesOn self.now.terms.most h }
        ensures over { (plan : PlanView) (h : List Event) → StandsFor self.now.machine plan h → result ≡ true → GoesOn self.now.terms.most h → ⊥ }
    {
        self.machine.is_halted() || self.machine.len() >= self.terms.most
    }

    // Records an event that may come next. It ends no block but a cancelled one, where the values are to stay right.
    pub(crate) fn record(&mut self, plan: &Plan, e: Event) -> Result<(), AllocError>
        requires next { IsNext self.old.terms.most plan.now self.old.terms.workers self.old.journal.items e }
        requires run { IsRun H.kind H.times H.total plan.now self.old }
        ensures terms { self.new.terms ≡ self.old.terms }
        ensures values { self.new.values ≡ self.old.values }
        ensures jobs { self.new.jobs ≡ self.old.jobs }
        ensures journal { OnOk result (self.new.journal.items ≡ self.old.journal.items ++ e ∷ []) }
        ensures run { OnOk result (IsRun H.kind H.times H.total plan.now self.new) }
        ensures ready { (kept : List Ending) → ((b : ℕ) → ends b e ≡ true → is_block_cancelled plan.now self.old.journal.items b ≡ true)
            → EndOthers (worker_of e) kept
            → AreReady J.gives plan.now self.old kept → OnOk result (AreReady J.gives plan.now self.new kept) }
    {
        self.journal.push(Entry::of(e))?;
        self.machine.apply(e);
        hand_over(plan, &self.machine, &self.places, &mut self.handlers, e);
        Ok(())
    }

    // Records an event that is no worker's and accepts no job, or drops it where it may not come next. No End is kept back.
    pub(crate) fn put(&mut self, plan: &Plan, e: Event) -> Result<Put, AllocError>
        requires by { worker_of e ≡ 0 }
        requires no_work { is_work e ≡ false }
        requires no_job { accepted e ≡ None }
        requires room { length self.old.journal.items < self.old.terms.most }
        requires run { IsRun H.kind H.times H.total plan.now self.old }
        requires ready { AreReady J.gives plan.now self.old [] }
        ensures terms { self.new.terms ≡ self.old.terms }
        ensures said { IfOk result (Says self.old.terms.most plan.now e self.old.journal.items self.new.journal.items) }
        ensures run { OnOk result (IsRun H.kind H.times H.total plan.now self.new) }
        ensures ready { OnOk result (AreReady J.gives plan.now self.new []) }
    {
        let at = self.machine.len();
        if let Some(why) = self.machine.permits(e) {
            return Ok(Put::Barred { at, why });
        }
        self.record(plan, e)?;
        Ok(Put::Placed(at))
    }

    // Records an End that was kept back first, and the value that its job gave.
    pub(crate) fn end(&mut self, plan: &Plan, done: Done) -> Result<(), AllocError>
        requires next { IsNext self.old.terms.most plan.now self.old.terms.workers self.old.journal.items (End done.ending.worker done.ending.blk) }
        requires run { IsRun H.kind H.times H.total plan.now self.old }
        requires within { done.ending.blk.0 < length self.old.values.items }
        ensures terms { self.new.terms ≡ self.old.terms }
        ensures run { OnOk result (IsRun H.kind H.times H.total plan.now self.new) }
        ensures journal { OnOk result (self.new.journal.items ≡ self.old.journal.items ++ End done.ending.worker done.ending.blk ∷ []) }
        ensures ready { (rest : List Ending) → EndOthers done.ending.worker rest → HasValue J.gives self.old.terms.jobs.value.items done
            → AreReady J.gives plan.now self.old (done.ending ∷ rest) → OnOk result (AreReady J.gives plan.now self.new rest) }
    {
        self.record(plan, done.ending.event())?;
        self.values[done.ending.blk.0 as usize] = done.value;
        Ok(())
    }
}
