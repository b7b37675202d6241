// A run that one worker keeps in a list, as far as it has come.
ghost use Rattle.std.specs.Prelude.{◌≡◌, ◌<◌, ◌+◌, ◌++◌, ◌∷◌, [], false, true, List, None, length, IfOk, OnOk};
ghost use Rattle.gcd_event.specs.declared.event.Event.{Event};
ghost use Rattle.gcd_history.specs.Choice.{is_work, worker_of};
ghost use Rattle.gcd_history.specs.Intake.{accepted};
ghost use Rattle.gcd_history.specs.Values.{value_of};
ghost use Rattle.gcd_jobs.specs.BlockValues.{AreValues, value_at_end};
ghost use Rattle.gcd_jobs.specs.Contents.{contents};
ghost use Rattle.gcd_jobs.specs.Ends.{EndFits};
ghost use Rattle.gcd_loop.specs.Recorded.{Says};
ghost use Rattle.gcd_loop.specs.Rushed.{IsRushed};
ghost use Rattle.gcd_machine.specs.Calm.{IsCalm};
ghost use Rattle.gcd_machine.specs.Stands.{StandsFor};
ghost use Rattle.gcd_workers.specs.ListRuns.{HasChosen, HasStepped, HasSteppedTwice, IsKept, IsNext};

use crate::hire::{Hire, starts_long};
use crate::over::Over;
use crate::tallies::{hand_over, tallies_by_object};
use gcd_event::{Entry, Event};
use gcd_jobs::{FileJob, Job, Tally};
use gcd_loop::{Recorder, Step};
use gcd_machine::{Machine, Put};
use gcd_plan::{Blk, Plan, Run};
use std::alloc::{AllocError, Global};
use std::sync::Wait;

// The journal, the values of the blocks, a tally for each object, and the machine that stands for the journal.
#[derive(Drop)]
pub(crate) struct Kept {
    pub(crate) journal: Vec<Entry>,
    pub(crate) values: Vec<u64>,
    pub(crate) tallies: Vec<Tally>,
    pub(crate) machine: Machine,
}

// A list has room at first for so many events, or for four events a block where that is more, and for no more than may come. What comes
// beyond that grows it.
const FIRST_EVENTS: usize = 1_024;

// The value of a block: that of its work, and 0 without work.
#[tactic(auto, unfolding(gcd_history::specs::Values::value_of))]
#[inline(always)]
fn block_value(plan: &Plan, files: &[Vec<u8>], b: Blk) -> u64
    requires { b.0 < length plan.now.blocks }
    ensures { result ≡ value_of plan.now (contents files.now) b.0 }
{
    FileJob::new(files, plan.work(b)).run(0)
}

// What a block comes to at its End: the value of its work, which is not computed of a cancelled block: that comes to 0
// (dispatch_block_cancel(3)).
#[inline(always)]
fn value_at_end(plan: &Plan, files: &[Vec<u8>], machine: &Machine, b: Blk) -> u64
    requires own { machine.now.plan ≡ plan.now }
    requires within { b.0 < length plan.now.blocks }
    ensures { (h : List Event) → StandsFor machine.now plan.now h → result ≡ value_at_end plan.now (contents files.now) h b.0 }
{
    if machine.is_cancelled(b) {
        return 0;
    }
    block_value(plan, files, b)
}

// The values after one more event, with the machine that has taken it: an End gives its block a value.
#[inline(always)]
fn note_end(plan: &Plan, files: &[Vec<u8>], machine: &Machine, e: Event, values: &mut Vec<u64>)
    requires own { machine.now.plan ≡ plan.now }
    requires count { length values.old.items ≡ length plan.now.blocks }
    requires ends { EndFits plan.now e }
    ensures values { (h : List Event) → StandsFor machine.now plan.now (h ++ e ∷ []) → AreValues plan.now (contents files.now) h values.old.items
        → AreValues plan.now (contents files.now) (h ++ e ∷ []) values.new.items }
{
    match e.ended() {
        Some(Run::Block(blk)) => {
            values[blk.0 as usize] = value_at_end(plan, files, machine, blk);
        }
        Some(Run::Source(_)) => {}
        None => {}
    }
}

impl Kept {
    // What is kept before the first event.
    fn new(alloc: Global, over: &Over) -> Result<Kept, AllocError>
        ensures journal { IfOk result (λ r. r.journal.items ≡ []) }
        ensures run { IfOk result (IsKept over.now) }
    {
        let count = over.plan.blocks() as usize;
        let room = (4 * count).max(FIRST_EVENTS).min(over.most as usize);
        let journal = Vec::with_capacity(alloc, room)?;
        let values = Vec::from_elem(alloc, 0, count)?;
        let tallies = tallies_by_object(alloc, over.plan)?;
        let machine = Machine::new(alloc, over.plan)?;
        Ok(Kept {
            journal,
            values,
            tallies,
            machine,
        })
    }

    // Records an event that may come next. An `Err` leaves the run as it was.
    #[inline(always)]
    fn record(&mut self, over: &Over, e: Event) -> Result<(), AllocError>
        requires next { IsNext over.now.most over.now.plan.now self.old.journal.items e }
        requires run { IsKept over.now self.old }
        ensures journal { OnOk result (self.new.journal.items ≡ self.old.journal.items ++ e ∷ []) }
        ensures run { IsKept over.now self.new }
    {
        self.journal.push(Entry::of(e))?;
        self.machine.apply(e);
        note_end(over.plan, over.files, &self.machine, e, &mut self.values);
        hand_over(&self.machine, e, &mut self.tallies);
        Ok(())
    }

    // Takes what worker 0 records next, if that is quick ([`Machine::quick`]). An `Err` leaves the run as it was.
    #[inline(always)]
    fn record_quick(&mut self, over: &Over) -> Result<Option<Event>, AllocError>
        requires room { length self.old.journal.items < over.now.most }
        requires run { IsKept over.now self.old }
        ensures run { IsKept over.now self.new }
        ensures stepped { IfOk result (HasStepped over.now.plan.now self.old.journal.items self.new.journal.items) }
    {
        self.journal.reserve(1)?;
        match self.machine.quick(0) {
            Some(e) => {
                self.journal.push_reserved(Entry::of(e));
                note_end(over.plan, over.files, &self.machine, e, &mut self.values);
                Ok(Some(e))
            }
            None => Ok(None),
        }
    }

    // Takes the start of the block that worker 0 starts next and then its end, if that is quick ([`Machine::quick_run`]), and says whether
    // it is. An `Err` leaves the run as it was.
    #[inline(always)]
    fn record_run(&mut self, over: &Over) -> Result<bool, AllocError>
        requires room { length self.old.journal.items + 1 < over.now.most }
        requires run { IsKept over.now self.old }
        ensures run { IsKept over.now self.new }
        ensures stepped { IfOk result (HasSteppedTwice over.now.plan.now self.old.journal.items self.new.journal.items) }
    {
        self.journal.reserve(2)?;
        match self.machine.quick_run(0) {
            Some(blk) => {
                let start = Event::Start { worker: 0, blk };
                let end = Event::End { worker: 0, blk };
                self.journal.push_reserved(Entry::of(start));
                self.journal.push_reserved(Entry::of(end));
                note_end(over.plan, over.files, &self.machine, end, &mut self.values);
                Ok(true)
            }
            None => Ok(false),
        }
    }

    // Returns whether worker 0 starts a long block next.
    fn starts_long(&self, over: &Over) -> bool {
        match self.machine.choose(0, 0) {
            Some(e) => starts_long(*over, e),
            None => false,
        }
    }

    // Records starts and ends of blocks, as long as they are quick and nothing can come of the outside, and says whether nothing can. An
    // `Err` leaves a run.
    #[inline(always)]
    fn rush_through(&mut self, over: &Over) -> Result<bool, AllocError>
        requires run { IsKept over.now self.old }
        ensures run { IsKept over.now self.new }
        ensures rushed { OnOk result (IsRushed over.now.plan.now self.old.journal.items self.new.journal.items) }
        ensures calm { IfOk result (λ calm. calm ≡ true → IsCalm over.now.plan.now self.new.journal.items) }
    {
        let mut calm = self.machine.is_calm();
        while calm && over.most - self.machine.len() > 1 {
            if !self.record_run(over)? {
                return Ok(true);
            }
            calm = self.machine.is_calm();
        }
        Ok(calm)
    }

    // Records worker 0's choice, and says whether there was one. An `Err` leaves the run as it was.
    fn record_choice(&mut self, over: &Over) -> Result<bool, AllocError>
        requires room { length self.old.journal.items < over.now.most }
        requires run { IsKept over.now self.old }
        ensures run { IsKept over.now self.new }
        ensures chosen { IfOk result (HasChosen over.now.plan.now self.old.journal.items self.new.journal.items) }
    {
        match self.machine.choose(0, 0) {
            Some(e) => {
                self.record(over, e)?;
                Ok(true)
            }
            None => Ok(false),
        }
    }

    // Records what worker 0 chooses, one event after another, while nothing can come of the outside. An `Err` leaves a run.
    fn rush_on(&mut self, over: &Over) -> Result<(), AllocError>
        requires run { IsKept over.now self.old }
        ensures run { IsKept over.now self.new }
        ensures rushed { OnOk result (IsRushed over.now.plan.now self.old.journal.items self.new.journal.items) }
    {
        let mut calm = self.machine.is_calm();
        while calm && self.machine.len() < over.most {
            match self.record_quick(over)? {
                Some(e) => {
                    if e.ended().is_some() {
                        calm = self.rush_through(over)?;
                    }
                }
                None => {
                    if !self.record_choice(over)? {
                        return Ok(());
                    }
                    calm = self.machine.is_calm();
                }
            }
        }
        Ok(())
    }

    // Records worker 0's choice, by a quick step if it can, and says whether there was one. An `Err` leaves a run.
    fn record_next(&mut self, over: &Over) -> Result<bool, AllocError>
        requires room { length self.old.journal.items < over.now.most }
        requires run { IsKept over.now self.old }
        ensures run { IsKept over.now self.new }
        ensures chosen { IfOk result (HasChosen over.now.plan.now self.old.journal.items self.new.journal.items) }
    {
        match self.record_quick(over)? {
            Some(_) => Ok(true),
            None => {
                let is_chosen = self.record_choice(over)?;
                Ok(is_chosen)
            }
        }
    }

    // Records what worker 0 chooses up to the start of a long block, while nothing can come of the outside. An `Err` leaves a run.
    fn rush_to_long(&mut self, over: &Over) -> Result<(), AllocError>
        requires run { IsKept over.now self.old }
        ensures run { IsKept over.now self.new }
        ensures rushed { OnOk result (IsRushed over.now.plan.now self.old.journal.items self.new.journal.items) }
    {
        let mut calm = self.machine.is_calm();
        while calm && self.machine.len() < over.most && !self.starts_long(over) {
            if !self.record_next(over)? {
                return Ok(());
            }
            calm = self.machine.is_calm();
        }
        Ok(())
    }

    // Records an event that is no worker's and accepts no job, if it may come next.
    #[inline(always)]
    fn put_one(&mut self, over: &Over, e: Event) -> Result<Put, AllocError>
        requires run { IsKept over.now self.old }
        requires room { length self.old.journal.items < over.now.most }
        requires by { worker_of e ≡ 0 }
        requires no_work { is_work e ≡ false }
        requires no_job { accepted e ≡ None }
        ensures run { IsKept over.now self.new }
        ensures said { IfOk result (Says over.now.most over.now.plan.now e self.old.journal.items self.new.journal.items) }
    {
        let at = self.machine.len();
        if let Some(why) = self.machine.permits(e) {
            return Ok(Put::Barred { at, why });
        }
        self.record(over, e)?;
        Ok(Put::Placed(at))
    }
}

// A run over a plan and its files, by worker 0 alone.
#[derive(Drop)]
pub(crate) struct ListRun<'a> {
    pub(crate) over: Over<'a>,
    pub(crate) kept: Kept,
    pub(crate) hire: Hire,
}

impl<'a> ListRun<'a> {
    // A run before its first event.
    pub(crate) fn new(alloc: Global, over: Over<'a>) -> Result<ListRun<'a>, AllocError>
        ensures over { IfOk result (λ r. r.over ≡ over.entry) }
        ensures journal { IfOk result (λ r. r.kept.journal.items ≡ []) }
        ensures run { IfOk result (λ r. IsKept r.over r.kept) }
        ensures alone { IfOk result (λ r. r.hire.most ≡ 1) }
    {
        let kept = Kept::new(alloc, &over)?;
        Ok(ListRun::alone(alloc, over, kept))
    }

    // A run that has come so far, and makes no team.
    pub(crate) fn alone(alloc: Global, over: Over<'a>, kept: Kept) -> ListRun<'a>
        ensures parts { (result.over ≡ over.entry) × (result.kept ≡ kept) }
        ensures alone { result.hire.most ≡ 1 }
    {
        ListRun {
            over,
            kept,
            hire: Hire::nobody(alloc),
        }
    }
}

impl<'a> Recorder for ListRun<'a> {
    type Fault = AllocError;

    ghost use Rattle.std.specs.Prelude.{◌≡◌, ◌<◌};
    ghost use Rattle.gcd_workers.specs.ListRuns.{IsKept, kept_sight};
    ghost use Rattle.gcd_workers.specs.Opened.{IsStopped};

    ghost bounds = { λ r. record { plan = r.over.plan.now; most = r.over.most } };

    ghost seen = { λ r. r.kept.journal.items };

    ghost sight = { λ r. r.kept.machine };

    ghost ready = { λ r. IsKept r.over r.kept };

    ghost kept = { λ a r. (r.over ≡ a.over) × (r.hire.most ≡ a.hire.most) };

    ghost left = { λ r. IsKept r.over r.kept };

    ghost stopped = { λ r. IsKept r.over r.kept × IsStopped r.over.plan.now r.kept.journal.items × (1 < r.hire.most) };

    ghost stands = { λ r run. kept_sight r.over r.kept run };

    ghost leaves = { λ r run. run };

    #[inline(always)]
    fn plan(&self) -> &Plan
        ensures { result.now ≡ self.now.over.plan.now }
    {
        self.over.plan
    }

    #[inline(always)]
    fn most(&self) -> u32 {
        self.over.most
    }

    #[inline(always)]
    fn machine(&self) -> &Machine
        ensures { result.now ≡ self.now.kept.machine }
    {
        &self.kept.machine
    }

    #[inline(always)]
    fn look(&mut self) {}

    #[inline(always)]
    fn rush(&mut self) -> Result<(), AllocError> {
        if self.hire.may_ask(self.kept.machine.len()) {
            self.kept.rush_to_long(&self.over)?;
            return Ok(());
        }
        // A bound in place of a look at each event keeps the loop of the rush short.
        let near = Over {
            plan: self.over.plan,
            files: self.over.files,
            most: self.hire.until(self.over.most),
        };
        self.kept.rush_on(&near)?;
        Ok(())
    }

    #[inline(always)]
    fn put<R: Wait>(&mut self, _rt: &R, e: Event) -> Result<Put, AllocError> {
        self.kept.put_one(&self.over, e)
    }

    // There are no outside callers.
    #[inline(always)]
    fn admit<R: Wait>(&mut self, _rt: &R) -> Result<Option<Put>, AllocError> {
        let put = self.kept.put_one(&self.over, Event::Shut)?;
        Ok(Some(put))
    }

    #[inline(always)]
    fn work<R: Wait>(&mut self, _rt: &R, e: Event) -> Result<Step, AllocError> {
        if self.hire.stops(self.over, &self.kept.machine, e) {
            return Ok(Step::Stopped);
        }
        self.kept.record(&self.over, e)?;
        Ok(Step::Placed)
    }

    #[inline(always)]
    fn rest<R: Wait>(&mut self, _rt: &R) -> Result<Step, AllocError> {
        Ok(Step::Waited)
    }

    // Nobody else places anything.
    #[inline(always)]
    fn resume(&mut self) {}

    #[inline(always)]
    fn pause<R: Wait>(&mut self, _rt: &R) {}
}
