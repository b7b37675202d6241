// Quick steps: they choose and take at once the three most frequent events.
ghost use Rattle.std.specs.Prelude.{◌≡◌, ℕ, Some, true};
ghost use Rattle.gcd_plan.specs.declared.act.Act.{Act};
ghost use Rattle.gcd_plan.specs.declared.numbers.Run.{Run};
ghost use Rattle.gcd_event.specs.declared.event.Event.{Event};
ghost use Rattle.gcd_history.specs.Permitted.{is_run_of};
ghost use Rattle.gcd_machine.specs.Chosen.{choice_by, idle_choice_at, own_event_at};
ghost use Rattle.gcd_machine.specs.Conditions.{CanPass, CanRun, CanTake, MayRun};
ghost use Rattle.gcd_machine.specs.Judged.{next_act_at};
ghost use Rattle.gcd_machine.specs.Quick.{async_of, HasRun, IsDue, IsQuick, IsRunDue, StartsNext};
ghost use Rattle.gcd_machine.specs.Stands.{IsShaped};
ghost use Rattle.gcd_machine.specs.Steps.{passed, stepped};

use super::Registers;
use super::judge::is_worker;
use gcd_event::Event;
use gcd_plan::{Act, Blk, Obj, Run};

// The queue and the block of an async.
#[inline(always)]
fn async_of(act: Act) -> Option<(Obj, Blk)>
    ensures { result ≡ async_of act }
{
    match act {
        Act::Async(queue, b) => Some((queue, b)),
        _ => None,
    }
}

impl Registers {
    /// Takes what the worker records next, the objects from number 0 on, if that is the end of a block, an async of a block or, as long
    /// as no run is open on an object, the start of a block. Otherwise it takes nothing.
    #[inline(always)]
    pub fn quick(&mut self, worker: u8) -> Option<Event>
        requires shape { IsShaped self.old }
        requires takes { (e : Event) → choice_by self.old worker 0 ≡ Some e → CanTake self.old e }
        ensures { IsQuick (choice_by self.old worker 0) self.old result self.new }
    {
        if self.is_over() || !is_worker(worker) {
            return None;
        }
        match self.own(worker) {
            Some(Run::Block(blk)) => self.quick_of_block(worker, blk),
            Some(Run::Source(_)) => None,
            None => self.quick_start(worker),
        }
    }

    // Takes the next event of the worker's block, if that is its end or an async.
    #[inline(always)]
    fn quick_of_block(&mut self, worker: u8, blk: Blk) -> Option<Event>
        requires shape { IsShaped self.old }
        requires run { is_run_of self.old.plan (Run.Block blk) ≡ true }
        requires takes { CanTake self.old (own_event_at self.old worker (Run.Block blk)) }
        ensures { IsQuick (Some (own_event_at self.old worker (Run.Block blk))) self.old result self.new }
    {
        match self.next_act(Run::Block(blk)) {
            Some(act) => {
                let (queue, b) = async_of(act)?;
                self.quick_async(worker, blk, queue, b)
            }
            None => Some(self.taken(Event::End { worker, blk })),
        }
    }

    // Takes the block's next act, an async, unless it is a misuse.
    #[inline(always)]
    fn quick_async(&mut self, worker: u8, blk: Blk, queue: Obj, b: Blk) -> Option<Event>
        requires shape { IsShaped self.old }
        requires run { is_run_of self.old.plan (Run.Block blk) ≡ true }
        requires act { next_act_at self.old (Run.Block blk) ≡ Some (Act.Async queue b) }
        requires takes { CanTake self.old (own_event_at self.old worker (Run.Block blk)) }
        ensures { IsQuick (Some (own_event_at self.old worker (Run.Block blk))) self.old result self.new }
    {
        let act = Act::Async(queue, b);
        if self.misuse(act).is_some() {
            return None;
        }
        let run = Run::Block(blk);
        let index = self.done(run);
        let len = self.len + 1;
        self.make(worker, run, act);
        self.len = len;
        Some(Event::Act { worker, run, index })
    }

    // Takes the start that a worker without a run records next. It takes nothing if a run is open on an object.
    #[inline(always)]
    fn quick_start(&mut self, worker: u8) -> Option<Event>
        requires shape { IsShaped self.old }
        requires takes { (e : Event) → idle_choice_at self.old worker 0 ≡ Some e → CanTake self.old e }
        ensures { IsQuick (idle_choice_at self.old worker 0) self.old result self.new }
    {
        let blk = self.start_due(worker)?;
        Some(self.taken(Event::Start { worker, blk }))
    }

    // The block whose start a worker without a run records next. None if it records something else, or a run is open on an object.
    #[inline(always)]
    fn start_due(&self, worker: u8) -> Option<Blk>
        requires { IsShaped self.now }
        ensures { StartsNext (idle_choice_at self.now worker 0) self.now worker result }
    {
        if self.tree.any_open() {
            return None;
        }
        let e = self.idle_choice(worker, 0)?;
        match e.begun() {
            Some(Run::Block(blk)) => Some(blk),
            Some(Run::Source(_)) => None,
            None => None,
        }
    }

    /// Takes the start of the block that the worker starts next, and then its end, if the block has no act to make and no run is open on
    /// an object. Otherwise it takes nothing.
    #[inline(always)]
    pub fn quick_run(&mut self, worker: u8) -> Option<Blk>
        requires shape { IsShaped self.old }
        requires starts { (b : Blk) → choice_by self.old worker 0 ≡ Some (Event.Start worker b) → is_run_of self.old.plan (Run.Block b) ≡ true }
        requires runs { (b : Blk) → IsRunDue self.old worker b → CanRun self.old worker b }
        ensures { HasRun self.old worker result self.new }
    {
        let blk = self.run_due(worker)?;
        self.run_through(blk);
        Some(blk)
    }

    // The block that the worker starts next, if it has no act to make and no run is open on an object.
    #[inline(always)]
    fn run_due(&self, worker: u8) -> Option<Blk>
        requires shape { IsShaped self.now }
        requires starts { (b : Blk) → choice_by self.now worker 0 ≡ Some (Event.Start worker b) → is_run_of self.now.plan (Run.Block b) ≡ true }
        ensures { IsDue self.now worker result }
    {
        if self.is_over() || !is_worker(worker) {
            return None;
        }
        if self.is_busy(worker) {
            return None;
        }
        match self.start_due(worker) {
            Some(blk) => match self.next_act(Run::Block(blk)) {
                Some(_) => None,
                None => Some(blk),
            },
            None => None,
        }
    }

    // A worker that has no run starts the block and then ends it. No run stays open, so the targets, the barriers and the workers are left
    // as they are.
    #[inline(always)]
    fn run_through(&mut self, blk: Blk)
        requires { MayRun self.old blk }
        ensures { (w : ℕ) → CanRun self.old w blk → self.new ≡ stepped (stepped self.old (Event.Start w blk)) (Event.End w blk) }
    {
        let cell = self.blocks[blk.0 as usize];
        let len = self.len + 1;
        self.pass(blk);
        self.len = len;
        self.tell(blk);
        self.end_waits(blk, cell.caller());
        self.leave_group(cell.group());
        self.len = len + 1;
    }

    // The block has started and is over.
    #[inline(always)]
    fn pass(&mut self, blk: Blk)
        requires { CanPass self.old blk }
        ensures { self.new ≡ passed self.old blk }
    {
        let cell = self.blocks[blk.0 as usize];
        self.blocks[blk.0 as usize].start();
        self.marks.began(blk);
        self.take_off_node(cell.node());
        self.ended[blk.0 as usize] = true;
        self.left -= 1;
        self.marks.ended(blk);
    }

    // Applies the event and returns it.
    #[inline(always)]
    fn taken(&mut self, e: Event) -> Event
        requires { CanTake self.old e }
        ensures after { self.new ≡ stepped self.old e }
        ensures same { result ≡ e }
    {
        self.apply(e);
        e
    }
}
