// A machine that stands for a plan and what has happened so far.
ghost use Rattle.std.specs.Prelude.{◌≡◌, ◌<◌, ◌-◌, ◌++◌, ◌∷◌, ◌↔◌, [], ℕ, false, true, List, None, Some, Option, IfOk, IfSome, IsTrue, find, is_some, length, option_map};
ghost use Rattle.std.specs.List.{range_with_len};
ghost use Rattle.gcd_plan.specs.declared.numbers.Blk.{Blk};
ghost use Rattle.gcd_plan.specs.PlanView.{PlanView};
ghost use Rattle.gcd_event.specs.declared.event.Event.{Event};
ghost use Rattle.gcd_history.specs.Choice.{is_work, worker_of};
ghost use Rattle.gcd_history.specs.Ends.{HasState, IsQuiescent, is_halted};
ghost use Rattle.gcd_history.specs.History.{awaited_of, choice_of, expiry_of, last_data_of, first_waiting_of, next_of_intake, is_block_cancelled, is_ended, is_intake_open, is_live_feed, is_started, next_due_of, node_of, parks, pending_of, running_of, why};
ghost use Rattle.gcd_machine.specs.Begins.{begin_of};
ghost use Rattle.gcd_machine.specs.Calm.{IsCalm};
ghost use Rattle.gcd_machine.specs.Dues.{is_due_by};
ghost use Rattle.gcd_machine.specs.Quick.{IsRunNext, IsRunTaken, IsTaken, MayStep, MayStepTwice, quick_of};
ghost use Rattle.gcd_machine.specs.Stands.{MayApply, StandsFor};

use crate::due_by::DueBy;
use crate::registers::Registers;
use gcd_event::Event;
use gcd_history::State;
use gcd_plan::{Blk, Obj, Plan, Reason, Why};
use std::alloc::{AllocError, Global};
use std::marker::Model;

/// A queue machine: it stands for a plan and each history that has led to it, and tells what may come next.
pub struct Machine {
    registers: Registers,
}

// One call drops all that a machine keeps: so a crate that drops machines proves nothing of their parts.
impl Drop for Machine {
    fn drop(self) {
        let Machine { registers: _ } = self;
    }
}

impl Model for Machine {
    ghost use Rattle.gcd_refinement.specs.MachineView.{MachineView};

    ghost Value = { MachineView };

    ghost use Rattle.gcd_machine.specs.Stands.{IsShaped};

    ghost view = { λ m. m.registers };

    ghost invariant = { λ m. IsShaped m.registers };
}

impl Machine {
    /// The machine of the plan before anything has happened. It keeps a copy of the plan, which its own copies share. An `Err`
    /// comes only where memory runs out.
    pub fn new(alloc: Global, plan: &Plan) -> Result<Machine, AllocError>
        ensures plan { IfOk result (λ m. m.plan ≡ plan.now) }
        ensures stands { IfOk result (λ m. StandsFor m plan.now []) }
    {
        Ok(Machine {
            registers: Registers::new(alloc, plan)?,
        })
    }

    /// Copies the machine. The copy shares the plan. An `Err` comes only if memory runs out.
    pub fn copy(&self, alloc: Global) -> Result<Machine, AllocError>
        ensures { IfOk result (λ m. m ≡ self.now) }
    {
        Ok(Machine {
            registers: self.registers.copied(alloc)?,
        })
    }

    /// How many objects the plan has, `root` among them.
    pub fn objects(&self) -> u32
        ensures { result ≡ length self.now.plan.objects }
    {
        self.registers.plan.objects()
    }

    /// How many blocks the plan has, `main` among them.
    pub fn blocks(&self) -> u32
        ensures { result ≡ length self.now.plan.blocks }
    {
        self.registers.plan.blocks()
    }

    /// The first reason why the event may not come next, or None: then it may. An event that names what the plan has not
    /// is answered too.
    pub fn permits(&self, e: Event) -> Option<Why>
        ensures { (plan : PlanView) (h : List Event) → StandsFor self.now plan h → result ≡ why plan h e }
    {
        self.registers.why_not(e)
    }

    /// Takes an event that is permitted, without memory. It costs a constant number of steps, twice the length of the node's
    /// chain, one for each block that the event submits or lets go on, and at a tick a few for each timer that it reaches. Where a wait
    /// has a limit, its act, its end and the tick that reaches the limit cost a step for each doubling of the number of blocks.
    #[inline(always)]
    pub fn apply(&mut self, e: Event)
        requires { MayApply self.old e }
        ensures plan { self.new.plan ≡ self.old.plan }
        ensures stands { (plan : PlanView) (h : List Event) → StandsFor self.old plan h → why plan h e ≡ None → StandsFor self.new plan (h ++ e ∷ []) }
    {
        self.registers.apply(e);
    }

    /// What the worker records next: the first event that is permitted in the order of choice, which is the next event of its
    /// own run; the wake of the parked block with the least number that may wake; the start of `main`; and of the objects
    /// from number `from` on, wrapping round, the start of the first block that waits there, or the source's delivery. None
    /// exactly where no event of the worker is permitted (this project's own rule). It looks once at each object where a
    /// block waits or something is pending, and once in all at each object of their chains.
    #[inline(always)]
    pub fn choose(&self, worker: u8, from: u32) -> Option<Event>
        ensures choice { (plan : PlanView) (h : List Event) → StandsFor self.now plan h → result ≡ choice_of plan h worker from }
        ensures permitted { (plan : PlanView) (h : List Event) → StandsFor self.now plan h → IfSome result (λ e. why plan h e ≡ None) }
        ensures own { IfSome result (λ e. worker_of e ≡ worker) }
        ensures work { IfSome result (λ e. IsTrue (is_work e)) }
    {
        self.registers.choice(worker, from)
    }

    /// Takes what the worker records next, the objects from number 0 on, if that is the end of a block, an async of a block or, as long
    /// as no run is open on an object, the start of a block. Otherwise it takes nothing, answers None and leaves all as it was (this
    /// project's own rule). It costs as much as [`Machine::choose`] and [`Machine::apply`].
    #[inline(always)]
    pub fn quick(&mut self, worker: u8) -> Option<Event>
        requires { MayStep self.old }
        ensures plan { self.new.plan ≡ self.old.plan }
        ensures choice { (plan : PlanView) (h : List Event) → StandsFor self.old plan h → result ≡ quick_of plan h worker }
        ensures taken { (plan : PlanView) (h : List Event) → StandsFor self.old plan h → IfSome result (λ e. IsTaken plan h worker e self.new) }
        ensures nothing { result ≡ None → self.new ≡ self.old }
    {
        self.registers.quick(worker)
    }

    /// Takes at once the start of the block that the worker starts next and then its end, which is its next event, if [`Machine::quick`]
    /// takes that start. Otherwise it takes nothing, answers None and leaves all as it was (this project's own rule). It costs as much as
    /// [`Machine::choose`] and twice [`Machine::apply`] at most.
    #[inline(always)]
    pub fn quick_run(&mut self, worker: u8) -> Option<Blk>
        requires { MayStepTwice self.old }
        ensures plan { self.new.plan ≡ self.old.plan }
        ensures taken { (plan : PlanView) (h : List Event) → StandsFor self.old plan h → IfSome result (λ b. IsRunTaken plan h worker b self.new) }
        ensures none { (plan : PlanView) (h : List Event) (b : Blk) → StandsFor self.old plan h → result ≡ None → IsRunNext plan h worker b → ⊥ }
        ensures nothing { result ≡ None → self.new ≡ self.old }
    {
        self.registers.quick_run(worker)
    }

    /// The Expire that worker 0 records: that of the parked block with the least number whose wait may expire. None exactly where
    /// none may (this project's own rule). It costs a step for each word of 64 blocks that it passes, and none where no wait may
    /// expire.
    pub fn expiry(&self) -> Option<Event>
        ensures { (plan : PlanView) (h : List Event) → StandsFor self.now plan h → result ≡ expiry_of plan h }
    {
        self.registers.expiry()
    }

    /// What the worker may begin on the node: the start of the first block that waits there, or else the source's delivery. None
    /// exactly where neither may come next, as for a worker that has a run (this project's own rule). It looks once at each
    /// object of the node's chain.
    pub fn begin_on(&self, worker: u8, node: Obj) -> Option<Event>
        requires { node.0 < length self.now.plan.objects }
        ensures { (plan : PlanView) (h : List Event) → StandsFor self.now plan h → result ≡ begin_of plan h worker node.0 }
    {
        self.registers.begin(worker, node)
    }

    /// Whether nothing can come of poller, clock or outside callers: no read source is live, no due time is left, no wait may expire, and
    /// no intake is open (this project's own rule). Where the run is halted it may answer no, though nothing can come.
    #[inline(always)]
    pub fn is_calm(&self) -> bool
        ensures calm { (plan : PlanView) (h : List Event) → StandsFor self.now plan h → IsTrue result → IsCalm plan h }
        ensures told { (plan : PlanView) (h : List Event) → StandsFor self.now plan h → is_halted h ≡ false → IsCalm plan h → IsTrue result }
    {
        self.registers.is_calm()
    }

    /// How far the run has come. It costs as much as [`Machine::is_quiescent`].
    pub fn state(&self) -> State
        ensures { (plan : PlanView) (h : List Event) → StandsFor self.now plan h → HasState plan h result }
    {
        self.registers.state()
    }

    /// Whether nothing but a halt can come any more, and the run is not halted. It costs a constant number of steps where the
    /// intake is open, a run is open and not parked, a read source is live, a wait may expire or a due time is left, and else as much as one
    /// [`Machine::choose`].
    pub fn is_quiescent(&self) -> bool
        ensures { (plan : PlanView) (h : List Event) → StandsFor self.now plan h → IsTrue result ↔ IsQuiescent plan h }
    {
        self.registers.is_quiescent()
    }

    /// Whether the last event is a misuse or a halt, after which nothing is permitted.
    #[inline(always)]
    pub fn is_halted(&self) -> bool
        ensures { (plan : PlanView) (h : List Event) → StandsFor self.now plan h → result ≡ is_halted h }
    {
        self.registers.is_over()
    }

    /// How many events have come.
    #[inline(always)]
    pub fn len(&self) -> u32
        ensures { (plan : PlanView) (h : List Event) → StandsFor self.now plan h → result ≡ length h }
    {
        self.registers.len()
    }

    /// How many runs are open and not parked.
    #[inline(always)]
    pub fn running(&self) -> u32
        ensures { (plan : PlanView) (h : List Event) → StandsFor self.now plan h → result ≡ running_of plan h }
    {
        self.registers.running()
    }

    /// The least number above journal time that is a due time of a timer or the limit of a wait that is not over, in milliseconds.
    /// None exactly where none is left (dispatch_source_set_timer(3), dispatch_semaphore_wait(3), dispatch_group_wait(3)).
    #[inline(always)]
    pub fn next_due(&self) -> Option<u32>
        ensures { (plan : PlanView) (h : List Event) → StandsFor self.now plan h → result ≡ next_due_of plan h }
    {
        self.registers.next_due()
    }

    /// What is due at [`Machine::next_due`]: a timer, or a block whose wait reaches its limit then, any one of them if there are
    /// several. None exactly if no due time is left. It takes a step for each doubling of the objects, or of the blocks (this
    /// project's own rule).
    pub fn due_by(&self) -> Option<DueBy>
        ensures some { (plan : PlanView) (h : List Event) → StandsFor self.now plan h → is_some result ≡ is_some (next_due_of plan h) }
        ensures due { (plan : PlanView) (h : List Event) (t : ℕ) → StandsFor self.now plan h → next_due_of plan h ≡ Some t
            → IfSome result (λ d. is_due_by plan h t d ≡ true) }
    {
        self.registers.due_by()
    }

    /// Whether the object is a read source that is active and not cancelled (dispatch_source_create(3)).
    pub fn is_live_feed(&self, src: Obj) -> bool
        requires { src.0 < length self.now.plan.objects }
        ensures { (plan : PlanView) (h : List Event) → StandsFor self.now plan h → result ≡ is_live_feed plan h src.0 }
    {
        self.registers.is_live_feed(src)
    }

    /// The live read source with the least number from this one on; None exactly where there is none. It costs a step for each
    /// word of 64 objects that it passes, and none where no read source is live (dispatch_source_create(3)).
    #[inline(always)]
    pub fn next_live_feed(&self, from: u32) -> Option<Obj>
        ensures { (plan : PlanView) (h : List Event) → StandsFor self.now plan h → option_map (λ o. o.0) result ≡ find (is_live_feed plan h) (range_with_len from (length plan.objects - from)) }
    {
        self.registers.next_live_feed(from)
    }

    /// The first block that waits on an object. None exactly where nothing waits there.
    pub fn first_waiting(&self, node: Obj) -> Option<Blk>
        requires { node.0 < length self.now.plan.objects }
        ensures { (plan : PlanView) (h : List Event) → StandsFor self.now plan h → result ≡ first_waiting_of plan h node.0 }
    {
        self.registers.first_waiting(node)
    }

    /// The queue or source on which a block was submitted. None exactly where it is `main` or was not submitted.
    pub fn node_of(&self, b: Blk) -> Option<Obj>
        requires { b.0 < length self.now.plan.blocks }
        ensures { (plan : PlanView) (h : List Event) → StandsFor self.now plan h → result ≡ node_of plan h b.0 }
    {
        self.registers.node_of(b)
    }

    /// Whether the block has started (dispatch_async(3)).
    pub fn is_started(&self, b: Blk) -> bool
        requires { b.0 < length self.now.plan.blocks }
        ensures { (plan : PlanView) (h : List Event) → StandsFor self.now plan h → result ≡ is_started h b.0 }
    {
        self.registers.is_started(b)
    }

    /// Whether the block has ended (dispatch_async(3)).
    pub fn is_ended(&self, b: Blk) -> bool
        requires { b.0 < length self.now.plan.blocks }
        ensures { (plan : PlanView) (h : List Event) → StandsFor self.now plan h → result ≡ is_ended h b.0 }
    {
        self.registers.is_ended(b)
    }

    /// What the block waits for: the end of a block, a moment at which a group is empty, the ends of a strip's blocks, or its turn at a
    /// semaphore. None exactly where it is not parked (dispatch_sync(3), dispatch_block_wait(3), dispatch_group_wait(3),
    /// dispatch_apply(3), dispatch_semaphore_wait(3)).
    pub fn awaited(&self, b: Blk) -> Option<Reason>
        requires { b.0 < length self.now.plan.blocks }
        ensures { (plan : PlanView) (h : List Event) → StandsFor self.now plan h → result ≡ awaited_of plan h b.0 }
    {
        self.registers.awaited(b)
    }

    /// Whether the block is cancelled: it was cancelled before it started, so it starts and ends in its turn, with no act and no work
    /// (dispatch_block_testcancel(3)).
    #[inline(always)]
    pub fn is_cancelled(&self, b: Blk) -> bool
        ensures { (plan : PlanView) (h : List Event) → StandsFor self.now plan h → result ≡ is_block_cancelled plan h b.0 }
    {
        self.registers.is_cancelled(b)
    }

    /// Whether the plan has an intake, and it is not shut (this project's own rule).
    #[inline(always)]
    pub fn intake_open(&self) -> bool
        ensures { (plan : PlanView) (h : List Event) → StandsFor self.now plan h → result ≡ is_intake_open plan h }
    {
        self.registers.intake_open()
    }

    /// The block of the intake that is accepted next: the lowest that is not accepted. None exactly where the intake is not open, or
    /// all its blocks are accepted (this project's own rule).
    pub fn next_intake(&self) -> Option<Blk>
        ensures { (plan : PlanView) (h : List Event) → StandsFor self.now plan h → result ≡ next_of_intake plan h }
    {
        self.registers.next_intake()
    }

    /// What the last delivery of the source handed over, 0 before one (dispatch_source_get_data(3)).
    pub fn data_of(&self, src: Obj) -> u64
        requires { src.0 < length self.now.plan.objects }
        ensures { (plan : PlanView) (h : List Event) → StandsFor self.now plan h → result ≡ last_data_of plan h src.0 }
    {
        self.registers.given(src)
    }

    /// What is pending at the source: what came since its last delivery, in one (dispatch_source_get_data(3)).
    pub fn pending_of(&self, src: Obj) -> u64
        requires { src.0 < length self.now.plan.objects }
        ensures { (plan : PlanView) (h : List Event) → StandsFor self.now plan h → result ≡ pending_of plan h src.0 }
    {
        self.registers.pending_of(src)
    }

    /// Whether the event is an act that parks its block (dispatch_sync(3), dispatch_barrier_sync(3),
    /// dispatch_semaphore_wait(3), dispatch_group_wait(3), dispatch_apply(3), dispatch_block_wait(3)).
    pub fn parks(&self, e: Event) -> bool
        ensures { (plan : PlanView) (h : List Event) → StandsFor self.now plan h → result ≡ parks plan e }
    {
        self.registers.parks(e)
    }
}
