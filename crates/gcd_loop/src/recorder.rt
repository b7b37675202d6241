// The interface between worker 0's loop and whatever keeps the events of a run.
ghost use Rattle.std.specs.Prelude.{◌≡◌, Some, None, true, List, OnOk, IfOk};
ghost use Rattle.gcd_event.specs.declared.event.Event.{Event};
ghost use Rattle.gcd_history.specs.Ends.{HasEnded};
ghost use Rattle.gcd_history.specs.History.{choice_of, is_intake_open};
ghost use Rattle.gcd_refinement.specs.MachineView.{MachineView};
ghost use Rattle.gcd_turn.specs.Turns.{HasRoom};
ghost use Rattle.gcd_loop.specs.Recorded.{Admits, After, Bounds, Grows, IsGrown, IsOutside, IsSight, Says};
ghost use Rattle.gcd_loop.specs.Rushed.{IsRushed};

use gcd_event::Event;
use gcd_machine::{Machine, Put};
use gcd_plan::Plan;
use std::sync::Wait;

/// The result of a step of the recorder.
#[derive(Clone, Copy)]
pub enum Step {
    /// The step did something.
    Placed,
    /// The step did nothing.
    Waited,
    /// The step saw nothing more, and the turn stops, because the engine must do something first that no method of a recorder may do.
    Stopped,
    /// The run has ended.
    Over,
}

/// Keeps the events of a run for worker 0. After an `Err` only `kept` holds.
pub trait Recorder {
    /// Why it cannot go on: out of memory, or never.
    type Fault;

    /// The plan of the run, and how many events it may have.
    ghost bounds: { Self → Bounds };

    /// The events that it has seen.
    ghost seen: { Self → List Event };

    /// Its machine.
    ghost sight: { Self → MachineView };

    /// Holds between two steps.
    ghost ready: { Self → Type 0 };

    /// Relates it to what it becomes by any number of steps.
    ghost kept: { Self → Self → Type 0 };

    /// Holds once the run has ended.
    ghost left: { Self → Type 0 };

    /// Holds once a turn was stopped. For a recorder that never stops it is false.
    ghost stopped: { Self → Type 0 };

    /// The plan of the run.
    fn plan(&self) -> &Plan
        ensures { result.now ≡ (bounds self.now).plan };

    /// How many events the run may have.
    fn most(&self) -> u32
        ensures { result ≡ (bounds self.now).most };

    /// The machine that stands for what it has seen.
    fn machine(&self) -> &Machine
        ensures { result.now ≡ sight self.now };

    /// Sees what others have recorded.
    fn look(&mut self)
        requires ready { ready self.old }
        ensures ready { ready self.new }
        ensures bounds { bounds self.new ≡ bounds self.old }
        ensures grows { Grows (seen self.old) (seen self.new) }
        ensures kept { (a : Self) → kept a self.old → kept a self.new };

    /// Records worker 0's choices, one event after another, while poller, clock and outside callers have nothing to tell. It may record
    /// none.
    fn rush(&mut self) -> Result<(), Self::Fault>
        requires ready { ready self.old }
        ensures ready { OnOk result (ready self.new) }
        ensures bounds { OnOk result (bounds self.new ≡ bounds self.old) }
        ensures rushed { OnOk result (IsRushed (bounds self.old).plan (seen self.old) (seen self.new)) }
        ensures kept { (a : Self) → kept a self.old → kept a self.new };

    /// Records an event of poller or clock, where it may come next. [`Put::Held`] and [`Put::Full`] say that it may be put again. A Halt is
    /// never held.
    fn put<R: Wait>(&mut self, rt: &R, e: Event) -> Result<Put, Self::Fault>
        requires ready { ready self.old }
        requires room { HasRoom (bounds self.old).most (bounds self.old).plan (seen self.old) }
        requires outside { IsOutside e }
        ensures ready { OnOk result (ready self.new) }
        ensures bounds { OnOk result (bounds self.new ≡ bounds self.old) }
        ensures said { IfOk result (Says (bounds self.old).most (bounds self.old).plan e (seen self.old) (seen self.new)) }
        ensures kept { (a : Self) → kept a self.old → kept a self.new };

    /// Sees to the intake, which is open: it puts an Accept, for the next job of an outside caller, or a Shut if no job can come any more.
    /// None if there is nothing to put now: the turn goes on then.
    fn admit<R: Wait>(&mut self, rt: &R) -> Result<Option<Put>, Self::Fault>
        requires ready { ready self.old }
        requires room { HasRoom (bounds self.old).most (bounds self.old).plan (seen self.old) }
        requires open { is_intake_open (bounds self.old).plan (seen self.old) ≡ true }
        ensures ready { OnOk result (ready self.new) }
        ensures bounds { OnOk result (bounds self.new ≡ bounds self.old) }
        ensures said { IfOk result (Admits (bounds self.old).most (bounds self.old).plan (seen self.old) (seen self.new)) }
        ensures kept { (a : Self) → kept a self.old → kept a self.new };

    /// Does what worker 0 chooses, the nodes from number 0 on, or other work.
    fn work<R: Wait>(&mut self, rt: &R, e: Event) -> Result<Step, Self::Fault>
        requires ready { ready self.old }
        requires room { HasRoom (bounds self.old).most (bounds self.old).plan (seen self.old) }
        requires chosen { choice_of (bounds self.old).plan (seen self.old) 0 0 ≡ Some e }
        ensures bounds { OnOk result (bounds self.new ≡ bounds self.old) }
        ensures after { IfOk result (After (ready self.new) (stopped self.new × (seen self.new ≡ seen self.old))
            (HasEnded (bounds self.old).most (bounds self.old).plan (seen self.new) × left self.new)) }
        ensures grown { OnOk result (IsGrown (bounds self.old).most (bounds self.old).plan (seen self.old) (seen self.new)) }
        ensures kept { (a : Self) → kept a self.old → kept a self.new };

    /// Worker 0 has no choice. It sees what others have done, or does other work. If there is none, worker 0 listens or waits.
    fn rest<R: Wait>(&mut self, rt: &R) -> Result<Step, Self::Fault>
        requires ready { ready self.old }
        requires room { HasRoom (bounds self.old).most (bounds self.old).plan (seen self.old) }
        requires none { choice_of (bounds self.old).plan (seen self.old) 0 0 ≡ None }
        ensures bounds { OnOk result (bounds self.new ≡ bounds self.old) }
        ensures after { IfOk result (After (ready self.new) (stopped self.new × (seen self.new ≡ seen self.old))
            (HasEnded (bounds self.old).most (bounds self.old).plan (seen self.new) × left self.new)) }
        ensures none { IfOk result (λ step. step ≡ Step.Waited → seen self.new ≡ seen self.old) }
        ensures grown { OnOk result (IsGrown (bounds self.old).most (bounds self.old).plan (seen self.old) (seen self.new)) }
        ensures kept { (a : Self) → kept a self.old → kept a self.new };

    /// An event was placed, so the next [`Recorder::pause`] counts as the first.
    fn resume(&mut self)
        requires ready { ready self.old }
        ensures ready { ready self.new }
        ensures bounds { bounds self.new ≡ bounds self.old }
        ensures same { seen self.new ≡ seen self.old }
        ensures kept { (a : Self) → kept a self.old → kept a self.new };

    /// No event was placed. If others may place one, time passes before the next turn.
    fn pause<R: Wait>(&mut self, rt: &R)
        requires ready { ready self.old }
        ensures ready { ready self.new }
        ensures bounds { bounds self.new ≡ bounds self.old }
        ensures same { seen self.new ≡ seen self.old }
        ensures kept { (a : Self) → kept a self.old → kept a self.new };

    /// The machine stands for what is seen.
    ghost stands: { (r : Self) → ready r → IsSight (bounds r).most (bounds r).plan (seen r) (sight r) };

    /// `left` follows from `ready`.
    ghost leaves: { (r : Self) → ready r → left r };
}
