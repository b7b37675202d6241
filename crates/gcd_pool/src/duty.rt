// What a worker has to do next, as its machine tells it.
ghost use Rattle.std.specs.Prelude.{◌≡◌, ◌<◌, ◌≤◌, ℕ, true, List, None, Some, length, MatchOption};
ghost use Rattle.gcd_plan.specs.PlanView.{PlanView};
ghost use Rattle.gcd_plan.specs.declared.numbers.Run.TheVariants.{Block};
ghost use Rattle.gcd_event.specs.Owners.{begun};
ghost use Rattle.gcd_event.specs.declared.event.Event.{Event};
ghost use Rattle.gcd_history.specs.Ends.{HasEnded, IsGoingOn};
ghost use Rattle.gcd_history.specs.History.{why, choice_of, node_of};
ghost use Rattle.gcd_machine.specs.Stands.{StandsFor};
ghost use Rattle.gcd_pool.specs.Duties.{HasExit, IsDuty, begun_on};

use gcd_event::Event;
use gcd_machine::Machine;
use gcd_plan::{Blk, Obj, Run};

/// How a run has ended for a worker.
#[derive(Clone, Copy)]
pub enum Exit {
    /// Nothing but a Halt can come any more, and the run is not halted.
    Quiescent,
    /// The last event is a Misuse or a Halt.
    Halted,
    /// There is no room for an event more, and the run is neither quiescent nor halted.
    Full,
}

/// What a worker has to do next.
#[derive(Clone, Copy)]
pub enum Duty {
    /// To leave: the run has ended.
    Leave(Exit),
    /// To record this event, which begins no run on a node: the next of its own run, a Wake, or the Start of `main`.
    Record(Event),
    /// To record this event, which begins a run on this node. It has to hold the node's Drain.
    Begin(Obj, Event),
    /// Nothing, though the run goes on.
    Rest,
}

// The node on which a block that may start was submitted.
#[tactic(auto, using(crate::proofs::Begun::begun_is_known))]
#[inline(always)]
fn node_of_start(machine: &Machine, blk: Blk) -> Option<Obj>
    ensures { (plan : PlanView) (h : List Event) (e : Event) → StandsFor machine.now plan h → why plan h e ≡ None
        → begun e ≡ Some (Block blk) → result ≡ node_of plan h blk.0 }
{
    if blk.0 < machine.blocks() {
        machine.node_of(blk)
    } else {
        None
    }
}

// The node on which a permitted event begins a run.
#[inline(always)]
pub fn node_of_begin(machine: &Machine, e: Event) -> Option<Obj>
    ensures { (plan : PlanView) (h : List Event) → StandsFor machine.now plan h → why plan h e ≡ None → result ≡ begun_on plan h e }
{
    match e.begun() {
        Some(Run::Block(blk)) => node_of_start(machine, blk),
        Some(Run::Source(src)) => Some(src),
        None => None,
    }
}

// How the run has ended, where it is quiescent or halted. None where it goes on, but for room.
fn end_of(machine: &Machine) -> Option<Exit>
    ensures { (most : ℕ) (plan : PlanView) (h : List Event) → StandsFor machine.now plan h
        → MatchOption result (IsGoingOn plan h) (λ exit. HasExit most plan h exit) }
{
    if machine.is_halted() {
        Some(Exit::Halted)
    } else if machine.is_quiescent() {
        Some(Exit::Quiescent)
    } else {
        None
    }
}

// How a run that has ended has ended.
pub fn exit_of(machine: &Machine) -> Exit
    ensures { (most : ℕ) (plan : PlanView) (h : List Event) → StandsFor machine.now plan h → HasEnded most plan h → HasExit most plan h result }
{
    match end_of(machine) {
        Some(exit) => exit,
        None => Exit::Full,
    }
}

// Whether the run, of at most so many events, has ended.
pub fn has_ended(most: u32, machine: &Machine) -> bool
    ensures { (plan : PlanView) (h : List Event) → StandsFor machine.now plan h → length h ≤ most → result ≡ true → HasEnded most plan h }
{
    if machine.len() >= most {
        return true;
    }
    match end_of(machine) {
        Some(_) => true,
        None => false,
    }
}

// Where a run with no choice has come to.
fn rest_or_leave(machine: &Machine) -> Duty
    ensures { (most : ℕ) (plan : PlanView) (h : List Event) (w from : ℕ) → StandsFor machine.now plan h → choice_of plan h w from ≡ None → length h < most
        → IsDuty most plan h w from result }
{
    match end_of(machine) {
        Some(exit) => Duty::Leave(exit),
        None => Duty::Rest,
    }
}

/// What the worker has to do where the run, of at most so many events, has come so far as the machine stands for, its nodes from
/// number `from` on. It costs one [`Machine::choose`], and where that is None one [`Machine::is_quiescent`].
pub fn duty_of(most: u32, machine: &Machine, worker: u8, from: u32) -> Duty
    ensures { (plan : PlanView) (h : List Event) → StandsFor machine.now plan h → length h ≤ most
        → IsDuty most plan h worker from result }
{
    if machine.len() >= most {
        return Duty::Leave(exit_of(machine));
    }
    match machine.choose(worker, from) {
        Some(e) => match node_of_begin(machine, e) {
            Some(node) => Duty::Begin(node, e),
            None => Duty::Record(e),
        },
        None => rest_or_leave(machine),
    }
}
