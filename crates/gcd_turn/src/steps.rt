// The steps of a turn.
ghost use Rattle.std.specs.Prelude.{◌≡◌, ◌≤◌, ◌<◌, ◌++◌, [], ℕ, true, false, max, List, length, Some, IfSome, IfNone, OnOk, OnErr};
ghost use Rattle.gcd_plan.specs.Limits.{max_objects};
ghost use Rattle.gcd_plan.specs.PlanView.{PlanView};
ghost use Rattle.gcd_event.specs.declared.event.Event.{Event};
ghost use Rattle.gcd_history.specs.Ends.{HasEnded};
ghost use Rattle.gcd_history.specs.History.{choice_of, is_live_feed, next_due_of, running_of};
ghost use Rattle.gcd_machine.specs.Stands.{StandsFor};
ghost use Rattle.gcd_outer.specs.declared.limits.TheConstants.{MAX_FEEDS};
ghost use Rattle.gcd_outer.specs.Outside.{seen};
ghost use Rattle.gcd_outer.specs.Tells.{PollerState};
ghost use Rattle.gcd_turn.specs.Asked.{AllWatched, HasFailed, HasNotFailed, KeepsListens, WaitedFor};
ghost use Rattle.gcd_turn.specs.Hearing.{Heard};
ghost use Rattle.gcd_turn.specs.Named.{NamesDue};
ghost use Rattle.gcd_turn.specs.Times.{IsTime, IsPollWait};
ghost use Rattle.gcd_turn.specs.Turns.{HasRoom, OutlookView, event_of};
ghost use Rattle.gcd_turn.specs.declared.limits.TheConstants.{POLL_WAIT};

use crate::limits::POLL_WAIT;
use gcd_event::Event;
use gcd_machine::{DueBy, Machine};
use gcd_outer::{Clock, Due, Failed, Poller, Tell};
use gcd_plan::{Obj, Plan};

// What the clock asks for.
#[derive(Clone, Copy)]
pub(crate) enum Time {
    // A Tick at this time.
    Tick(u32),
    // Nothing yet: so many milliseconds are left to the next due time, if there is one.
    Left(Option<u32>),
}

// The event that records a piece of news.
#[inline(always)]
pub(crate) fn event_of(tell: Tell) -> Event
    ensures { result ≡ event_of tell }
{
    let src = Obj(tell.feed);
    if tell.ended {
        Event::FeedEnd { src }
    } else {
        Event::Ready {
            src,
            bytes: tell.bytes,
        }
    }
}

// Whether nothing more is recorded: the run is halted, full, which is at `most` events, or quiescent. A run in which worker 0 has a choice is not quiescent,
// so only one without a choice is looked at.
#[inline(always)]
pub(crate) fn is_over(machine: &Machine, most: u32, chosen: Option<Event>) -> bool
    requires { (plan : PlanView) (h : List Event) → StandsFor machine.now plan h → chosen ≡ choice_of plan h 0 0 }
    ensures over { (plan : PlanView) (h : List Event) → StandsFor machine.now plan h → length h ≤ most
        → result ≡ true → HasEnded most plan h }
    ensures goes_on { (plan : PlanView) (h : List Event) → StandsFor machine.now plan h → result ≡ false → HasRoom most plan h }
{
    if machine.is_halted() {
        return true;
    }
    if machine.len() >= most {
        return true;
    }
    if chosen.is_some() {
        return false;
    }
    machine.is_quiescent()
}

// The live feed with the least number from this one on. It costs nothing to speak of where no feed is live. A machine that stands
// for no history may name any, so what is named is looked at.
#[inline(always)]
pub(crate) fn live_feed_from(plan: &Plan, machine: &Machine, from: u32) -> Option<Obj>
    requires { machine.now.plan ≡ plan.now }
    ensures from { IfSome result (λ s. from ≤ s.0) }
    ensures within { IfSome result (λ s. s.0 < length plan.now.objects) }
    ensures few { length plan.now.objects ≤ max_objects }
    ensures live { (h : List Event) → StandsFor machine.now plan.now h → IfSome result (λ s. is_live_feed plan.now h s.0 ≡ true) }
    ensures first { (h : List Event) → StandsFor machine.now plan.now h
        → IfSome result (λ s. (k : ℕ) → from ≤ k → k < s.0 → is_live_feed plan.now h k ≡ false) }
    ensures none { (h : List Event) → StandsFor machine.now plan.now h
        → IfNone result ((k : ℕ) → from ≤ k → k < length plan.now.objects → is_live_feed plan.now h k ≡ false) }
{
    let objects = plan.objects();
    let src = machine.next_live_feed(from)?;
    if src.0 < from {
        return None;
    }
    if src.0 >= objects {
        return None;
    }
    Some(src)
}

// The live feed is watched from now on.
fn watch_one<P: Poller>(
    plan: &Plan,
    machine: &Machine,
    poller: &mut P,
    src: Obj,
) -> Result<(), Failed>
    requires within { src.0 < length plan.now.objects }
    requires low { src.0 < MAX_FEEDS }
    requires live { (h : List Event) → StandsFor machine.now plan.now h → is_live_feed plan.now h src.0 ≡ true }
    ensures watched { OnOk result ((P.state poller.new).watched src.0 ≡ true) }
    ensures still { (s : ℕ) → (P.state poller.old).watched s ≡ true → (P.state poller.new).watched s ≡ true }
    ensures heard { (stood placed : List Event) (before : PollerState) (o : OutlookView)
        → StandsFor machine.now plan.now (stood ++ placed)
        → P.tells ≡ true → Heard plan.now stood placed before (P.state poller.old) o
        → Heard plan.now stood placed before (P.state poller.new) o }
    ensures kept { KeepsListens P.tells (P.state poller.old) (P.state poller.new) }
    ensures ok { OnOk result (HasNotFailed (P.state poller.old) (P.state poller.new)) }
    ensures failed { OnErr result (HasFailed (P.state poller.old) (P.state poller.new)) }
{
    if poller.is_watched(src.0) {
        return Ok(());
    }
    poller.watch(src.0, plan.path_of(src))?;
    Ok(())
}

// Each live feed is watched from now on, by number.
#[inline(always)]
pub(crate) fn watch_new<P: Poller>(
    plan: &Plan,
    machine: &Machine,
    poller: &mut P,
) -> Result<(), Failed>
    requires { machine.now.plan ≡ plan.now }
    ensures watched { (h : List Event) → StandsFor machine.now plan.now h
        → OnOk result (AllWatched plan.now h (P.state poller.new)) }
    ensures heard { (stood placed : List Event) (before : PollerState) (o : OutlookView)
        → StandsFor machine.now plan.now (stood ++ placed)
        → P.tells ≡ true → Heard plan.now stood placed before (P.state poller.old) o
        → Heard plan.now stood placed before (P.state poller.new) o }
    ensures kept { KeepsListens P.tells (P.state poller.old) (P.state poller.new) }
    ensures ok { OnOk result (HasNotFailed (P.state poller.old) (P.state poller.new)) }
    ensures failed { OnErr result (HasFailed (P.state poller.old) (P.state poller.new)) }
{
    let mut from = 0;
    while let Some(src) = live_feed_from(plan, machine, from) {
        watch_one(plan, machine, poller, src)?;
        from = src.0 + 1;
    }
    Ok(())
}

// A Tick that is due, or how long the next due time is ahead. The clock is asked only where a due time is left.
#[inline(always)]
pub(crate) fn next_time<C: Clock>(start: u64, plan: &Plan, machine: &Machine, clock: &mut C) -> Time
    ensures time { (h : List Event) → StandsFor machine.now plan.now h
        → IsTime plan.now h start (seen C.tells C.state clock.old clock.new) result }
    ensures goes_on { (C.state clock.old).present ≤ (C.state clock.new).present }
    ensures waited { C.tells ≡ true → (C.state clock.new).waited ≡ (C.state clock.old).waited }
{
    let Some(due) = machine.next_due() else {
        return Time::Left(None);
    };
    let due = u64::from(due);
    let passed = clock.now().saturating_sub(start);
    if passed < due {
        return Time::Left(Some((due - passed) as u32));
    }
    Time::Tick(passed.min(u64::from(plan.until())) as u32)
}

// How long a poll waits, in milliseconds: not at all where something runs or the intake is open, and else not past the next due time.
pub(crate) fn poll_wait(machine: &Machine, left: Option<u32>) -> u32
    ensures { (plan : PlanView) (h : List Event) → StandsFor machine.now plan h → IsPollWait plan h left result }
{
    if machine.running() > 0 {
        return 0;
    }
    if machine.intake_open() {
        return 0;
    }
    match left {
        Some(ms) => ms.min(POLL_WAIT),
        None => POLL_WAIT,
    }
}

// What is due next, by its name in the plan. A machine that stands for no history may name any timer or block, so what is named is looked
// at.
fn next_by_name<'a>(plan: &'a Plan, machine: &Machine) -> Option<Due<'a>>
    ensures due { (h : List Event) (t : ℕ) → StandsFor machine.now plan.now h → next_due_of plan.now h ≡ Some t
        → IfSome result (NamesDue plan.now h t) }
{
    match machine.due_by()? {
        DueBy::Timer(s) => {
            if s.0 >= plan.objects() {
                return None;
            }
            Some(Due::Timer(plan.name_of_obj(s)))
        }
        DueBy::Wait(b) => {
            if b.0 >= plan.blocks() {
                return None;
            }
            Some(Due::Wait(plan.name_of_blk(b)))
        }
    }
}

// Waits until the present is at least `t`, which is the next due time, and tells the clock what is due.
fn wait_by_name<C: Clock>(t: u64, plan: &Plan, machine: &Machine, clock: &mut C)
    ensures reached { t ≤ (C.state clock.new).present }
    ensures goes_on { (C.state clock.old).present ≤ (C.state clock.new).present }
    ensures waited { C.tells ≡ true → (C.state clock.new).waited ≡ max ((C.state clock.old).waited) t }
{
    match next_by_name(plan, machine) {
        Some(due) => clock.wait_for(t, due),
        None => clock.wait_until(t),
    }
}

// Waits for the next due time, if there is one, nothing runs and no intake is open. The clock gets the name of what is due then.
pub(crate) fn wait<C: Clock>(start: u64, plan: &Plan, machine: &Machine, clock: &mut C)
    ensures goes_on { (C.state clock.old).present ≤ (C.state clock.new).present }
    ensures waited { (plan : PlanView) (h : List Event) → StandsFor machine.now plan h → C.tells ≡ true
        → WaitedFor plan h start (C.state clock.old) (C.state clock.new) }
{
    if machine.running() > 0 {
        return;
    }
    if machine.intake_open() {
        return;
    }
    if let Some(due) = machine.next_due() {
        wait_by_name(start.saturating_add(u64::from(due)), plan, machine, clock);
    }
}
